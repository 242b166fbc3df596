//! Texts with their tokens and trees.
use bed_lang::{Arg, Atom, Function, Hint, Module, Stmt, StmtKind, Term, Var, Word};
use bed_lex::{Kind, Token, tokens};
use bed_read::read_module;
use std::alloc::Global;

/// A text with its tokens and places: a letter for the kind (w a word or mark, n a name, d a number) and
/// the word's position, the name's first byte or the number.
const TOKENS: (&[u8], &[(u8, u32, u32)]) = (
    b"module m; // x\n a |->b 4294967295",
    &[
        (b'w', 0, 0),
        (b'n', 109, 7),
        (b'w', 58, 8),
        (b'n', 97, 16),
        (b'w', 70, 18),
        (b'd', 4_294_967_295, 23),
    ],
);

fn is_token(token: &Token, wanted: (u8, u32, u32)) -> bool {
    let (letter, value) = match &token.kind {
        Kind::Name(name) => (
            b'n',
            name.bytes.as_slice().first().map_or(0, |b| u32::from(*b)),
        ),
        Kind::Number(n) => (b'd', *n),
        Kind::Word(i) => (b'w', u32::from(*i)),
        Kind::Fresh(n) => (b'f', *n),
    };
    (letter, value, token.at) == wanted
}

fn are_tokens(tokens: &[Token], wanted: &[(u8, u32, u32)]) -> bool {
    tokens.len() == wanted.len()
        && tokens
            .iter()
            .zip(wanted.iter())
            .all(|(token, w)| is_token(token, *w))
}

fn has_tokens(alloc: Global, text: &[u8], wanted: &[(u8, u32, u32)]) -> bool {
    if text.len() > 1000 {
        return false;
    }
    match tokens(alloc, text) {
        Ok(tokens) => are_tokens(tokens.as_slice(), wanted),
        Err(_) => false,
    }
}

#[test]
fn a_text_has_its_tokens(rt: HostRuntime) {
    let (text, wanted) = TOKENS;
    assert!(rt; has_tokens(rt.alloc(), text, wanted));
}

/// A module whose parts tell cells of words from cells of bytes, and names alone from words.
const TEXT: &[u8] =
    b"module m; signature S() pre a |->bx * c |->b y post emp; export function f: S { hint fold p(r, (r), 0, _) case 2; }";

fn is_named(word: &Word, name: &[u8]) -> bool {
    match word {
        Word::Var(Var::Named(variable)) => variable.bytes.as_slice() == name,
        _ => false,
    }
}

/// `a |->bx * c |->b y`: a cell that holds bx, and a byte y.
fn has_both_cells(terms: &[Term]) -> bool {
    match terms {
        [Term::Atom(Atom::Cell(a, bx)), Term::Atom(Atom::Byte(c, y))] => {
            is_named(a, b"a") && is_named(bx, b"bx") && is_named(c, b"c") && is_named(y, b"y")
        }
        _ => false,
    }
}

/// `(r, (r), 0, _)`: a name alone is bare, and so is the hole.
fn has_four_arguments(args: &[Arg]) -> bool {
    match args {
        [
            Arg::Bare(r),
            Arg::Word(bracket, inner),
            Arg::Word(zero, Word::Number(0)),
            Arg::Bare(hole),
        ] => {
            r.bytes.as_slice() == b"r".as_slice()
                && r.at == 92
                && *bracket == 95
                && is_named(inner, b"r")
                && *zero == 100
                && hole.bytes.as_slice() == b"_".as_slice()
                && hole.at == 103
        }
        _ => false,
    }
}

/// `hint fold p(r, (r), 0, _) case 2;`
fn is_fold(statement: &Stmt) -> bool {
    match &statement.kind {
        StmtKind::Hint(Hint::Fold(name, args, 2)) => {
            statement.at == 80
                && name.bytes.as_slice() == b"p".as_slice()
                && has_four_arguments(args.as_slice())
        }
        _ => false,
    }
}

fn is_function(function: &Function) -> bool {
    match function.body.as_slice() {
        [statement] => {
            function.exported && function.name.at == 73 && function.end == 114 && is_fold(statement)
        }
        _ => false,
    }
}

fn has_both_parts(module: &Module) -> bool {
    match (module.signatures.as_slice(), module.functions.as_slice()) {
        ([signature], [function]) => {
            has_both_cells(signature.pre.terms.as_slice()) && is_function(function)
        }
        _ => false,
    }
}

fn has_its_tree(alloc: Global, text: &[u8]) -> bool {
    if text.len() > 1000 {
        return false;
    }
    match read_module(alloc, text) {
        Ok(module) => has_both_parts(&module),
        Err(_) => false,
    }
}

#[test]
fn a_text_has_its_tree(rt: HostRuntime) {
    assert!(rt; has_its_tree(rt.alloc(), TEXT));
}
