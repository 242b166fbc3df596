//! What tests are made of, written as texts.
//!
//! A text is read from the left, and each letter makes something of what was made before it. Words: `a` to
//! `z` are variables, `0` to `9` numbers, `&` the number of two numbers as digits, `+` and `-` a sum and a
//! difference, `%` the fresh variable 9, `$` the label f. Sequences: `A` to `Z` are the variables a to z, `[` is nil, `;` a word before a sequence, `.`
//! two sequences. Facts of two words: `=`, `#` (differ), `<`, `{` (at most); of two sequences `~`; of a word
//! and a sequence `?` (in) and `!` (not in); of a word `@` (code of the signature C). Atoms: `>` a cell, `_` a
//! byte, `]` a block, `*` a segment lseg of two words and a sequence, `)` the predicate d of a word. Arguments:
//! `,` makes one of a word (a number of a number), `^` of a sequence, `|` of a fact, `"` the name lseg, and `:` with F, G, X, Y,
//! P, Q, R, S or K an edge of a number, with Z one of a word, and with H the last kind. A node is `/`, the
//! letter of its rule, and the number of its children: it takes all arguments and as many trees.
use bed_deriv::{DArg, Deriv, Edge, Rule};
use bed_lang::{Arg, Atom, Box, List, Name, Pure, Seq, Var, Word};
use std::alloc::{AllocError, Global};
use std::mem;
use std::test::Fail;

/// What a text has made.
#[derive(Drop)]
pub(crate) struct Made {
    pub words: List<Word>,
    pub seqs: List<Seq>,
    pub facts: List<Pure>,
    pub atoms: List<Atom>,
    pub args: List<DArg>,
    pub trees: List<Deriv>,
}

pub(crate) fn name(alloc: Global, byte: u8) -> Result<Name, AllocError> {
    Ok(Name {
        bytes: List::from_slice(alloc, &[byte])?,
        at: 0,
    })
}

pub(crate) fn variable(alloc: Global, byte: u8) -> Result<Word, AllocError> {
    Ok(Word::Var(Var::Named(name(alloc, byte)?)))
}

fn sequence(alloc: Global, byte: u8) -> Result<Seq, AllocError> {
    Ok(Seq::Var(Var::Named(name(alloc, byte)?)))
}

// ---- words and sequences

fn word(words: &mut List<Word>) -> Result<Word, Fail> {
    match words.pop() {
        Some(w) => Ok(w),
        None => Err(Fail::from("a word")),
    }
}

fn seq(seqs: &mut List<Seq>) -> Result<Seq, Fail> {
    match seqs.pop() {
        Some(s) => Ok(s),
        None => Err(Fail::from("a sequence")),
    }
}

fn boxed_word(alloc: Global, words: &mut List<Word>) -> Result<Box<Word>, Fail> {
    Ok(Box::new(alloc, word(words)?)?)
}

fn boxed_seq(alloc: Global, seqs: &mut List<Seq>) -> Result<Box<Seq>, Fail> {
    Ok(Box::new(alloc, seq(seqs)?)?)
}

fn sum(alloc: Global, words: &mut List<Word>) -> Result<Word, Fail> {
    let b = boxed_word(alloc, words)?;
    let a = boxed_word(alloc, words)?;
    Ok(Word::Add(a, b))
}

fn difference(alloc: Global, words: &mut List<Word>) -> Result<Word, Fail> {
    let b = boxed_word(alloc, words)?;
    let a = boxed_word(alloc, words)?;
    Ok(Word::Sub(a, b))
}

fn two_digits(words: &mut List<Word>) -> Result<Word, Fail> {
    let b = number(words)?;
    let a = number(words)?;
    Ok(Word::Number(a.wrapping_mul(10).wrapping_add(b)))
}

fn label(alloc: Global) -> Result<Word, AllocError> {
    Ok(Word::Label(name(alloc, b'f')?))
}

fn made_word(alloc: Global, words: &mut List<Word>, letter: u8) -> Result<Word, Fail> {
    match letter {
        b'0'..=b'9' => Ok(Word::Number(u32::from(letter.wrapping_sub(b'0')))),
        b'&' => two_digits(words),
        b'+' => sum(alloc, words),
        b'-' => difference(alloc, words),
        b'%' => Ok(Word::Var(Var::Fresh(9))),
        b'$' => Ok(label(alloc)?),
        _ => Ok(variable(alloc, letter)?),
    }
}

fn push_word(alloc: Global, words: &mut List<Word>, letter: u8) -> Result<(), Fail> {
    let w = made_word(alloc, words, letter)?;
    Ok(words.push(w)?)
}

fn longer(alloc: Global, made: &mut Made) -> Result<Seq, Fail> {
    let s = boxed_seq(alloc, &mut made.seqs)?;
    let a = boxed_word(alloc, &mut made.words)?;
    Ok(Seq::Cons(a, s))
}

fn both(alloc: Global, seqs: &mut List<Seq>) -> Result<Seq, Fail> {
    let t = boxed_seq(alloc, seqs)?;
    let s = boxed_seq(alloc, seqs)?;
    Ok(Seq::App(s, t))
}

fn made_seq(alloc: Global, made: &mut Made, letter: u8) -> Result<Seq, Fail> {
    match letter {
        b'[' => Ok(Seq::Nil),
        b';' => longer(alloc, made),
        b'.' => both(alloc, &mut made.seqs),
        _ => Ok(sequence(alloc, letter.wrapping_add(32))?),
    }
}

fn push_seq(alloc: Global, made: &mut Made, letter: u8) -> Result<(), Fail> {
    let s = made_seq(alloc, made, letter)?;
    Ok(made.seqs.push(s)?)
}

// ---- facts and atoms

fn two_words(words: &mut List<Word>) -> Result<(Word, Word), Fail> {
    let b = word(words)?;
    let a = word(words)?;
    Ok((a, b))
}

fn of_words(words: &mut List<Word>, letter: u8) -> Result<Pure, Fail> {
    let (a, b) = two_words(words)?;
    match letter {
        b'=' => Ok(Pure::Equal(a, b)),
        b'#' => Ok(Pure::Unequal(a, b)),
        b'<' => Ok(Pure::Less(a, b)),
        _ => Ok(Pure::AtMost(a, b)),
    }
}

fn same(seqs: &mut List<Seq>) -> Result<Pure, Fail> {
    let t = seq(seqs)?;
    let s = seq(seqs)?;
    Ok(Pure::Same(s, t))
}

fn membership(made: &mut Made, letter: u8) -> Result<Pure, Fail> {
    let s = seq(&mut made.seqs)?;
    let a = word(&mut made.words)?;
    match letter {
        b'?' => Ok(Pure::Member(a, s)),
        _ => Ok(Pure::NonMember(a, s)),
    }
}

fn code(alloc: Global, words: &mut List<Word>) -> Result<Pure, Fail> {
    let signature = name(alloc, b'C')?;
    let a = word(words)?;
    Ok(Pure::Code(a, signature))
}

fn made_fact(alloc: Global, made: &mut Made, letter: u8) -> Result<Pure, Fail> {
    match letter {
        b'~' => same(&mut made.seqs),
        b'?' | b'!' => membership(made, letter),
        b'@' => code(alloc, &mut made.words),
        _ => of_words(&mut made.words, letter),
    }
}

fn push_fact(alloc: Global, made: &mut Made, letter: u8) -> Result<(), Fail> {
    let p = made_fact(alloc, made, letter)?;
    Ok(made.facts.push(p)?)
}

fn of_address(words: &mut List<Word>, letter: u8) -> Result<Atom, Fail> {
    let (a, b) = two_words(words)?;
    match letter {
        b'>' => Ok(Atom::Cell(a, b)),
        b'_' => Ok(Atom::Byte(a, b)),
        _ => Ok(Atom::Block(a, b)),
    }
}

fn segment_args(alloc: Global, made: &mut Made) -> Result<List<Arg>, Fail> {
    let mut args = List::new(alloc);
    let (start, end) = two_words(&mut made.words)?;
    args.push(Arg::Word(0, start))?;
    args.push(Arg::Word(0, end))?;
    args.push(Arg::Seq(0, seq(&mut made.seqs)?))?;
    Ok(args)
}

fn doubled(alloc: Global, words: &mut List<Word>) -> Result<Atom, Fail> {
    let mut args = List::new(alloc);
    args.push(Arg::Word(0, word(words)?))?;
    Ok(Atom::Pred(name(alloc, b'd')?, args))
}

fn lseg(alloc: Global) -> Result<Name, AllocError> {
    Ok(Name {
        bytes: List::from_slice(alloc, b"lseg")?,
        at: 0,
    })
}

fn segment(alloc: Global, made: &mut Made) -> Result<Atom, Fail> {
    let args = segment_args(alloc, made)?;
    Ok(Atom::Pred(lseg(alloc)?, args))
}

fn push_atom(alloc: Global, made: &mut Made, letter: u8) -> Result<(), Fail> {
    let atom = match letter {
        b'*' => segment(alloc, made)?,
        b')' => doubled(alloc, &mut made.words)?,
        _ => of_address(&mut made.words, letter)?,
    };
    Ok(made.atoms.push(atom)?)
}

// ---- trees

fn of_word(w: Word) -> DArg {
    match w {
        Word::Number(n) => DArg::Number(n),
        _ => DArg::Arg(Arg::Word(0, w)),
    }
}

fn of_fact(facts: &mut List<Pure>) -> Result<DArg, Fail> {
    match facts.pop() {
        Some(p) => Ok(DArg::Pure(p)),
        None => Err(Fail::from("a fact")),
    }
}

fn push_arg(alloc: Global, made: &mut Made, letter: u8) -> Result<(), Fail> {
    let arg = match letter {
        b',' => of_word(word(&mut made.words)?),
        b'^' => DArg::Arg(Arg::Seq(0, seq(&mut made.seqs)?)),
        b'|' => of_fact(&mut made.facts)?,
        _ => DArg::Name(lseg(alloc)?),
    };
    Ok(made.args.push(arg)?)
}

fn number(words: &mut List<Word>) -> Result<u32, Fail> {
    match word(words)? {
        Word::Number(n) => Ok(n),
        _ => Err(Fail::from("a number")),
    }
}

fn edge(words: &mut List<Word>, kind: u8) -> Result<Edge, Fail> {
    match kind {
        b'H' => Ok(Edge::H),
        b'Z' => Ok(Edge::Z(word(words)?)),
        b'F' => Ok(Edge::F(number(words)?)),
        b'G' => Ok(Edge::G(number(words)?)),
        b'X' => Ok(Edge::X(number(words)?)),
        b'Y' => Ok(Edge::Y(number(words)?)),
        b'P' => Ok(Edge::P(number(words)?)),
        b'Q' => Ok(Edge::Q(number(words)?)),
        b'R' => Ok(Edge::R(number(words)?)),
        b'S' => Ok(Edge::S(number(words)?)),
        _ => Ok(Edge::K(number(words)?)),
    }
}

fn push_edge(made: &mut Made, kind: u8) -> Result<(), Fail> {
    let e = edge(&mut made.words, kind)?;
    Ok(made.args.push(DArg::Edge(e))?)
}

const RULES: [(u8, Rule); 30] = [
    (b'H', Rule::Hyp),
    (b'N', Rule::Norm),
    (b'c', Rule::Comb),
    (b's', Rule::Solve),
    (b'u', Rule::Uncons),
    (b'C', Rule::Chain),
    (b'O', Rule::Order),
    (b't', Rule::Cut),
    (b'R', Rule::Carry),
    (b'S', Rule::Split),
    (b'A', Rule::Absurd),
    (b'v', Rule::Void),
    (b'm', Rule::Member),
    (b'l', Rule::Lacks),
    (b'p', Rule::Part),
    (b'o', Rule::One),
    (b'D', Rule::Distinct),
    (b'B', Rule::Bound),
    (b'L', Rule::Label),
    (b'K', Rule::Claim),
    (b'W', Rule::When),
    (b'E', Rule::Never),
    (b'U', Rule::Unfold),
    (b'F', Rule::Fold),
    (b'J', Rule::Append),
    (b'V', Rule::Divide),
    (b'M', Rule::Merge),
    (b'P', Rule::Shape),
    (b'g', Rule::Step),
    (b'f', Rule::Finish),
];

fn rule(letter: u8) -> Result<Rule, Fail> {
    for (code, rule) in &RULES {
        if *code == letter {
            return Ok(*rule);
        }
    }
    Err(Fail::from("a rule"))
}

// The last trees, in their order.
fn last_trees(alloc: Global, trees: &mut List<Deriv>, many: u8) -> Result<List<Deriv>, AllocError> {
    let mut backwards = List::new(alloc);
    for _ in 0..many {
        if let Some(tree) = trees.pop() {
            backwards.push(tree)?;
        }
    }
    let mut last = List::new(alloc);
    for _ in 0..many {
        if let Some(tree) = backwards.pop() {
            last.push(tree)?;
        }
    }
    Ok(last)
}

fn push_node(alloc: Global, made: &mut Made, letter: u8, many: u8) -> Result<(), Fail> {
    let rule = rule(letter)?;
    let children = last_trees(alloc, &mut made.trees, many.wrapping_sub(b'0'))?;
    let args = mem::replace(&mut made.args, List::new(alloc));
    Ok(
        made.trees.push(Deriv {
            rule,
            args,
            children,
        })?,
    )
}

fn push(alloc: Global, made: &mut Made, letter: u8) -> Result<(), Fail> {
    match letter {
        b'A'..=b'Z' | b'[' | b';' | b'.' => push_seq(alloc, made, letter),
        b'=' | b'#' | b'<' | b'{' | b'~' | b'?' | b'!' | b'@' => push_fact(alloc, made, letter),
        b'>' | b'_' | b']' | b'*' | b')' => push_atom(alloc, made, letter),
        b',' | b'^' | b'|' | b'"' => push_arg(alloc, made, letter),
        _ => push_word(alloc, &mut made.words, letter),
    }
}

fn nothing(alloc: Global) -> Made {
    Made {
        words: List::new(alloc),
        seqs: List::new(alloc),
        facts: List::new(alloc),
        atoms: List::new(alloc),
        args: List::new(alloc),
        trees: List::new(alloc),
    }
}

fn read(alloc: Global, made: &mut Made, text: &[u8]) -> Result<(), Fail> {
    let mut rest = text;
    for _ in text {
        let [letter, more @ ..] = rest else {
            return Ok(());
        };
        rest = more;
        match (*letter, more) {
            (b' ', _) => {}
            (b'/', [code, many, others @ ..]) => {
                push_node(alloc, made, *code, *many)?;
                rest = others;
            }
            (b':', [kind, others @ ..]) => {
                push_edge(made, *kind)?;
                rest = others;
            }
            _ => push(alloc, made, *letter)?,
        }
    }
    Ok(())
}

/// What a text makes.
pub(crate) fn built(alloc: Global, text: &str) -> Result<Made, Fail> {
    let mut made = nothing(alloc);
    read(alloc, &mut made, text.as_bytes())?;
    Ok(made)
}

/// The one fact, and the one tree, that a text makes.
pub(crate) fn fact(alloc: Global, text: &str) -> Result<Pure, Fail> {
    let mut made = built(alloc, text)?;
    match made.facts.pop() {
        Some(p) => Ok(p),
        None => Err(Fail::from("a fact")),
    }
}

pub(crate) fn tree(alloc: Global, text: &str) -> Result<Deriv, Fail> {
    let mut made = built(alloc, text)?;
    match made.trees.pop() {
        Some(d) => Ok(d),
        None => Err(Fail::from("a tree")),
    }
}
