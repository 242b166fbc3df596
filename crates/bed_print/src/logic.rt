//! Assertions and their parts.
ghost use Rattle.std.specs.Prelude.{◌≡◌, ◌≤◌, ◌++◌, ◌∷◌, [], OnOk};
ghost use Rattle.bed_print.specs.Kinds.{fixed, word_kinds, seq_kinds, is_name_alone, arg_kinds, pure_kinds, atom_kinds, term_kinds, bind_kinds, binds_kinds, exists_kinds, assertion_kinds};

use crate::class::{
    ARROW, AT_MOST, BLOCK, BYTE_ARROW, CODE, COLON, COMMA, DOT, EMP, EQUAL, EXISTS, HOLE, IN,
    LEFT_BRACKET, LEFT_PAREN, LESS, NOTIN, RIGHT_BRACKET, RIGHT_PAREN, SAME, SEQ, STAR, UNEQUAL,
    WORD,
};
use crate::leaf::{push_fixed, push_name};
use crate::list::{Printed, push_parted};
use crate::sequence::push_seq;
use crate::word::push_word;
use bed_lang::{Arg, Assertion, Atom, Bind, List, Name, Pure, Seq, Sort, Term, Var, Word};
use bed_lex::Kind;
use std::alloc::{AllocError, Global};

/// Whether a word is a name alone.
fn alone(word: &Word) -> bool
    ensures { result ≡ is_name_alone word.now }
{
    match word {
        Word::Var(Var::Named(_)) => true,
        _ => false,
    }
}

/// Appends an argument that is a word: a name alone may be of either sort, so it has brackets.
fn push_argument(alloc: Global, word: &Word, out: &mut List<Kind>) -> Result<(), AllocError>
    ensures { OnOk result (out.new ≡ out.old ++ arg_kinds (Arg.Word 0 word.now)) }
{
    if alone(word) {
        push_fixed(LEFT_PAREN, out)?;
        push_word(alloc, word, out)?;
        push_fixed(RIGHT_PAREN, out)
    } else {
        push_word(alloc, word, out)
    }
}

/// Appends an argument that is a name or the hole.
fn push_bare(alloc: Global, name: &Name, out: &mut List<Kind>) -> Result<(), AllocError>
    ensures { OnOk result (out.new ≡ out.old ++ arg_kinds (Arg.Bare name.now)) }
{
    if name.bytes.as_slice() == b"_".as_slice() {
        push_fixed(HOLE, out)
    } else {
        push_name(alloc, name, out)
    }
}

impl Printed for Arg {
    ghost kinds = { arg_kinds };

    fn print(&self, alloc: Global, out: &mut List<Kind>) -> Result<(), AllocError> {
        match self {
            Arg::Word(_, word) => push_argument(alloc, word, out),
            Arg::Seq(_, seq) => push_seq(alloc, seq, out),
            Arg::Bare(name) => push_bare(alloc, name, out),
        }
    }
}

/// Appends a comparison of two words.
fn push_compared(
    alloc: Global,
    left: &Word,
    class: u8,
    right: &Word,
    out: &mut List<Kind>,
) -> Result<(), AllocError>
    requires { 3 ≤ class }
    ensures { OnOk result (out.new ≡ out.old ++ word_kinds left.now ++ fixed class ∷ word_kinds right.now) }
{
    push_word(alloc, left, out)?;
    push_fixed(class, out)?;
    push_word(alloc, right, out)
}

/// Appends that a word is an element of a sequence, or that it is none.
fn push_membership(
    alloc: Global,
    word: &Word,
    class: u8,
    seq: &Seq,
    out: &mut List<Kind>,
) -> Result<(), AllocError>
    requires { 3 ≤ class }
    ensures { OnOk result (out.new ≡ out.old ++ word_kinds word.now ++ fixed class ∷ seq_kinds seq.now) }
{
    push_word(alloc, word, out)?;
    push_fixed(class, out)?;
    push_seq(alloc, seq, out)
}

/// Appends a pure fact.
pub(crate) fn push_pure(alloc: Global, fact: &Pure, out: &mut List<Kind>) -> Result<(), AllocError>
    ensures { OnOk result (out.new ≡ out.old ++ pure_kinds fact.now) }
{
    match fact {
        Pure::Equal(left, right) => push_compared(alloc, left, EQUAL, right, out),
        Pure::Unequal(left, right) => push_compared(alloc, left, UNEQUAL, right, out),
        Pure::Less(left, right) => push_compared(alloc, left, LESS, right, out),
        Pure::AtMost(left, right) => push_compared(alloc, left, AT_MOST, right, out),
        Pure::Same(left, right) => {
            push_seq(alloc, left, out)?;
            push_fixed(SAME, out)?;
            push_seq(alloc, right, out)
        }
        Pure::Member(word, seq) => push_membership(alloc, word, IN, seq, out),
        Pure::NonMember(word, seq) => push_membership(alloc, word, NOTIN, seq, out),
        Pure::Code(word, name) => {
            push_fixed(CODE, out)?;
            push_fixed(LEFT_PAREN, out)?;
            push_word(alloc, word, out)?;
            push_fixed(COMMA, out)?;
            push_name(alloc, name, out)?;
            push_fixed(RIGHT_PAREN, out)
        }
    }
}

fn push_atom(alloc: Global, atom: &Atom, out: &mut List<Kind>) -> Result<(), AllocError>
    ensures { OnOk result (out.new ≡ out.old ++ atom_kinds atom.now) }
{
    match atom {
        Atom::Cell(address, value) => push_compared(alloc, address, ARROW, value, out),
        Atom::Byte(address, value) => push_compared(alloc, address, BYTE_ARROW, value, out),
        Atom::Block(address, words) => {
            push_fixed(BLOCK, out)?;
            push_fixed(LEFT_PAREN, out)?;
            push_word(alloc, address, out)?;
            push_fixed(COMMA, out)?;
            push_word(alloc, words, out)?;
            push_fixed(RIGHT_PAREN, out)
        }
        Atom::Pred(name, args) => {
            push_name(alloc, name, out)?;
            push_fixed(LEFT_PAREN, out)?;
            push_parted(alloc, COMMA, args.as_slice(), out)?;
            push_fixed(RIGHT_PAREN, out)
        }
    }
}

impl Printed for Term {
    ghost kinds = { term_kinds };

    fn print(&self, alloc: Global, out: &mut List<Kind>) -> Result<(), AllocError> {
        match self {
            Term::Emp => push_fixed(EMP, out),
            Term::Pure(fact) => {
                push_fixed(LEFT_BRACKET, out)?;
                push_pure(alloc, fact, out)?;
                push_fixed(RIGHT_BRACKET, out)
            }
            Term::Atom(atom) => push_atom(alloc, atom, out),
        }
    }
}

impl Printed for Bind {
    ghost kinds = { bind_kinds };

    fn print(&self, alloc: Global, out: &mut List<Kind>) -> Result<(), AllocError> {
        push_name(alloc, &self.name, out)?;
        push_fixed(COLON, out)?;
        match self.sort {
            Sort::Word => push_fixed(WORD, out),
            Sort::Seq => push_fixed(SEQ, out),
        }
    }
}

/// Appends the binders of an assertion, where there are some.
fn push_exists(alloc: Global, binders: &[Bind], out: &mut List<Kind>) -> Result<(), AllocError>
    ensures { OnOk result (out.new ≡ out.old ++ exists_kinds binders.now) }
{
    match binders {
        [] => Ok(()),
        [_, ..] => {
            push_fixed(EXISTS, out)?;
            push_parted(alloc, COMMA, binders, out)?;
            push_fixed(DOT, out)
        }
    }
}

impl Printed for Assertion {
    ghost kinds = { assertion_kinds };

    fn print(&self, alloc: Global, out: &mut List<Kind>) -> Result<(), AllocError> {
        push_exists(alloc, self.binders.as_slice(), out)?;
        push_parted(alloc, STAR, self.terms.as_slice(), out)
    }
}
