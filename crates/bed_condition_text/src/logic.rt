//! Facts, terms and assertions.
ghost use Rattle.std.specs.Prelude.{◌≡◌, ◌++◌, OnOk};
ghost use Rattle.bed_condition_text.specs.Texts.{word_text, seq_text, arg_text, pure_text, atom_text, term_text, sort_text, bind_text, exists_text, assertion_text};

use crate::leaf::push_name;
use crate::list::{Written, push_listed, push_parted};
use crate::word::{push_seq, push_word};
use bed_lang::{Arg, Assertion, Atom, Bind, Pure, Seq, Sort, Term, Word};
use std::alloc::{AllocError, Global};

impl Written for Arg {
    ghost text = { arg_text };

    fn write(&self, alloc: Global, out: &mut Vec<u8>) -> Result<(), AllocError> {
        match self {
            Arg::Word(_, word) => push_word(alloc, word, out),
            Arg::Seq(_, seq) => push_seq(alloc, seq, out),
            Arg::Bare(name) => push_name(name, out),
        }
    }
}

/// Appends two words with a mark between them.
fn push_words(
    alloc: Global,
    a: &Word,
    mark: &[u8],
    b: &Word,
    out: &mut Vec<u8>,
) -> Result<(), AllocError>
    ensures { OnOk result (out.new.items ≡ out.old.items ++ (word_text a.now ++ (mark.now ++ word_text b.now))) }
{
    push_word(alloc, a, out)?;
    out.extend_from_slice(mark)?;
    push_word(alloc, b, out)
}

/// Appends a word and a sequence with a mark between them.
fn push_membership(
    alloc: Global,
    a: &Word,
    mark: &[u8],
    s: &Seq,
    out: &mut Vec<u8>,
) -> Result<(), AllocError>
    ensures { OnOk result (out.new.items ≡ out.old.items ++ (word_text a.now ++ (mark.now ++ seq_text s.now))) }
{
    push_word(alloc, a, out)?;
    out.extend_from_slice(mark)?;
    push_seq(alloc, s, out)
}

/// Appends a fact.
fn push_pure(alloc: Global, fact: &Pure, out: &mut Vec<u8>) -> Result<(), AllocError>
    ensures { OnOk result (out.new.items ≡ out.old.items ++ pure_text fact.now) }
{
    match fact {
        Pure::Equal(a, b) => push_words(alloc, a, b" = ", b, out),
        Pure::Unequal(a, b) => push_words(alloc, a, b" != ", b, out),
        Pure::Less(a, b) => push_words(alloc, a, b" < ", b, out),
        Pure::AtMost(a, b) => push_words(alloc, a, b" <= ", b, out),
        Pure::Same(s, t) => {
            push_seq(alloc, s, out)?;
            out.extend_from_slice(b" == ")?;
            push_seq(alloc, t, out)
        }
        Pure::Member(a, s) => push_membership(alloc, a, b" in ", s, out),
        Pure::NonMember(a, s) => push_membership(alloc, a, b" notin ", s, out),
        Pure::Code(a, name) => {
            out.extend_from_slice(b"code(")?;
            push_word(alloc, a, out)?;
            out.extend_from_slice(b", ")?;
            push_name(name, out)?;
            out.extend_from_slice(b")")
        }
    }
}

/// Appends an atom.
fn push_atom(alloc: Global, atom: &Atom, out: &mut Vec<u8>) -> Result<(), AllocError>
    ensures { OnOk result (out.new.items ≡ out.old.items ++ atom_text atom.now) }
{
    match atom {
        Atom::Cell(a, b) => push_words(alloc, a, b" |-> ", b, out),
        Atom::Byte(a, b) => push_words(alloc, a, b" |->b ", b, out),
        Atom::Block(a, b) => {
            out.extend_from_slice(b"block(")?;
            push_words(alloc, a, b", ", b, out)?;
            out.extend_from_slice(b")")
        }
        Atom::Pred(name, args) => {
            push_name(name, out)?;
            out.extend_from_slice(b"(")?;
            push_listed(alloc, args.as_slice(), out)?;
            out.extend_from_slice(b")")
        }
    }
}

impl Written for Term {
    ghost text = { term_text };

    fn write(&self, alloc: Global, out: &mut Vec<u8>) -> Result<(), AllocError> {
        match self {
            Term::Emp => out.extend_from_slice(b"emp"),
            Term::Pure(fact) => {
                out.extend_from_slice(b"[")?;
                push_pure(alloc, fact, out)?;
                out.extend_from_slice(b"]")
            }
            Term::Atom(atom) => push_atom(alloc, atom, out),
        }
    }
}

/// Appends a sort.
fn push_sort(sort: Sort, out: &mut Vec<u8>) -> Result<(), AllocError>
    ensures { OnOk result (out.new.items ≡ out.old.items ++ sort_text sort) }
{
    match sort {
        Sort::Word => out.extend_from_slice(b"word"),
        Sort::Seq => out.extend_from_slice(b"seq"),
    }
}

impl Written for Bind {
    ghost text = { bind_text };

    fn write(&self, _alloc: Global, out: &mut Vec<u8>) -> Result<(), AllocError> {
        push_name(&self.name, out)?;
        out.extend_from_slice(b": ")?;
        push_sort(self.sort, out)
    }
}

/// Appends what stands before the terms of an assertion with binders.
fn push_exists(alloc: Global, binders: &[Bind], out: &mut Vec<u8>) -> Result<(), AllocError>
    ensures { OnOk result (out.new.items ≡ out.old.items ++ exists_text binders.now) }
{
    match binders {
        [] => Ok(()),
        [_, ..] => {
            out.extend_from_slice(b"exists ")?;
            push_listed(alloc, binders, out)?;
            out.extend_from_slice(b". ")
        }
    }
}

impl Written for Assertion {
    ghost text = { assertion_text };

    fn write(&self, alloc: Global, out: &mut Vec<u8>) -> Result<(), AllocError> {
        push_exists(alloc, self.binders.as_slice(), out)?;
        push_parted(alloc, b" * ", self.terms.as_slice(), out)
    }
}
