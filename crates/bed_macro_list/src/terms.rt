//! The terms of which the invariants and hints of loops over lists are made.

ghost use Rattle.std.specs.Prelude.{◌≡◌, ◌∷◌, [], IfOk};
ghost use Rattle.bed_lang.specs.Prelude.{name as name_of, segment as segment_of};
ghost use Rattle.bed_table.specs.ListLoops.{word_named as word_of_name, seq_named as seq_of_name, word_of as word_of_operand, parted as parted_term, not_yet as not_yet_terms};
ghost use Rattle.bed_sat.specs.Written.{word_arg as word_arg_of, hole as the_hole};

use crate::copies::three;
use bed_lang::{Arg, Atom, Box, List, Name, Operand, Pure, Seq, Term, Var, Word};
use std::alloc::{AllocError, Global};

/// A name that stands nowhere in a text.
pub(crate) fn name(alloc: Global, bytes: &[u8]) -> Result<Name, AllocError>
    ensures { IfOk result (λ x. x ≡ name_of bytes.now) }
{
    Ok(Name {
        bytes: List::from_slice(alloc, bytes)?,
        at: 0,
    })
}

/// A variable as a word.
pub(crate) fn word_named(alloc: Global, x: &Name) -> Result<Word, AllocError>
    ensures { IfOk result (λ w. w ≡ word_of_name x.now) }
{
    Ok(Word::Var(Var::Named(x.copy(alloc)?)))
}

/// A variable as a sequence.
pub(crate) fn seq_named(alloc: Global, x: &Name) -> Result<Seq, AllocError>
    ensures { IfOk result (λ s. s ≡ seq_of_name x.now) }
{
    Ok(Seq::Var(Var::Named(x.copy(alloc)?)))
}

/// An operand as a word.
pub(crate) fn word_of(alloc: Global, a: &Operand) -> Result<Word, AllocError>
    ensures { IfOk result (λ w. w ≡ word_of_operand a.now) }
{
    match a {
        Operand::Number(n) => Ok(Word::Number(*n)),
        Operand::Local(x) => word_named(alloc, x),
        Operand::Label(f) => Ok(Word::Label(f.copy(alloc)?)),
    }
}

/// A variable as an argument.
pub(crate) fn word_arg(alloc: Global, x: &Name) -> Result<Arg, AllocError>
    ensures { IfOk result (λ a. a ≡ word_arg_of x.now) }
{
    Ok(Arg::Word(0, word_named(alloc, x)?))
}

/// The hole that stands for a sequence.
pub(crate) fn hole() -> Arg
    ensures { result ≡ the_hole }
{
    Arg::Seq(0, Seq::Var(Var::Hole))
}

// Two sequences, one after the other.
fn app(alloc: Global, u: &Name, t: &Name) -> Result<Seq, AllocError>
    ensures { IfOk result (λ s. s ≡ Seq.App (seq_of_name u.now) (seq_of_name t.now)) }
{
    let front = boxed(alloc, u)?;
    let back = boxed(alloc, t)?;
    Ok(Seq::App(front, back))
}

fn boxed(alloc: Global, x: &Name) -> Result<Box<Seq>, AllocError>
    ensures { IfOk result (λ s. s ≡ seq_of_name x.now) }
{
    Box::new(alloc, seq_named(alloc, x)?)
}

/// The fact `s == app(u, t)`.
pub(crate) fn parted(alloc: Global, s: &Seq, u: &Name, t: &Name) -> Result<Term, AllocError>
    ensures { IfOk result (λ r. r ≡ parted_term s.now u.now t.now) }
{
    let whole = s.copy(alloc)?;
    let parts = app(alloc, u, t)?;
    Ok(Term::Pure(Pure::Same(whole, parts)))
}

/// The fact `a notin u`.
pub(crate) fn not_yet(alloc: Global, a: &Operand, u: &Name) -> Result<Term, AllocError>
    ensures { IfOk result (λ r. r ∷ [] ≡ not_yet_terms a.now u.now) }
{
    let word = word_of(alloc, a)?;
    let seq = seq_named(alloc, u)?;
    Ok(Term::Pure(Pure::NonMember(word, seq)))
}

/// The list segment between two words.
pub(crate) fn segment(alloc: Global, p: Word, q: Word, s: &Name) -> Result<Term, AllocError>
    ensures { IfOk result (λ r. r ≡ segment_of p q (seq_of_name s.now)) }
{
    let seq = seq_named(alloc, s)?;
    let args = three(alloc, Arg::Word(0, p), Arg::Word(0, q), Arg::Seq(0, seq))?;
    Ok(Term::Atom(Atom::Pred(name(alloc, b"lseg")?, args)))
}
