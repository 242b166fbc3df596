//! Facts, atoms and terms read with a term in place of each variable.
ghost use Rattle.std.specs.Prelude.{◌≡◌, IfOk, map};
ghost use Rattle.bed_lang.specs.Instances.{word_with, seq_with, pure_with, atom_with, term_with, terms_with};
ghost use Rattle.bed_deriv.specs.Opening.{replaced_word, replaced_seq, replaced_fact, replaced_atom, replaced_term};
ghost use Rattle.bed_deriv.specs.Readings.{instance_of};

use crate::reading::{Reading, read_seq, read_word};
use bed_forms::{Rewrite, rebuilt_seq, rebuilt_word, rewrite_atom, rewrite_fact, rewrite_term};
use bed_lang::{Atom, List, Pure, Seq, Term, Word};
use std::alloc::{AllocError, Global};

// Words and sequences as a reading has them.
#[derive(Clone, Copy)]
struct AsRead<'a>(&'a Reading<'a>);

impl Rewrite for AsRead<'_> {
    ghost words = { λ way. word_with (instance_of way.0.now) };

    ghost seqs = { λ way. seq_with (instance_of way.0.now) };

    fn word(&self, alloc: Global, w: &Word) -> Result<Word, AllocError> {
        read_word(alloc, self.0, w)
    }

    fn seq(&self, alloc: Global, s: &Seq) -> Result<Seq, AllocError> {
        read_seq(alloc, self.0, s)
    }
}

// The same, and then written anew from their forms.
#[derive(Clone, Copy)]
struct Anew<'a>(&'a Reading<'a>);

impl Rewrite for Anew<'_> {
    ghost words = { λ way. replaced_word (instance_of way.0.now) };

    ghost seqs = { λ way. replaced_seq (instance_of way.0.now) };

    fn word(&self, alloc: Global, w: &Word) -> Result<Word, AllocError> {
        let w = read_word(alloc, self.0, w)?;
        rebuilt_word(alloc, &w)
    }

    fn seq(&self, alloc: Global, s: &Seq) -> Result<Seq, AllocError> {
        let s = read_seq(alloc, self.0, s)?;
        rebuilt_seq(alloc, &s)
    }
}

/// The fact with a term in place of each variable.
///
/// # Errors
/// `AllocError` for want of memory.
#[tactic(auto, using(crate::proofs::ReadLemmas::fact_read))]
pub fn read_fact(alloc: Global, reading: &Reading, p: &Pure) -> Result<Pure, AllocError>
    ensures { IfOk result (λ r. r ≡ pure_with (instance_of reading.now) p.now) }
{
    rewrite_fact(alloc, &AsRead(reading), p)
}

/// The atom with a term in place of each variable.
///
/// # Errors
/// `AllocError` for want of memory.
#[tactic(auto, using(crate::proofs::ReadLemmas::atom_read))]
pub fn read_atom(alloc: Global, reading: &Reading, a: &Atom) -> Result<Atom, AllocError>
    ensures { IfOk result (λ r. r ≡ atom_with (instance_of reading.now) a.now) }
{
    rewrite_atom(alloc, &AsRead(reading), a)
}

fn read_term(alloc: Global, reading: &Reading, term: &Term) -> Result<Term, AllocError>
    ensures { IfOk result (λ r. r ≡ term_with (instance_of reading.now) term.now) }
{
    match term {
        Term::Emp => Ok(Term::Emp),
        Term::Pure(p) => Ok(Term::Pure(read_fact(alloc, reading, p)?)),
        Term::Atom(a) => Ok(Term::Atom(read_atom(alloc, reading, a)?)),
    }
}

/// The terms with a term in place of each variable.
///
/// # Errors
/// `AllocError` for want of memory.
pub fn read_terms(
    alloc: Global,
    reading: &Reading,
    terms: &[Term],
) -> Result<List<Term>, AllocError>
    ensures { IfOk result (λ r. r ≡ terms_with (instance_of reading.now) terms.now) }
{
    let mut out = List::new(alloc);
    for term in terms {
        out.push(read_term(alloc, reading, term)?)?;
    }
    Ok(out)
}

/// The fact with a term in place of each variable, its words and sequences written anew from their forms.
///
/// # Errors
/// `AllocError` for want of memory, and where a form has more than 8,192 parts or pieces.
pub fn read_fact_anew(alloc: Global, reading: &Reading, p: &Pure) -> Result<Pure, AllocError>
    ensures { IfOk result (λ r. r ≡ replaced_fact (instance_of reading.now) p.now) }
{
    rewrite_fact(alloc, &Anew(reading), p)
}

/// The same for an atom.
///
/// # Errors
/// As of `read_fact_anew`.
pub fn read_atom_anew(alloc: Global, reading: &Reading, a: &Atom) -> Result<Atom, AllocError>
    ensures { IfOk result (λ r. r ≡ replaced_atom (instance_of reading.now) a.now) }
{
    rewrite_atom(alloc, &Anew(reading), a)
}

/// The same for a term.
///
/// # Errors
/// As of `read_fact_anew`.
pub fn read_term_anew(alloc: Global, reading: &Reading, term: &Term) -> Result<Term, AllocError>
    ensures { IfOk result (λ r. r ≡ replaced_term (instance_of reading.now) term.now) }
{
    rewrite_term(alloc, &Anew(reading), term)
}
