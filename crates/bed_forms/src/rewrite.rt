//! Facts and atoms with each of their words and sequences written anew: one traversal for every way of
//! doing so.
ghost use Rattle.std.specs.Prelude.{◌≡◌, IfOk, map};
ghost use Rattle.bed_lang.specs.declared.word.Word.{Word};
ghost use Rattle.bed_lang.specs.declared.word.Seq.{Seq};
ghost use Rattle.bed_forms.specs.Rewritten.{arg_by, fact_by, atom_by, term_by};

use bed_lang::{Arg, Atom, List, Name, Pure, Seq, Term, Word};
use std::alloc::{AllocError, Global};

/// A way of writing words and sequences anew.
pub trait Rewrite {
    ghost words: { Self → Word → Word };

    ghost seqs: { Self → Seq → Seq };

    /// The word written anew.
    ///
    /// # Errors
    /// `AllocError` for want of memory.
    fn word(&self, alloc: Global, w: &Word) -> Result<Word, AllocError>
        ensures { IfOk result (λ r. r ≡ words self.now w.now) };

    /// The sequence written anew.
    ///
    /// # Errors
    /// `AllocError` for want of memory.
    fn seq(&self, alloc: Global, s: &Seq) -> Result<Seq, AllocError>
        ensures { IfOk result (λ r. r ≡ seqs self.now s.now) };
}

fn two_words<R: Rewrite>(
    alloc: Global,
    way: &R,
    a: &Word,
    b: &Word,
) -> Result<(Word, Word), AllocError>
    ensures { IfOk result (λ r. r ≡ (R.words way.now a.now, R.words way.now b.now)) }
{
    match way.word(alloc, a) {
        Err(e) => Err(e),
        Ok(a) => match way.word(alloc, b) {
            Err(e) => Err(e),
            Ok(b) => Ok((a, b)),
        },
    }
}

fn two_seqs<R: Rewrite>(alloc: Global, way: &R, s: &Seq, t: &Seq) -> Result<(Seq, Seq), AllocError>
    ensures { IfOk result (λ r. r ≡ (R.seqs way.now s.now, R.seqs way.now t.now)) }
{
    match way.seq(alloc, s) {
        Err(e) => Err(e),
        Ok(s) => match way.seq(alloc, t) {
            Err(e) => Err(e),
            Ok(t) => Ok((s, t)),
        },
    }
}

fn word_and_seq<R: Rewrite>(
    alloc: Global,
    way: &R,
    a: &Word,
    s: &Seq,
) -> Result<(Word, Seq), AllocError>
    ensures { IfOk result (λ r. r ≡ (R.words way.now a.now, R.seqs way.now s.now)) }
{
    match way.word(alloc, a) {
        Err(e) => Err(e),
        Ok(a) => match way.seq(alloc, s) {
            Err(e) => Err(e),
            Ok(s) => Ok((a, s)),
        },
    }
}

fn equal<R: Rewrite>(alloc: Global, way: &R, a: &Word, b: &Word) -> Result<Pure, AllocError>
    ensures { IfOk result (λ r. r ≡ fact_by (R.words way.now) (R.seqs way.now) (Pure.Equal a.now b.now)) }
{
    match two_words(alloc, way, a, b) {
        Err(e) => Err(e),
        Ok((a, b)) => Ok(Pure::Equal(a, b)),
    }
}

fn unequal<R: Rewrite>(alloc: Global, way: &R, a: &Word, b: &Word) -> Result<Pure, AllocError>
    ensures { IfOk result (λ r. r ≡ fact_by (R.words way.now) (R.seqs way.now) (Pure.Unequal a.now b.now)) }
{
    match two_words(alloc, way, a, b) {
        Err(e) => Err(e),
        Ok((a, b)) => Ok(Pure::Unequal(a, b)),
    }
}

fn less<R: Rewrite>(alloc: Global, way: &R, a: &Word, b: &Word) -> Result<Pure, AllocError>
    ensures { IfOk result (λ r. r ≡ fact_by (R.words way.now) (R.seqs way.now) (Pure.Less a.now b.now)) }
{
    match two_words(alloc, way, a, b) {
        Err(e) => Err(e),
        Ok((a, b)) => Ok(Pure::Less(a, b)),
    }
}

fn at_most<R: Rewrite>(alloc: Global, way: &R, a: &Word, b: &Word) -> Result<Pure, AllocError>
    ensures { IfOk result (λ r. r ≡ fact_by (R.words way.now) (R.seqs way.now) (Pure.AtMost a.now b.now)) }
{
    match two_words(alloc, way, a, b) {
        Err(e) => Err(e),
        Ok((a, b)) => Ok(Pure::AtMost(a, b)),
    }
}

fn same<R: Rewrite>(alloc: Global, way: &R, a: &Seq, b: &Seq) -> Result<Pure, AllocError>
    ensures { IfOk result (λ r. r ≡ fact_by (R.words way.now) (R.seqs way.now) (Pure.Same a.now b.now)) }
{
    match two_seqs(alloc, way, a, b) {
        Err(e) => Err(e),
        Ok((a, b)) => Ok(Pure::Same(a, b)),
    }
}

fn member<R: Rewrite>(alloc: Global, way: &R, a: &Word, b: &Seq) -> Result<Pure, AllocError>
    ensures { IfOk result (λ r. r ≡ fact_by (R.words way.now) (R.seqs way.now) (Pure.Member a.now b.now)) }
{
    match word_and_seq(alloc, way, a, b) {
        Err(e) => Err(e),
        Ok((a, b)) => Ok(Pure::Member(a, b)),
    }
}

fn non_member<R: Rewrite>(alloc: Global, way: &R, a: &Word, b: &Seq) -> Result<Pure, AllocError>
    ensures { IfOk result (λ r. r ≡ fact_by (R.words way.now) (R.seqs way.now) (Pure.NonMember a.now b.now)) }
{
    match word_and_seq(alloc, way, a, b) {
        Err(e) => Err(e),
        Ok((a, b)) => Ok(Pure::NonMember(a, b)),
    }
}

fn code<R: Rewrite>(alloc: Global, way: &R, a: &Word, name: &Name) -> Result<Pure, AllocError>
    ensures { IfOk result (λ r. r ≡ fact_by (R.words way.now) (R.seqs way.now) (Pure.Code a.now name.now)) }
{
    let a = way.word(alloc, a)?;
    let name = name.copy(alloc)?;
    Ok(Pure::Code(a, name))
}

/// The fact with its words and sequences written anew.
///
/// # Errors
/// `AllocError` for want of memory.
pub fn rewrite_fact<R: Rewrite>(alloc: Global, way: &R, p: &Pure) -> Result<Pure, AllocError>
    ensures { IfOk result (λ r. r ≡ fact_by (R.words way.now) (R.seqs way.now) p.now) }
{
    match p {
        Pure::Equal(a, b) => equal(alloc, way, a, b),
        Pure::Unequal(a, b) => unequal(alloc, way, a, b),
        Pure::Less(a, b) => less(alloc, way, a, b),
        Pure::AtMost(a, b) => at_most(alloc, way, a, b),
        Pure::Same(s, t) => same(alloc, way, s, t),
        Pure::Member(a, s) => member(alloc, way, a, s),
        Pure::NonMember(a, s) => non_member(alloc, way, a, s),
        Pure::Code(a, name) => code(alloc, way, a, name),
    }
}

/// The argument with its word or sequence written anew.
///
/// # Errors
/// `AllocError` for want of memory.
pub fn rewrite_arg<R: Rewrite>(alloc: Global, way: &R, arg: &Arg) -> Result<Arg, AllocError>
    ensures { IfOk result (λ r. r ≡ arg_by (R.words way.now) (R.seqs way.now) arg.now) }
{
    match arg {
        Arg::Word(at, w) => Ok(Arg::Word(*at, way.word(alloc, w)?)),
        Arg::Seq(at, s) => Ok(Arg::Seq(*at, way.seq(alloc, s)?)),
        Arg::Bare(name) => Ok(Arg::Bare(name.copy(alloc)?)),
    }
}

fn rewrite_args<R: Rewrite>(alloc: Global, way: &R, args: &[Arg]) -> Result<List<Arg>, AllocError>
    ensures { IfOk result (λ r. r ≡ map (arg_by (R.words way.now) (R.seqs way.now)) args.now) }
{
    let mut out = List::new(alloc);
    for arg in args {
        out.push(rewrite_arg(alloc, way, arg)?)?;
    }
    Ok(out)
}

fn cell<R: Rewrite>(alloc: Global, way: &R, e: &Word, v: &Word) -> Result<Atom, AllocError>
    ensures { IfOk result (λ r. r ≡ atom_by (R.words way.now) (R.seqs way.now) (Atom.Cell e.now v.now)) }
{
    match two_words(alloc, way, e, v) {
        Err(e) => Err(e),
        Ok((e, v)) => Ok(Atom::Cell(e, v)),
    }
}

fn byte<R: Rewrite>(alloc: Global, way: &R, e: &Word, v: &Word) -> Result<Atom, AllocError>
    ensures { IfOk result (λ r. r ≡ atom_by (R.words way.now) (R.seqs way.now) (Atom.Byte e.now v.now)) }
{
    match two_words(alloc, way, e, v) {
        Err(e) => Err(e),
        Ok((e, v)) => Ok(Atom::Byte(e, v)),
    }
}

fn block<R: Rewrite>(alloc: Global, way: &R, e: &Word, v: &Word) -> Result<Atom, AllocError>
    ensures { IfOk result (λ r. r ≡ atom_by (R.words way.now) (R.seqs way.now) (Atom.Block e.now v.now)) }
{
    match two_words(alloc, way, e, v) {
        Err(e) => Err(e),
        Ok((e, v)) => Ok(Atom::Block(e, v)),
    }
}

fn pred<R: Rewrite>(
    alloc: Global,
    way: &R,
    name: &Name,
    args: &List<Arg>,
) -> Result<Atom, AllocError>
    ensures { IfOk result (λ r. r ≡ atom_by (R.words way.now) (R.seqs way.now) (Atom.Pred name.now args.now)) }
{
    let name = name.copy(alloc)?;
    let args = rewrite_args(alloc, way, args.as_slice())?;
    Ok(Atom::Pred(name, args))
}

/// The atom with its words and sequences written anew.
///
/// # Errors
/// `AllocError` for want of memory.
pub fn rewrite_atom<R: Rewrite>(alloc: Global, way: &R, a: &Atom) -> Result<Atom, AllocError>
    ensures { IfOk result (λ r. r ≡ atom_by (R.words way.now) (R.seqs way.now) a.now) }
{
    match a {
        Atom::Cell(e, v) => cell(alloc, way, e, v),
        Atom::Byte(e, v) => byte(alloc, way, e, v),
        Atom::Block(e, n) => block(alloc, way, e, n),
        Atom::Pred(name, args) => pred(alloc, way, name, args),
    }
}

/// The term with its words and sequences written anew.
///
/// # Errors
/// `AllocError` for want of memory.
pub fn rewrite_term<R: Rewrite>(alloc: Global, way: &R, term: &Term) -> Result<Term, AllocError>
    ensures { IfOk result (λ r. r ≡ term_by (R.words way.now) (R.seqs way.now) term.now) }
{
    match term {
        Term::Emp => Ok(Term::Emp),
        Term::Pure(p) => Ok(Term::Pure(rewrite_fact(alloc, way, p)?)),
        Term::Atom(a) => Ok(Term::Atom(rewrite_atom(alloc, way, a)?)),
    }
}
