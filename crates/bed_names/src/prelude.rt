//! The two predicates that every module has.
ghost use Rattle.std.specs.Prelude.{◌≡◌, ◌∷◌, ◌++◌, [], codes, IfOk, OnOk};
ghost use Rattle.bed_lang.specs.declared.logic.Arg.TheVariants as arg;
ghost use Rattle.bed_lang.specs.declared.logic.Term.TheVariants as term;
ghost use Rattle.bed_lang.specs.Prelude.{name as name_of, word as word_of, sequence as sequence_of, bind as bind_of, segment as segment_of, empty_segment as the_empty_segment, longer_segment as the_longer_segment, lseg as the_lseg, lst as the_lst, prelude as the_prelude};
ghost use Rattle.bed_lang.specs.declared.logic.Atom.TheVariants as atom;
ghost use Rattle.bed_lang.specs.declared.logic.Pure.TheVariants as pure;
ghost use Rattle.bed_lang.specs.declared.word.Seq.{Cons, Nil};
ghost use Rattle.bed_lang.specs.declared.word.Word.{Add, Number};

use bed_lang::{
    Arg, Assertion, Atom, Bind, Box, List, Name, Predicate, Pure, Seq, Sort, Term, Var, Word,
};
use std::alloc::{AllocError, Global};

fn name(alloc: Global, bytes: &[u8]) -> Result<Name, AllocError>
    ensures { IfOk result (λ x. x ≡ name_of bytes.now) }
{
    Ok(Name {
        bytes: List::from_slice(alloc, bytes)?,
        at: 0,
    })
}

fn word(alloc: Global, bytes: &[u8]) -> Result<Word, AllocError>
    ensures { IfOk result (λ w. w ≡ word_of bytes.now) }
{
    Ok(Word::Var(Var::Named(name(alloc, bytes)?)))
}

fn sequence(alloc: Global, bytes: &[u8]) -> Result<Seq, AllocError>
    ensures { IfOk result (λ s. s ≡ sequence_of bytes.now) }
{
    Ok(Seq::Var(Var::Named(name(alloc, bytes)?)))
}

fn bind(alloc: Global, bytes: &[u8], sort: Sort) -> Result<Bind, AllocError>
    ensures { IfOk result (λ b. b ≡ bind_of bytes.now sort) }
{
    Ok(Bind {
        name: name(alloc, bytes)?,
        sort,
    })
}

// A list of one item, of two and of three.
fn one<T: Drop>(alloc: Global, a: T) -> Result<List<T>, AllocError>
    ensures { IfOk result (λ r. r ≡ a ∷ []) }
{
    let mut out = List::new(alloc);
    out.push(a)?;
    Ok(out)
}

fn two<T: Drop>(alloc: Global, a: T, b: T) -> Result<List<T>, AllocError>
    ensures { IfOk result (λ r. r ≡ a ∷ b ∷ []) }
{
    let mut out = one(alloc, a)?;
    out.push(b)?;
    Ok(out)
}

fn three<T: Drop>(alloc: Global, a: T, b: T, c: T) -> Result<List<T>, AllocError>
    ensures { IfOk result (λ r. r ≡ a ∷ b ∷ c ∷ []) }
{
    let mut out = two(alloc, a, b)?;
    out.push(c)?;
    Ok(out)
}

// p, q, s
fn segment_args(
    alloc: Global,
    first: &[u8],
    end: Word,
    elements: &[u8],
) -> Result<List<Arg>, AllocError>
    ensures { IfOk result (λ r. r ≡ arg.Word 0 (word_of first.now) ∷ arg.Word 0 end ∷ arg.Seq 0 (sequence_of elements.now) ∷ []) }
{
    let first = word(alloc, first)?;
    let mut args = two(alloc, Arg::Word(0, first), Arg::Word(0, end))?;
    let elements = sequence(alloc, elements)?;
    args.push(Arg::Seq(0, elements))?;
    Ok(args)
}

// lseg(p, q, s)
fn segment(alloc: Global, first: &[u8], end: Word, elements: &[u8]) -> Result<Term, AllocError>
    ensures { IfOk result (λ t. t ≡ segment_of (word_of first.now) end (sequence_of elements.now)) }
{
    let args = segment_args(alloc, first, end, elements)?;
    let name = name(alloc, b"lseg")?;
    Ok(Term::Atom(Atom::Pred(name, args)))
}

// [p = q]
fn is_empty(alloc: Global) -> Result<Pure, AllocError>
    ensures { IfOk result (λ p. p ≡ pure.Equal (word_of (codes "p")) (word_of (codes "q"))) }
{
    let first = word(alloc, b"p")?;
    let end = word(alloc, b"q")?;
    Ok(Pure::Equal(first, end))
}

// [s == nil]
fn has_none(alloc: Global) -> Result<Pure, AllocError>
    ensures { IfOk result (λ p. p ≡ pure.Same (sequence_of (codes "s")) Nil) }
{
    Ok(Pure::Same(sequence(alloc, b"s")?, Seq::Nil))
}

fn empty_terms(alloc: Global) -> Result<List<Term>, AllocError>
    ensures { IfOk result (λ ts. ts ≡ the_empty_segment.terms) }
{
    let mut terms = one(alloc, Term::Pure(is_empty(alloc)?))?;
    terms.push(Term::Pure(has_none(alloc)?))?;
    Ok(terms)
}

// An assertion without binders.
fn unbound(alloc: Global, terms: List<Term>) -> Assertion
    ensures { result ≡ record { at = 0; binders = []; terms = terms } }
{
    Assertion {
        at: 0,
        binders: List::new(alloc),
        terms,
    }
}

fn boxed_word(alloc: Global, bytes: &[u8]) -> Result<Box<Word>, AllocError>
    ensures { IfOk result (λ w. w ≡ word_of bytes.now) }
{
    Box::new(alloc, word(alloc, bytes)?)
}

fn boxed_sequence(alloc: Global, bytes: &[u8]) -> Result<Box<Seq>, AllocError>
    ensures { IfOk result (λ s. s ≡ sequence_of bytes.now) }
{
    Box::new(alloc, sequence(alloc, bytes)?)
}

// cons(v, t)
fn longer_elements(alloc: Global) -> Result<Seq, AllocError>
    ensures { IfOk result (λ s. s ≡ Cons (word_of (codes "v")) (sequence_of (codes "t"))) }
{
    let first = boxed_word(alloc, b"v")?;
    Ok(Seq::Cons(first, boxed_sequence(alloc, b"t")?))
}

// [s == cons(v, t)]
fn begins(alloc: Global) -> Result<Pure, AllocError>
    ensures { IfOk result (λ p. p ≡ pure.Same (sequence_of (codes "s")) (Cons (word_of (codes "v")) (sequence_of (codes "t")))) }
{
    let elements = sequence(alloc, b"s")?;
    Ok(Pure::Same(elements, longer_elements(alloc)?))
}

// p + 4
fn next_place(alloc: Global) -> Result<Word, AllocError>
    ensures { IfOk result (λ w. w ≡ Add (word_of (codes "p")) (Number 4)) }
{
    let base = boxed_word(alloc, b"p")?;
    Ok(Word::Add(base, Box::new(alloc, Word::Number(4))?))
}

// p + 4 |-> n
fn next_cell(alloc: Global) -> Result<Atom, AllocError>
    ensures { IfOk result (λ a. a ≡ atom.Cell (Add (word_of (codes "p")) (Number 4)) (word_of (codes "n"))) }
{
    let place = next_place(alloc)?;
    Ok(Atom::Cell(place, word(alloc, b"n")?))
}

fn longer_binders(alloc: Global) -> Result<List<Bind>, AllocError>
    ensures { IfOk result (λ bs. bs ≡ the_longer_segment.binders) }
{
    let value = bind(alloc, b"v", Sort::Word)?;
    let next = bind(alloc, b"n", Sort::Word)?;
    let rest = bind(alloc, b"t", Sort::Seq)?;
    three(alloc, value, next, rest)
}

// [p != 0]
fn is_node(alloc: Global) -> Result<Pure, AllocError>
    ensures { IfOk result (λ p. p ≡ pure.Unequal (word_of (codes "p")) (Number 0)) }
{
    Ok(Pure::Unequal(word(alloc, b"p")?, Word::Number(0)))
}

// p |-> v
fn value_cell(alloc: Global) -> Result<Atom, AllocError>
    ensures { IfOk result (λ a. a ≡ atom.Cell (word_of (codes "p")) (word_of (codes "v"))) }
{
    let place = word(alloc, b"p")?;
    let value = word(alloc, b"v")?;
    Ok(Atom::Cell(place, value))
}

// lseg(n, q, t)
fn rest_segment(alloc: Global) -> Result<Term, AllocError>
    ensures { IfOk result (λ t. t ≡ segment_of (word_of (codes "n")) (word_of (codes "q")) (sequence_of (codes "t"))) }
{
    let end = word(alloc, b"q")?;
    segment(alloc, b"n", end, b"t")
}

// [p != 0] * [s == cons(v, t)]
fn node_facts(alloc: Global) -> Result<List<Term>, AllocError>
    ensures { IfOk result (λ ts. ts ≡ term.Pure (pure.Unequal (word_of (codes "p")) (Number 0)) ∷ term.Pure (pure.Same (sequence_of (codes "s")) (Cons (word_of (codes "v")) (sequence_of (codes "t")))) ∷ []) }
{
    let is_node = is_node(alloc)?;
    let begins = begins(alloc)?;
    two(alloc, Term::Pure(is_node), Term::Pure(begins))
}

// p |-> v * p + 4 |-> n
fn push_cells(alloc: Global, terms: &mut List<Term>) -> Result<(), AllocError>
    ensures { OnOk result (terms.new ≡ terms.old ++ term.Atom (atom.Cell (word_of (codes "p")) (word_of (codes "v"))) ∷ term.Atom (atom.Cell (Add (word_of (codes "p")) (Number 4)) (word_of (codes "n"))) ∷ []) }
{
    let value = value_cell(alloc)?;
    terms.push(Term::Atom(value))?;
    let next = next_cell(alloc)?;
    terms.push(Term::Atom(next))
}

fn longer_terms(alloc: Global) -> Result<List<Term>, AllocError>
    ensures { IfOk result (λ ts. ts ≡ the_longer_segment.terms) }
{
    let mut terms = node_facts(alloc)?;
    push_cells(alloc, &mut terms)?;
    let rest = rest_segment(alloc)?;
    terms.push(rest)?;
    Ok(terms)
}

// p: word, q: word, s: seq
fn lseg_params(alloc: Global) -> Result<List<Bind>, AllocError>
    ensures { IfOk result (λ bs. bs ≡ the_lseg.params) }
{
    let mut params = one(alloc, bind(alloc, b"p", Sort::Word)?)?;
    params.push(bind(alloc, b"q", Sort::Word)?)?;
    params.push(bind(alloc, b"s", Sort::Seq)?)?;
    Ok(params)
}

fn longer_segment(alloc: Global) -> Result<Assertion, AllocError>
    ensures { IfOk result (λ a. a ≡ the_longer_segment) }
{
    let binders = longer_binders(alloc)?;
    let terms = longer_terms(alloc)?;
    Ok(Assertion {
        at: 0,
        binders,
        terms,
    })
}

fn lseg_cases(alloc: Global) -> Result<List<Assertion>, AllocError>
    ensures { IfOk result (λ as'. as' ≡ the_lseg.cases) }
{
    let mut cases = one(alloc, unbound(alloc, empty_terms(alloc)?))?;
    cases.push(longer_segment(alloc)?)?;
    Ok(cases)
}

fn lseg(alloc: Global) -> Result<Predicate, AllocError>
    ensures { IfOk result (λ p. p ≡ the_lseg) }
{
    let params = lseg_params(alloc)?;
    let cases = lseg_cases(alloc)?;
    let name = name(alloc, b"lseg")?;
    Ok(Predicate {
        name,
        params,
        cases,
    })
}

// p: word, s: seq
fn lst_params(alloc: Global) -> Result<List<Bind>, AllocError>
    ensures { IfOk result (λ bs. bs ≡ the_lst.params) }
{
    let mut params = one(alloc, bind(alloc, b"p", Sort::Word)?)?;
    params.push(bind(alloc, b"s", Sort::Seq)?)?;
    Ok(params)
}

// lseg(p, 0, s)
fn whole_list(alloc: Global) -> Result<Term, AllocError>
    ensures { IfOk result (λ t. t ≡ segment_of (word_of (codes "p")) (Number 0) (sequence_of (codes "s"))) }
{
    segment(alloc, b"p", Word::Number(0), b"s")
}

fn lst_cases(alloc: Global) -> Result<List<Assertion>, AllocError>
    ensures { IfOk result (λ as'. as' ≡ the_lst.cases) }
{
    let terms = one(alloc, whole_list(alloc)?)?;
    one(alloc, unbound(alloc, terms))
}

fn lst(alloc: Global) -> Result<Predicate, AllocError>
    ensures { IfOk result (λ p. p ≡ the_lst) }
{
    let params = lst_params(alloc)?;
    let cases = lst_cases(alloc)?;
    let name = name(alloc, b"lst")?;
    Ok(Predicate {
        name,
        params,
        cases,
    })
}

/// The prelude: list segments and lists.
pub(crate) fn prelude(alloc: Global) -> Result<List<Predicate>, AllocError>
    ensures { IfOk result (λ ps. ps ≡ the_prelude) }
{
    let segments = lseg(alloc)?;
    let lists = lst(alloc)?;
    two(alloc, segments, lists)
}
