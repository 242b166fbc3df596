//! Assertions and their parts.
ghost use Rattle.std.specs.Prelude.{◌≡◌, IfOk};
ghost use Rattle.bed_lang.specs.Same.{same_arg, same_pure, same_atom, same_term, same_bind, same_assertion};

use crate::tree::{Tree, both};
use crate::word::{Name, Seq, Sort, Word};
use sqlite_items::Items as List;
use std::alloc::{AllocError, Global};

/// An argument of a predicate or of a hint.
#[derive(Drop)]
pub enum Arg {
    /// A word, with its place.
    Word(u32, Word),
    /// A sequence, with its place.
    Seq(u32, Seq),
    /// A name alone, or the hole `_`, before names are resolved: it may stand for either sort.
    Bare(Name),
}

/// A pure fact: one that speaks of no memory.
#[derive(Drop)]
pub enum Pure {
    /// The two words are equal.
    Equal(Word, Word),
    /// The two words differ.
    Unequal(Word, Word),
    /// The first word is below the second, without sign.
    Less(Word, Word),
    /// The first word is at most the second, without sign.
    AtMost(Word, Word),
    /// The two sequences are equal.
    Same(Seq, Seq),
    /// The word is an element of the sequence.
    Member(Word, Seq),
    /// The word is no element of the sequence.
    NonMember(Word, Seq),
    /// The word is the address of code with the signature of this name.
    Code(Word, Name),
}

/// A fact about a part of memory.
#[derive(Drop)]
pub enum Atom {
    /// `e |-> v`: the word v at address e.
    Cell(Word, Word),
    /// `e |->b v`: the byte v at address e.
    Byte(Word, Word),
    /// `block(e, n)`: n words of any contents from address e.
    Block(Word, Word),
    /// A predicate with its arguments.
    Pred(Name, List<Arg>),
}

/// One part of an assertion.
#[derive(Drop)]
pub enum Term {
    /// The empty memory.
    Emp,
    /// A pure fact, on the empty memory.
    Pure(Pure),
    /// A fact about a part of memory.
    Atom(Atom),
}

/// A variable that a text declares, with its sort.
#[derive(Drop)]
pub struct Bind {
    pub name: Name,
    pub sort: Sort,
}

/// An assertion: for some values of its binders, memory splits into one part per term.
#[derive(Drop)]
pub struct Assertion {
    /// The place of its first token.
    pub at: u32,
    pub binders: List<Bind>,
    pub terms: List<Term>,
}

impl Arg {
    /// A copy, equal to the original.
    ///
    /// # Errors
    /// `AllocError` for want of memory.
    pub fn copy(&self, alloc: Global) -> Result<Arg, AllocError>
        ensures { IfOk result (λ r. r ≡ self.now) }
    {
        match self {
            Arg::Word(a, b) => Ok(Arg::Word(*a, b.copy(alloc)?)),
            Arg::Seq(a, b) => Ok(Arg::Seq(*a, b.copy(alloc)?)),
            Arg::Bare(a) => Ok(Arg::Bare(a.copy(alloc)?)),
        }
    }

    /// Whether the two are the same, wherever they and their parts stand.
    pub fn same(&self, other: &Arg) -> bool
        ensures { result ≡ same_arg self.now other.now }
    {
        match (self, other) {
            (Arg::Word(_, b), Arg::Word(_, v)) => b.same(v),
            (Arg::Seq(_, b), Arg::Seq(_, v)) => b.same(v),
            (Arg::Bare(a), Arg::Bare(u)) => a.same(u),
            _ => false,
        }
    }
}

fn copy_pure_equal(alloc: Global, a: &Word, b: &Word) -> Result<Pure, AllocError>
    ensures { IfOk result (λ r. r ≡ Pure.Equal a.now b.now) }
{
    match both(alloc, a, b) {
        Err(e) => Err(e),
        Ok((a, b)) => Ok(Pure::Equal(a, b)),
    }
}

fn copy_pure_unequal(alloc: Global, a: &Word, b: &Word) -> Result<Pure, AllocError>
    ensures { IfOk result (λ r. r ≡ Pure.Unequal a.now b.now) }
{
    match both(alloc, a, b) {
        Err(e) => Err(e),
        Ok((a, b)) => Ok(Pure::Unequal(a, b)),
    }
}

fn copy_pure_less(alloc: Global, a: &Word, b: &Word) -> Result<Pure, AllocError>
    ensures { IfOk result (λ r. r ≡ Pure.Less a.now b.now) }
{
    match both(alloc, a, b) {
        Err(e) => Err(e),
        Ok((a, b)) => Ok(Pure::Less(a, b)),
    }
}

fn copy_pure_at_most(alloc: Global, a: &Word, b: &Word) -> Result<Pure, AllocError>
    ensures { IfOk result (λ r. r ≡ Pure.AtMost a.now b.now) }
{
    match both(alloc, a, b) {
        Err(e) => Err(e),
        Ok((a, b)) => Ok(Pure::AtMost(a, b)),
    }
}

fn copy_pure_same(alloc: Global, a: &Seq, b: &Seq) -> Result<Pure, AllocError>
    ensures { IfOk result (λ r. r ≡ Pure.Same a.now b.now) }
{
    match both(alloc, a, b) {
        Err(e) => Err(e),
        Ok((a, b)) => Ok(Pure::Same(a, b)),
    }
}

fn copy_pure_member(alloc: Global, a: &Word, b: &Seq) -> Result<Pure, AllocError>
    ensures { IfOk result (λ r. r ≡ Pure.Member a.now b.now) }
{
    match both(alloc, a, b) {
        Err(e) => Err(e),
        Ok((a, b)) => Ok(Pure::Member(a, b)),
    }
}

fn copy_pure_non_member(alloc: Global, a: &Word, b: &Seq) -> Result<Pure, AllocError>
    ensures { IfOk result (λ r. r ≡ Pure.NonMember a.now b.now) }
{
    match both(alloc, a, b) {
        Err(e) => Err(e),
        Ok((a, b)) => Ok(Pure::NonMember(a, b)),
    }
}

fn copy_pure_code(alloc: Global, a: &Word, b: &Name) -> Result<Pure, AllocError>
    ensures { IfOk result (λ r. r ≡ Pure.Code a.now b.now) }
{
    match both(alloc, a, b) {
        Err(e) => Err(e),
        Ok((a, b)) => Ok(Pure::Code(a, b)),
    }
}

impl Pure {
    /// A copy, equal to the original.
    ///
    /// # Errors
    /// `AllocError` for want of memory.
    pub fn copy(&self, alloc: Global) -> Result<Pure, AllocError>
        ensures { IfOk result (λ r. r ≡ self.now) }
    {
        match self {
            Pure::Equal(a, b) => copy_pure_equal(alloc, a, b),
            Pure::Unequal(a, b) => copy_pure_unequal(alloc, a, b),
            Pure::Less(a, b) => copy_pure_less(alloc, a, b),
            Pure::AtMost(a, b) => copy_pure_at_most(alloc, a, b),
            Pure::Same(a, b) => copy_pure_same(alloc, a, b),
            Pure::Member(a, b) => copy_pure_member(alloc, a, b),
            Pure::NonMember(a, b) => copy_pure_non_member(alloc, a, b),
            Pure::Code(a, b) => copy_pure_code(alloc, a, b),
        }
    }

    /// Whether the two are the same, wherever they and their parts stand.
    pub fn same(&self, other: &Pure) -> bool
        ensures { result ≡ same_pure self.now other.now }
    {
        match (self, other) {
            (Pure::Equal(a, b), Pure::Equal(u, v)) => a.same(u) && b.same(v),
            (Pure::Unequal(a, b), Pure::Unequal(u, v)) => a.same(u) && b.same(v),
            (Pure::Less(a, b), Pure::Less(u, v)) => a.same(u) && b.same(v),
            (Pure::AtMost(a, b), Pure::AtMost(u, v)) => a.same(u) && b.same(v),
            (Pure::Same(a, b), Pure::Same(u, v)) => a.same(u) && b.same(v),
            (Pure::Member(a, b), Pure::Member(u, v)) => a.same(u) && b.same(v),
            (Pure::NonMember(a, b), Pure::NonMember(u, v)) => a.same(u) && b.same(v),
            (Pure::Code(a, b), Pure::Code(u, v)) => a.same(u) && b.same(v),
            _ => false,
        }
    }
}

impl Atom {
    /// A copy, equal to the original.
    ///
    /// # Errors
    /// `AllocError` for want of memory.
    pub fn copy(&self, alloc: Global) -> Result<Atom, AllocError>
        ensures { IfOk result (λ r. r ≡ self.now) }
    {
        match self {
            Atom::Cell(a, b) => {
                let (a, b) = both(alloc, a, b)?;
                Ok(Atom::Cell(a, b))
            }
            Atom::Byte(a, b) => {
                let (a, b) = both(alloc, a, b)?;
                Ok(Atom::Byte(a, b))
            }
            Atom::Block(a, b) => {
                let (a, b) = both(alloc, a, b)?;
                Ok(Atom::Block(a, b))
            }
            Atom::Pred(a, b) => {
                let (a, b) = both(alloc, a, b)?;
                Ok(Atom::Pred(a, b))
            }
        }
    }

    /// Whether the two are the same, wherever they and their parts stand.
    pub fn same(&self, other: &Atom) -> bool
        ensures { result ≡ same_atom self.now other.now }
    {
        match (self, other) {
            (Atom::Cell(a, b), Atom::Cell(u, v)) => a.same(u) && b.same(v),
            (Atom::Byte(a, b), Atom::Byte(u, v)) => a.same(u) && b.same(v),
            (Atom::Block(a, b), Atom::Block(u, v)) => a.same(u) && b.same(v),
            (Atom::Pred(a, b), Atom::Pred(u, v)) => a.same(u) && b.same_as(v),
            _ => false,
        }
    }
}

impl Term {
    /// A copy, equal to the original.
    ///
    /// # Errors
    /// `AllocError` for want of memory.
    pub fn copy(&self, alloc: Global) -> Result<Term, AllocError>
        ensures { IfOk result (λ r. r ≡ self.now) }
    {
        match self {
            Term::Emp => Ok(Term::Emp),
            Term::Pure(a) => Ok(Term::Pure(a.copy(alloc)?)),
            Term::Atom(a) => Ok(Term::Atom(a.copy(alloc)?)),
        }
    }

    /// Whether the two are the same, wherever they and their parts stand.
    pub fn same(&self, other: &Term) -> bool
        ensures { result ≡ same_term self.now other.now }
    {
        match (self, other) {
            (Term::Emp, Term::Emp) => true,
            (Term::Pure(a), Term::Pure(u)) => a.same(u),
            (Term::Atom(a), Term::Atom(u)) => a.same(u),
            _ => false,
        }
    }
}

impl Bind {
    /// A copy, equal to the original.
    ///
    /// # Errors
    /// `AllocError` for want of memory.
    pub fn copy(&self, alloc: Global) -> Result<Bind, AllocError>
        ensures { IfOk result (λ r. r ≡ self.now) }
    {
        Ok(Bind {
            name: self.name.copy(alloc)?,
            sort: self.sort,
        })
    }

    /// Whether the two are the same, wherever they and their parts stand.
    pub fn same(&self, other: &Bind) -> bool
        ensures { result ≡ same_bind self.now other.now }
    {
        self.name.same(&other.name) && self.sort.same(&other.sort)
    }
}

impl Assertion {
    /// A copy, equal to the original.
    ///
    /// # Errors
    /// `AllocError` for want of memory.
    pub fn copy(&self, alloc: Global) -> Result<Assertion, AllocError>
        ensures { IfOk result (λ r. r ≡ self.now) }
    {
        Ok(Assertion {
            at: self.at,
            binders: self.binders.copied(alloc)?,
            terms: self.terms.copied(alloc)?,
        })
    }

    /// Whether the two are the same, wherever they and their parts stand.
    pub fn same(&self, other: &Assertion) -> bool
        ensures { result ≡ same_assertion self.now other.now }
    {
        self.binders.same_as(&other.binders) && self.terms.same_as(&other.terms)
    }
}

impl Tree for Arg {
    ghost alike = { same_arg };

    fn copied(&self, alloc: Global) -> Result<Arg, AllocError> {
        self.copy(alloc)
    }

    fn same_as(&self, other: &Arg) -> bool {
        self.same(other)
    }
}

impl Tree for Pure {
    ghost alike = { same_pure };

    fn copied(&self, alloc: Global) -> Result<Pure, AllocError> {
        self.copy(alloc)
    }

    fn same_as(&self, other: &Pure) -> bool {
        self.same(other)
    }
}

impl Tree for Atom {
    ghost alike = { same_atom };

    fn copied(&self, alloc: Global) -> Result<Atom, AllocError> {
        self.copy(alloc)
    }

    fn same_as(&self, other: &Atom) -> bool {
        self.same(other)
    }
}

impl Tree for Term {
    ghost alike = { same_term };

    fn copied(&self, alloc: Global) -> Result<Term, AllocError> {
        self.copy(alloc)
    }

    fn same_as(&self, other: &Term) -> bool {
        self.same(other)
    }
}

impl Tree for Bind {
    ghost alike = { same_bind };

    fn copied(&self, alloc: Global) -> Result<Bind, AllocError> {
        self.copy(alloc)
    }

    fn same_as(&self, other: &Bind) -> bool {
        self.same(other)
    }
}

impl Tree for Assertion {
    ghost alike = { same_assertion };

    fn copied(&self, alloc: Global) -> Result<Assertion, AllocError> {
        self.copy(alloc)
    }

    fn same_as(&self, other: &Assertion) -> bool {
        self.same(other)
    }
}
