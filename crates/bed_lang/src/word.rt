//! Names, variables, words and sequences.
ghost use Rattle.std.specs.Prelude.{◌≡◌, IfOk};
ghost use Rattle.bed_lang.specs.Same.{same_name, same_sort, same_var, same_word, same_seq};
ghost use Rattle.bed_lang.specs.Substitution.{replaced, HasValueWith};

use crate::tree::Tree;
use sqlite_items::{Boxed as Box, Items as List};
use std::alloc::{AllocError, Global};

/// A list of bytes.
pub type Text = List<u8>;

/// A name and the place where it stands. Names are compared by their bytes alone.
#[derive(Drop)]
pub struct Name {
    /// The bytes of the name.
    pub bytes: List<u8>,
    /// The place of its first byte in the text, in bytes from 0.
    pub at: u32,
}

/// What a variable stands for.
#[derive(Clone, Copy, PartialEq, Eq)]
pub enum Sort {
    /// A word of 32 bits.
    Word,
    /// A finite sequence of words.
    Seq,
}

/// A variable of a term.
#[derive(Drop)]
pub enum Var {
    /// A parameter, a local, a logical variable or a binder.
    Named(Name),
    /// An argument at entry, `old a`. The place in the name is that of the word `old`.
    Old(Name),
    /// The answer of a function, `result`, with its place.
    Answer(u32),
    /// A variable that the checker made, by its number.
    Fresh(u32),
    /// The hole `_` in a hint `fold`.
    Hole,
}

/// A term for a word. Sums, differences and products are modulo 2^32.
#[derive(Drop)]
pub enum Word {
    /// A number from 0 to 4294967295.
    Number(u32),
    /// A variable.
    Var(Var),
    /// The address of a function or an import, `&f`.
    Label(Name),
    /// A sum.
    Add(Box<Word>, Box<Word>),
    /// A difference.
    Sub(Box<Word>, Box<Word>),
    /// A number times a word.
    Times(u32, Box<Word>),
}

/// A term for a finite sequence of words.
#[derive(Drop)]
pub enum Seq {
    /// A variable.
    Var(Var),
    /// The empty sequence.
    Nil,
    /// A word before a sequence.
    Cons(Box<Word>, Box<Seq>),
    /// One sequence after another.
    App(Box<Seq>, Box<Seq>),
}

impl Sort {
    /// Whether the two sorts are the same.
    pub fn same(&self, other: &Sort) -> bool
        ensures { result ≡ same_sort self.now other.now }
    {
        match (self, other) {
            (Sort::Word, Sort::Word) => true,
            (Sort::Seq, Sort::Seq) => true,
            _ => false,
        }
    }
}

impl Name {
    /// A copy, equal to the original.
    ///
    /// # Errors
    /// `AllocError` for want of memory.
    pub fn copy(&self, alloc: Global) -> Result<Name, AllocError>
        ensures { IfOk result (λ r. r ≡ self.now) }
    {
        Ok(Name {
            bytes: List::from_slice(alloc, self.bytes.as_slice())?,
            at: self.at,
        })
    }

    /// Whether the bytes agree.
    pub fn same(&self, other: &Name) -> bool
        ensures { result ≡ same_name self.now other.now }
    {
        self.bytes.as_slice() == other.bytes.as_slice()
    }
}

impl Var {
    /// A copy, equal to the original.
    ///
    /// # Errors
    /// `AllocError` for want of memory.
    pub fn copy(&self, alloc: Global) -> Result<Var, AllocError>
        ensures { IfOk result (λ r. r ≡ self.now) }
    {
        match self {
            Var::Named(name) => Ok(Var::Named(name.copy(alloc)?)),
            Var::Old(name) => Ok(Var::Old(name.copy(alloc)?)),
            Var::Answer(at) => Ok(Var::Answer(*at)),
            Var::Fresh(number) => Ok(Var::Fresh(*number)),
            Var::Hole => Ok(Var::Hole),
        }
    }

    /// Whether the two are one variable, wherever they stand.
    pub fn same(&self, other: &Var) -> bool
        ensures { result ≡ same_var self.now other.now }
    {
        match (self, other) {
            (Var::Named(a), Var::Named(b)) => a.same(b),
            (Var::Old(a), Var::Old(b)) => a.same(b),
            (Var::Answer(_), Var::Answer(_)) => true,
            (Var::Fresh(a), Var::Fresh(b)) => a == b,
            (Var::Hole, Var::Hole) => true,
            _ => false,
        }
    }
}

impl Word {
    /// A copy, equal to the original.
    ///
    /// # Errors
    /// `AllocError` for want of memory.
    #[cycle(copy_word)]
    pub fn copy(&self, alloc: Global) -> Result<Word, AllocError>
        ensures { IfOk result (λ r. r ≡ self.now) }
    {
        match self {
            Word::Number(n) => Ok(Word::Number(*n)),
            Word::Var(v) => Ok(Word::Var(v.copy(alloc)?)),
            Word::Label(name) => Ok(Word::Label(name.copy(alloc)?)),
            Word::Add(a, b) => Ok(Word::Add(copy_word(alloc, a)?, copy_word(alloc, b)?)),
            Word::Sub(a, b) => Ok(Word::Sub(copy_word(alloc, a)?, copy_word(alloc, b)?)),
            Word::Times(n, a) => Ok(Word::Times(*n, copy_word(alloc, a)?)),
        }
    }

    /// Whether the two are one word, wherever their parts stand.
    pub fn same(&self, other: &Word) -> bool
        ensures { result ≡ same_word self.now other.now }
    {
        match (self, other) {
            (Word::Number(a), Word::Number(b)) => a == b,
            (Word::Var(a), Word::Var(b)) => a.same(b),
            (Word::Label(a), Word::Label(b)) => a.same(b),
            (Word::Add(a, b), Word::Add(c, d)) => a.get().same(c.get()) && b.get().same(d.get()),
            (Word::Sub(a, b), Word::Sub(c, d)) => a.get().same(c.get()) && b.get().same(d.get()),
            (Word::Times(n, a), Word::Times(m, b)) => n == m && a.get().same(b.get()),
            _ => false,
        }
    }
}

// Parts are copied in calls of their own, so that each level of a deep word takes little of the stack.
#[inline(never)]
#[cycle(copy_word)]
fn copy_word(alloc: Global, w: &Box<Word>) -> Result<Box<Word>, AllocError>
    ensures { IfOk result (λ r. r ≡ w.now) }
{
    Box::new(alloc, w.get().copy(alloc)?)
}

#[inline(never)]
#[cycle(copy_seq)]
fn copy_seq(alloc: Global, s: &Box<Seq>) -> Result<Box<Seq>, AllocError>
    ensures { IfOk result (λ r. r ≡ s.now) }
{
    Box::new(alloc, s.get().copy(alloc)?)
}

impl Seq {
    /// A copy, equal to the original.
    ///
    /// # Errors
    /// `AllocError` for want of memory.
    #[cycle(copy_seq)]
    pub fn copy(&self, alloc: Global) -> Result<Seq, AllocError>
        ensures { IfOk result (λ r. r ≡ self.now) }
    {
        match self {
            Seq::Var(v) => Ok(Seq::Var(v.copy(alloc)?)),
            Seq::Nil => Ok(Seq::Nil),
            Seq::Cons(a, s) => Ok(Seq::Cons(copy_word(alloc, a)?, copy_seq(alloc, s)?)),
            Seq::App(s, t) => Ok(Seq::App(copy_seq(alloc, s)?, copy_seq(alloc, t)?)),
        }
    }

    /// Whether the two are one sequence, wherever their parts stand.
    pub fn same(&self, other: &Seq) -> bool
        ensures { result ≡ same_seq self.now other.now }
    {
        match (self, other) {
            (Seq::Var(a), Seq::Var(b)) => a.same(b),
            (Seq::Nil, Seq::Nil) => true,
            (Seq::Cons(a, s), Seq::Cons(b, t)) => a.get().same(b.get()) && s.get().same(t.get()),
            (Seq::App(a, s), Seq::App(b, t)) => a.get().same(b.get()) && s.get().same(t.get()),
            _ => false,
        }
    }
}

/// The word `w` with `by` in place of each occurrence of the variable `v`.
///
/// # Errors
/// `AllocError` for want of memory.
pub fn substitute(alloc: Global, w: &Word, v: &Var, by: &Word) -> Result<Word, AllocError>
    ensures tree { IfOk result (λ r. r ≡ replaced v.now by.now w.now) }
    ensures value { IfOk result (λ r. HasValueWith v.now by.now w.now r) }
{
    replace(alloc, w, v, by)
}

#[cycle(replace)]
fn replace(alloc: Global, w: &Word, v: &Var, by: &Word) -> Result<Word, AllocError>
    ensures { IfOk result (λ r. r ≡ replaced v.now by.now w.now) }
{
    match w {
        Word::Number(n) => Ok(Word::Number(*n)),
        Word::Var(u) => replace_var(alloc, u, v, by),
        Word::Label(name) => Ok(Word::Label(name.copy(alloc)?)),
        Word::Add(left, right) => {
            let left = replace_part(alloc, left, v, by)?;
            let right = replace_part(alloc, right, v, by)?;
            Ok(Word::Add(left, right))
        }
        Word::Sub(a, b) => {
            let a = replace_part(alloc, a, v, by)?;
            let b = replace_part(alloc, b, v, by)?;
            Ok(Word::Sub(a, b))
        }
        Word::Times(n, a) => Ok(Word::Times(*n, replace_part(alloc, a, v, by)?)),
    }
}

#[cycle(replace)]
fn replace_part(alloc: Global, w: &Box<Word>, v: &Var, by: &Word) -> Result<Box<Word>, AllocError>
    ensures { IfOk result (λ r. r ≡ replaced v.now by.now w.now) }
{
    Box::new(alloc, replace(alloc, w.get(), v, by)?)
}

fn replace_var(alloc: Global, u: &Var, v: &Var, by: &Word) -> Result<Word, AllocError>
    ensures { IfOk result (λ r. r ≡ replaced v.now by.now (Word.Var u.now)) }
{
    if u.same(v) {
        by.copy(alloc)
    } else {
        Ok(Word::Var(u.copy(alloc)?))
    }
}

impl Tree for Name {
    ghost alike = { same_name };

    fn copied(&self, alloc: Global) -> Result<Name, AllocError> {
        self.copy(alloc)
    }

    fn same_as(&self, other: &Name) -> bool {
        self.same(other)
    }
}

impl Tree for Word {
    ghost alike = { same_word };

    fn copied(&self, alloc: Global) -> Result<Word, AllocError> {
        self.copy(alloc)
    }

    fn same_as(&self, other: &Word) -> bool {
        self.same(other)
    }
}

impl Tree for Seq {
    ghost alike = { same_seq };

    fn copied(&self, alloc: Global) -> Result<Seq, AllocError> {
        self.copy(alloc)
    }

    fn same_as(&self, other: &Seq) -> bool {
        self.same(other)
    }
}
