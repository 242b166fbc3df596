//! What normal forms are made of.
ghost use Rattle.std.specs.Prelude.{◌≡◌, IfOk};
ghost use Rattle.bed_lang.specs.Keys.{key_order, same_key};
ghost use Rattle.bed_lang.specs.Forms.{same_form, same_piece};

use crate::tree::Tree;
use crate::word::{Name, Var};
use sqlite_items::Items as List;
use std::alloc::{AllocError, Global};
use std::cmp::Ordering;

/// What a form has a coefficient on. In a form its places are 0.
#[derive(Drop)]
pub enum Key {
    /// A variable.
    Var(Var),
    /// The address of a function or an import.
    Label(Name),
}

/// The normal form of a word: a constant and coefficients, all modulo 2^32.
#[derive(Drop)]
pub struct Form {
    /// The constant.
    pub constant: u32,
    /// Keys with their coefficients, in the order of keys: no key twice, no coefficient 0.
    pub parts: List<(Key, u32)>,
}

/// A piece of a sequence.
#[derive(Drop)]
pub enum Piece {
    /// One element, by its form.
    Element(Form),
    /// A sequence variable, its place 0.
    Sequence(Var),
}

impl Key {
    /// A copy, equal to the original.
    ///
    /// # Errors
    /// `AllocError` for want of memory.
    pub fn copy(&self, alloc: Global) -> Result<Key, AllocError>
        ensures { IfOk result (λ r. r ≡ self.now) }
    {
        match self {
            Key::Var(v) => Ok(Key::Var(v.copy(alloc)?)),
            Key::Label(name) => Ok(Key::Label(name.copy(alloc)?)),
        }
    }

    /// Whether the two are one variable or one label, wherever they stand.
    pub fn same(&self, other: &Key) -> bool
        ensures { result ≡ same_key self.now other.now }
    {
        match (self, other) {
            (Key::Var(a), Key::Var(b)) => a.same(b),
            (Key::Label(a), Key::Label(b)) => a.same(b),
            _ => false,
        }
    }

    /// The order of the two, wherever they stand: named variables by the bytes of their names, `old`
    /// ones likewise, `result`, the hole, fresh ones by their number, labels by the bytes of their names.
    pub fn order(&self, other: &Key) -> Ordering
        ensures { result ≡ key_order self.now other.now }
    {
        match (self, other) {
            (Key::Var(a), Key::Var(b)) => order_vars(a, b),
            (Key::Var(_), Key::Label(_)) => Ordering::Less,
            (Key::Label(_), Key::Var(_)) => Ordering::Greater,
            (Key::Label(a), Key::Label(b)) => a.bytes.as_slice().cmp(b.bytes.as_slice()),
        }
    }
}

// Named variables, `old` ones, `result`, the hole, fresh ones.
fn order_vars(a: &Var, b: &Var) -> Ordering
    ensures { result ≡ key_order (Key.Var a.now) (Key.Var b.now) }
{
    match (a, b) {
        (Var::Named(a), Var::Named(b)) => a.bytes.as_slice().cmp(b.bytes.as_slice()),
        (Var::Named(_), _) => Ordering::Less,
        (_, Var::Named(_)) => Ordering::Greater,
        (Var::Old(a), Var::Old(b)) => a.bytes.as_slice().cmp(b.bytes.as_slice()),
        (Var::Old(_), _) => Ordering::Less,
        (_, Var::Old(_)) => Ordering::Greater,
        (Var::Answer(_), Var::Answer(_)) => Ordering::Equal,
        (Var::Answer(_), _) => Ordering::Less,
        (_, Var::Answer(_)) => Ordering::Greater,
        (Var::Hole, Var::Hole) => Ordering::Equal,
        (Var::Hole, Var::Fresh(_)) => Ordering::Less,
        (Var::Fresh(_), Var::Hole) => Ordering::Greater,
        (Var::Fresh(a), Var::Fresh(b)) => a.cmp(b),
    }
}

impl Form {
    /// A copy, equal to the original.
    ///
    /// # Errors
    /// `AllocError` for want of memory.
    pub fn copy(&self, alloc: Global) -> Result<Form, AllocError>
        ensures { IfOk result (λ r. r ≡ self.now) }
    {
        Ok(Form {
            constant: self.constant,
            parts: self.parts.copied(alloc)?,
        })
    }

    /// Whether the two have one constant and the same parts, wherever their keys stand.
    pub fn same(&self, other: &Form) -> bool
        ensures { result ≡ same_form self.now other.now }
    {
        self.constant == other.constant && self.parts.same_as(&other.parts)
    }
}

impl Piece {
    /// A copy, equal to the original.
    ///
    /// # Errors
    /// `AllocError` for want of memory.
    pub fn copy(&self, alloc: Global) -> Result<Piece, AllocError>
        ensures { IfOk result (λ r. r ≡ self.now) }
    {
        match self {
            Piece::Element(form) => Ok(Piece::Element(form.copy(alloc)?)),
            Piece::Sequence(v) => Ok(Piece::Sequence(v.copy(alloc)?)),
        }
    }

    /// Whether the two are one element's form or one variable, wherever they stand.
    pub fn same(&self, other: &Piece) -> bool
        ensures { result ≡ same_piece self.now other.now }
    {
        match (self, other) {
            (Piece::Element(f), Piece::Element(g)) => f.same(g),
            (Piece::Sequence(a), Piece::Sequence(b)) => a.same(b),
            _ => false,
        }
    }
}

impl Tree for Key {
    ghost alike = { same_key };

    fn copied(&self, alloc: Global) -> Result<Key, AllocError> {
        self.copy(alloc)
    }

    fn same_as(&self, other: &Key) -> bool {
        self.same(other)
    }
}

impl Tree for Piece {
    ghost alike = { same_piece };

    fn copied(&self, alloc: Global) -> Result<Piece, AllocError> {
        self.copy(alloc)
    }

    fn same_as(&self, other: &Piece) -> bool {
        self.same(other)
    }
}
