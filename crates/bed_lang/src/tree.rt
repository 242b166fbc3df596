//! Copies and comparisons of lists, options and pairs of trees.
ghost use Rattle.std.specs.Prelude.{◌≡◌, ◌&&◌, ◌==◌, Bool, IfOk};
ghost use Rattle.std.specs.Cmp.Lexicographic.{pointwise};
ghost use Rattle.bed_lang.specs.Same.{same_option, same_flag};

use sqlite_items::Items as List;
use std::alloc::{AllocError, Global};

/// A tree: it has a copy that equals it, and a comparison that sets every place aside.
pub trait Tree: Drop {
    ghost alike: { Self → Self → Bool };

    /// A copy, equal to the original.
    ///
    /// # Errors
    /// `AllocError` for want of memory.
    fn copied(&self, alloc: Global) -> Result<Self, AllocError>
        ensures { IfOk result (λ r. r ≡ self.now) };

    /// Whether the two are the same, wherever they and their parts stand.
    fn same_as(&self, other: &Self) -> bool
        ensures { result ≡ alike self.now other.now };
}

impl<T: Tree> Tree for List<T> {
    ghost alike = { pointwise T.alike };

    fn copied(&self, alloc: Global) -> Result<List<T>, AllocError> {
        let mut out = List::new(alloc);
        for item in self.as_slice() {
            out.push(item.copied(alloc)?)?;
        }
        Ok(out)
    }

    fn same_as(&self, other: &List<T>) -> bool {
        let mut a = self.as_slice();
        let mut b = other.as_slice();
        while let ([x, xs @ ..], [y, ys @ ..]) = (a, b) {
            if !x.same_as(y) {
                return false;
            }
            a = xs;
            b = ys;
        }
        a.is_empty() && b.is_empty()
    }
}

impl<T: Tree> Tree for Option<T> {
    ghost alike = { same_option T.alike };

    fn copied(&self, alloc: Global) -> Result<Option<T>, AllocError> {
        match self {
            None => Ok(None),
            Some(item) => Ok(Some(item.copied(alloc)?)),
        }
    }

    fn same_as(&self, other: &Option<T>) -> bool {
        match (self, other) {
            (None, None) => true,
            (Some(a), Some(b)) => a.same_as(b),
            _ => false,
        }
    }
}

impl<A: Tree, B: Tree> Tree for (A, B) {
    ghost alike = { λ p q. A.alike p.0 q.0 && B.alike p.1 q.1 };

    fn copied(&self, alloc: Global) -> Result<(A, B), AllocError> {
        let first = self.0.copied(alloc)?;
        let second = self.1.copied(alloc)?;
        Ok((first, second))
    }

    fn same_as(&self, other: &(A, B)) -> bool {
        self.0.same_as(&other.0) && self.1.same_as(&other.1)
    }
}

impl Tree for u32 {
    ghost alike = { λ a b. a == b };

    fn copied(&self, _alloc: Global) -> Result<u32, AllocError> {
        Ok(*self)
    }

    fn same_as(&self, other: &u32) -> bool {
        self == other
    }
}

/// Copies of two trees.
///
/// # Errors
/// `AllocError` for want of memory.
pub fn both<A: Tree, B: Tree>(alloc: Global, a: &A, b: &B) -> Result<(A, B), AllocError>
    ensures { IfOk result (λ r. r ≡ (a.now, b.now)) }
{
    match a.copied(alloc) {
        Err(e) => Err(e),
        Ok(a) => match b.copied(alloc) {
            Err(e) => Err(e),
            Ok(b) => Ok((a, b)),
        },
    }
}

/// Copies of three trees.
///
/// # Errors
/// `AllocError` for want of memory.
pub fn three<A: Tree, B: Tree, C: Tree>(
    alloc: Global,
    a: &A,
    b: &B,
    c: &C,
) -> Result<(A, B, C), AllocError>
    ensures first { IfOk result (λ r. r.0 ≡ a.now) }
    ensures second { IfOk result (λ r. r.1 ≡ b.now) }
    ensures third { IfOk result (λ r. r.2 ≡ c.now) }
{
    let (a, b) = both(alloc, a, b)?;
    let c = c.copied(alloc)?;
    Ok((a, b, c))
}

/// Copies of four trees.
///
/// # Errors
/// `AllocError` for want of memory.
pub fn four<A: Tree, B: Tree, C: Tree, D: Tree>(
    alloc: Global,
    a: &A,
    b: &B,
    c: &C,
    d: &D,
) -> Result<((A, B), (C, D)), AllocError>
    ensures first { IfOk result (λ r. r.0.0 ≡ a.now) }
    ensures second { IfOk result (λ r. r.0.1 ≡ b.now) }
    ensures third { IfOk result (λ r. r.1.0 ≡ c.now) }
    ensures fourth { IfOk result (λ r. r.1.1 ≡ d.now) }
{
    let front = both(alloc, a, b)?;
    let back = both(alloc, c, d)?;
    Ok((front, back))
}

/// Whether two flags agree.
pub(crate) fn same_flags(a: bool, b: bool) -> bool
    ensures { result ≡ same_flag a b }
{
    if a { b } else { !b }
}
