//! Facts and their negations.
ghost use Rattle.std.specs.Prelude.{◌≡◌, IfOk};
ghost use Rattle.bed_lang.specs.SameFacts.{negation};

use bed_lang::{Pure, Seq, Word};
use std::alloc::{AllocError, Global};

fn unequal(alloc: Global, a: &Word, b: &Word) -> Result<Option<Pure>, AllocError>
    ensures { IfOk result (λ r. r ≡ Some (Pure.Unequal a.now b.now)) }
{
    let a = a.copy(alloc)?;
    let b = b.copy(alloc)?;
    Ok(Some(Pure::Unequal(a, b)))
}

fn equal(alloc: Global, a: &Word, b: &Word) -> Result<Option<Pure>, AllocError>
    ensures { IfOk result (λ r. r ≡ Some (Pure.Equal a.now b.now)) }
{
    let a = a.copy(alloc)?;
    let b = b.copy(alloc)?;
    Ok(Some(Pure::Equal(a, b)))
}

fn at_most(alloc: Global, a: &Word, b: &Word) -> Result<Option<Pure>, AllocError>
    ensures { IfOk result (λ r. r ≡ Some (Pure.AtMost a.now b.now)) }
{
    let a = a.copy(alloc)?;
    let b = b.copy(alloc)?;
    Ok(Some(Pure::AtMost(a, b)))
}

fn less(alloc: Global, a: &Word, b: &Word) -> Result<Option<Pure>, AllocError>
    ensures { IfOk result (λ r. r ≡ Some (Pure.Less a.now b.now)) }
{
    let a = a.copy(alloc)?;
    let b = b.copy(alloc)?;
    Ok(Some(Pure::Less(a, b)))
}

fn non_member(alloc: Global, a: &Word, b: &Seq) -> Result<Option<Pure>, AllocError>
    ensures { IfOk result (λ r. r ≡ Some (Pure.NonMember a.now b.now)) }
{
    let a = a.copy(alloc)?;
    let b = b.copy(alloc)?;
    Ok(Some(Pure::NonMember(a, b)))
}

fn member(alloc: Global, a: &Word, b: &Seq) -> Result<Option<Pure>, AllocError>
    ensures { IfOk result (λ r. r ≡ Some (Pure.Member a.now b.now)) }
{
    let a = a.copy(alloc)?;
    let b = b.copy(alloc)?;
    Ok(Some(Pure::Member(a, b)))
}

/// The negation of a fact; None for an equation of sequences and for `code`, which have none.
///
/// # Errors
/// `AllocError` for want of memory.
pub fn negation(alloc: Global, p: &Pure) -> Result<Option<Pure>, AllocError>
    ensures { IfOk result (λ r. r ≡ negation p.now) }
{
    match p {
        Pure::Equal(a, b) => unequal(alloc, a, b),
        Pure::Unequal(a, b) => equal(alloc, a, b),
        Pure::Less(a, b) => at_most(alloc, b, a),
        Pure::AtMost(a, b) => less(alloc, b, a),
        Pure::Same(_, _) => Ok(None),
        Pure::Member(a, s) => non_member(alloc, a, s),
        Pure::NonMember(a, s) => member(alloc, a, s),
        Pure::Code(_, _) => Ok(None),
    }
}
