//! Signatures and predicates.
ghost use Rattle.std.specs.Prelude.{◌≡◌, ◌++◌, OnOk, OnErr};
ghost use Rattle.bed_condition_text.specs.Lines.{for_text, head_text, reserve_text, promises_text, signature_text, predicate_text};

use crate::leaf::{push_decimal, push_name};
use crate::list::{Written, push_listed, push_parted};
use bed_lang::{Bind, Name, Predicate, Signature};
use std::alloc::{AllocError, Global};

/// Appends a name with its parameters.
fn push_head<T: Written>(
    alloc: Global,
    name: &Name,
    params: &[T],
    out: &mut Vec<u8>,
) -> Result<(), AllocError>
    ensures { OnOk result (out.new.items ≡ out.old.items ++ head_text name.now T.text params.now) }
{
    push_name(name, out)?;
    out.extend_from_slice(b"(")?;
    push_listed(alloc, params, out)?;
    out.extend_from_slice(b")")
}

/// Appends the logical variables, where there are some.
fn push_for(alloc: Global, logical: &[Bind], out: &mut Vec<u8>) -> Result<(), AllocError>
    ensures { OnOk result (out.new.items ≡ out.old.items ++ for_text logical.now) }
{
    match logical {
        [] => Ok(()),
        [_, ..] => {
            out.extend_from_slice(b" for ")?;
            push_listed(alloc, logical, out)
        }
    }
}

/// Appends the words that a frame has, and the logical variables.
#[tactic(auto, unfolding(crate::specs::Lines::reserve_text))]
fn push_reserve(alloc: Global, s: &Signature, out: &mut Vec<u8>) -> Result<(), AllocError>
    ensures { OnOk result (out.new.items ≡ out.old.items ++ reserve_text s.now) }
{
    out.extend_from_slice(b" reserving ")?;
    push_decimal(alloc, s.reserve, out)?;
    push_for(alloc, s.logical.as_slice(), out)
}

/// Appends the precondition and the postcondition.
#[tactic(auto, unfolding(crate::specs::Lines::promises_text))]
fn push_promises(alloc: Global, s: &Signature, out: &mut Vec<u8>) -> Result<(), AllocError>
    ensures { OnOk result (out.new.items ≡ out.old.items ++ promises_text s.now) }
{
    out.extend_from_slice(b" pre ")?;
    s.pre.write(alloc, out)?;
    out.extend_from_slice(b" post ")?;
    s.post.write(alloc, out)
}

fn push_signature(alloc: Global, s: &Signature, out: &mut Vec<u8>) -> Result<(), AllocError>
    ensures { OnOk result (out.new.items ≡ out.old.items ++ signature_text s.now) }
{
    out.extend_from_slice(b"signature ")?;
    push_head(alloc, &s.name, s.params.as_slice(), out)?;
    push_reserve(alloc, s, out)?;
    push_promises(alloc, s, out)?;
    out.extend_from_slice(b";")
}

fn push_predicate(alloc: Global, p: &Predicate, out: &mut Vec<u8>) -> Result<(), AllocError>
    ensures { OnOk result (out.new.items ≡ out.old.items ++ predicate_text p.now) }
{
    out.extend_from_slice(b"predicate ")?;
    push_head(alloc, &p.name, p.params.as_slice(), out)?;
    out.extend_from_slice(b" = ")?;
    push_parted(alloc, b" | ", p.cases.as_slice(), out)?;
    out.extend_from_slice(b";")
}

/// Appends a signature to `out`, on one line and without a line feed.
///
/// ```text
/// signature N() reserving 0 pre emp post emp;
/// ```
///
/// # Errors
/// `AllocError` for want of memory: `out` is as it was.
pub fn print_signature(alloc: Global, s: &Signature, out: &mut Vec<u8>) -> Result<(), AllocError>
    ensures printed { OnOk result (out.new.items ≡ out.old.items ++ signature_text s.now) }
    ensures unchanged { OnErr result (out.new.items ≡ out.old.items) }
{
    let mut text = Vec::new(alloc);
    push_signature(alloc, s, &mut text)?;
    out.extend_from_slice(text.as_slice())
}

/// Appends a predicate with all its cases to `out`, on one line and without a line feed.
///
/// # Errors
/// `AllocError` for want of memory: `out` is as it was.
pub fn print_predicate(alloc: Global, p: &Predicate, out: &mut Vec<u8>) -> Result<(), AllocError>
    ensures printed { OnOk result (out.new.items ≡ out.old.items ++ predicate_text p.now) }
    ensures unchanged { OnErr result (out.new.items ≡ out.old.items) }
{
    let mut text = Vec::new(alloc);
    push_predicate(alloc, p, &mut text)?;
    out.extend_from_slice(text.as_slice())
}
