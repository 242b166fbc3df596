//! The module.
ghost use Rattle.std.specs.Prelude.{◌≡◌, ◌≤◌, nat_eq, map, IfOk};
ghost use Rattle.std.specs.List.{range_with_len};
ghost use Rattle.bed_generate.specs.Generated.{signature as signature_of, function as function_of, generated};

use crate::functions::function;
use crate::leaves::name;
use crate::logic::signature;
use bed_lang::{Function, List, Module, Signature};
use std::alloc::{AllocError, Global};

// The signatures with the numbers from 1 to `count`.
fn signatures(alloc: Global, count: u32) -> Result<List<Signature>, AllocError>
    requires { count ≤ 200 }
    ensures { IfOk result (λ r. r ≡ map signature_of (range_with_len 1 count)) }
{
    let mut out = List::new(alloc);
    for before in 0..count {
        out.push(signature(alloc, before + 1)?)?;
    }
    Ok(out)
}

// The functions with the numbers from 1 to `count`, of which the last alone is exported.
fn functions(alloc: Global, count: u32) -> Result<List<Function>, AllocError>
    requires { count ≤ 200 }
    ensures { IfOk result (λ r. r ≡ map (λ i. function_of (nat_eq i count) i) (range_with_len 1 count)) }
{
    let mut out = List::new(alloc);
    for before in 0..count {
        out.push(function(alloc, before + 1 == count, before + 1)?)?;
    }
    Ok(out)
}

// The signatures and the functions.
fn items(alloc: Global, count: u32) -> Result<(List<Signature>, List<Function>), AllocError>
    requires { count ≤ 200 }
    ensures signatures { IfOk result (λ r. r.0 ≡ (generated count).signatures) }
    ensures functions { IfOk result (λ r. r.1 ≡ (generated count).functions) }
{
    let signatures = signatures(alloc, count)?;
    let functions = functions(alloc, count)?;
    Ok((signatures, functions))
}

/// The module `gen` of `count` functions, from 1 to 200. The first counts up to its argument, and each further one calls the
/// one before it; each returns its argument, and the last alone is exported.
///
/// # Errors
/// `AllocError` for want of memory.
pub fn generate(alloc: Global, count: u32) -> Result<Module, AllocError>
    requires least { 1 ≤ count }
    requires most { count ≤ 200 }
    ensures { IfOk result (λ m. m ≡ generated count) }
{
    let name = name(alloc, b"gen")?;
    let (signatures, functions) = items(alloc, count)?;
    Ok(Module {
        name,
        signatures,
        predicates: List::new(alloc),
        imports: List::new(alloc),
        functions,
    })
}
