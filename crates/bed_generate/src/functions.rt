//! The functions.
ghost use Rattle.std.specs.Prelude.{◌≡◌, ◌≤◌, ◌∷◌, [], IfOk};
ghost use Rattle.bed_lang.specs.Prelude.{name as name_of};
ghost use Rattle.bed_generate.specs.Generated.{signature_name as signature_name_of, function_name as function_name_of, local_of, body_of as body_at, function as function_of};

use crate::bodies::{calling, counting};
use crate::leaves::{function_name, one_name, signature_name};
use bed_lang::{Function, List, Name, Stmt};
use std::alloc::{AllocError, Global};

// The name of a function and that of its signature.
fn names(alloc: Global, number: u32) -> Result<(Name, Name), AllocError>
    ensures { IfOk result (λ r. r ≡ (function_name_of number, signature_name_of number)) }
{
    let function = function_name(alloc, number)?;
    let signature = signature_name(alloc, number)?;
    Ok((function, signature))
}

// The one local of a function.
fn locals(alloc: Global, number: u32) -> Result<List<Name>, AllocError>
    ensures { IfOk result (λ r. r ≡ name_of (local_of number) ∷ []) }
{
    if number == 1 {
        one_name(alloc, b"i")
    } else {
        one_name(alloc, b"x")
    }
}

// The body of a function.
fn body_of(alloc: Global, number: u32) -> Result<List<Stmt>, AllocError>
    requires { 1 ≤ number }
    ensures { IfOk result (λ r. r ≡ body_at number) }
{
    if number == 1 {
        counting(alloc)
    } else {
        calling(alloc, number - 1)
    }
}

// The local and the body of a function.
fn inside(alloc: Global, number: u32) -> Result<(List<Name>, List<Stmt>), AllocError>
    requires { 1 ≤ number }
    ensures { IfOk result (λ r. r ≡ (name_of (local_of number) ∷ [], body_at number)) }
{
    let locals = locals(alloc, number)?;
    let body = body_of(alloc, number)?;
    Ok((locals, body))
}

/// A function by its number.
pub(crate) fn function(alloc: Global, exported: bool, number: u32) -> Result<Function, AllocError>
    requires { 1 ≤ number }
    ensures { IfOk result (λ f. f ≡ function_of exported number) }
{
    let (name, signature) = names(alloc, number)?;
    let (locals, body) = inside(alloc, number)?;
    Ok(Function {
        name,
        exported,
        signature,
        locals,
        body,
        end: 0,
    })
}
