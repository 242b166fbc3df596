//! Where the heads of loops stand.
ghost use Rattle.std.specs.Prelude.{◌≡◌, ◌+◌, ◌≤◌, ◌∷◌, ◌++◌, map, OnOk};
ghost use Rattle.bed_table.specs.Code.{kind_piece, body_piece, function_piece};

use crate::size::{
    ENTRY, LIST_FRONT, LIST_HEAD, body_falls, jump_size, key_test_size, small_body_size,
    small_kind_size, test_size,
};
use bed_lang::{Function, Stmt, StmtKind};
use std::alloc::AllocError;

// Appends the addresses of the loop heads of a statement that begins at `at`.
#[cycle(heads)]
pub(crate) fn push_kind_heads(
    out: &mut Vec<u64>,
    at: u64,
    kind: &StmtKind,
) -> Result<(), AllocError>
    requires { at + (kind_piece kind.now).size ≤ 4294967296 }
    ensures { OnOk result (out.new.items ≡ out.old.items ++ map (λ h. h.address) ((kind_piece kind.now).heads at)) }
{
    match kind {
        StmtKind::If { test, yes, no, .. } => {
            let yes = yes.as_slice();
            let no = no.as_slice();
            let yes_at = at + test_size(test);
            let no_at = yes_at + small_body_size(yes) + jump_size(body_falls(yes));
            push_heads(out, yes_at, yes)?;
            push_heads(out, no_at, no)
        }
        StmtKind::While { test, body, .. } => {
            push_loop_heads(out, at, at + test_size(test), body.as_slice())
        }
        StmtKind::Find { key, body, .. } => {
            let body_at = at + LIST_FRONT + key_test_size(key);
            push_loop_heads(out, at + LIST_HEAD, body_at, body.as_slice())
        }
        StmtKind::Walk { body, .. } => {
            push_loop_heads(out, at + LIST_HEAD, at + LIST_FRONT, body.as_slice())
        }
        _ => Ok(()),
    }
}

// Appends a loop's head and those in its body.
#[cycle(heads)]
fn push_loop_heads(
    out: &mut Vec<u64>,
    head: u64,
    body_at: u64,
    body: &[Stmt],
) -> Result<(), AllocError>
    requires { body_at + (body_piece body.now).size ≤ 4294967296 }
    ensures { OnOk result (out.new.items ≡ out.old.items ++ head ∷ map (λ h. h.address) ((body_piece body.now).heads body_at)) }
{
    out.push(head)?;
    push_heads(out, body_at, body)
}

// Appends those of statements, the first of which begins at `at`.
#[cycle(heads)]
pub(crate) fn push_heads(out: &mut Vec<u64>, at: u64, body: &[Stmt]) -> Result<(), AllocError>
    requires { at + (body_piece body.now).size ≤ 4294967296 }
    ensures { OnOk result (out.new.items ≡ out.old.items ++ map (λ h. h.address) ((body_piece body.now).heads at)) }
{
    let mut next = at;
    for item in body {
        push_kind_heads(out, next, &item.kind)?;
        next += small_kind_size(&item.kind);
    }
    Ok(())
}

/// Appends the addresses of the loop heads of a function that stands at `at`, in the order of the text. The only error is
/// want of memory.
pub fn push_function_heads(
    out: &mut Vec<u64>,
    at: u64,
    function: &Function,
) -> Result<(), AllocError>
    requires { at + (function_piece function.now).size ≤ 4294967296 }
    ensures { OnOk result (out.new.items ≡ out.old.items ++ map (λ h. h.address) ((function_piece function.now).heads at)) }
{
    push_heads(out, at + ENTRY, function.body.as_slice())
}
