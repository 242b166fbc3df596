//! The code of statements and of functions.
ghost use Rattle.std.specs.Prelude.{◌≡◌, ◌+◌, ◌≤◌, ◌++◌, map, OnOk};
ghost use Rattle.bed_table.specs.Code.{kind_piece, body_piece, function_piece};
ghost use Rattle.bed_lang.specs.Skeletons.{no_assertion};
ghost use Rattle.bed_table.specs.Pieces.{nothing};
ghost use Rattle.bed_table.specs.CodeTable.{choice, loop};
ghost use Rattle.bed_table.specs.ListLoops.{list_loop, is_key};
ghost use Rattle.bed_table.specs.CodeParts.{guarded};
ghost use Rattle.bed_table.specs.Layout as layout;
ghost use Rattle.bed_table.specs.Seen.{names_in, labels_in, label_of, defined_of};

use crate::layout::{Item, function_size};
use crate::put::put_code;
use crate::rows::put_jump_if;
use crate::scope::{Known, Scope};
use crate::size::{
    ENTRY, LIST_BACK, LIST_FRONT, LIST_HEAD, LIST_STEP, body_falls, jump_size, key_test_size,
    small_body_size, small_kind_size, test_size,
};
use bed_lang::{Name, Operand, Stmt, StmtKind, Test};
use std::alloc::AllocError;

// Appends the code of a statement that begins at `at`.
#[cycle(code)]
pub(crate) fn put_kind(
    out: &mut Vec<u8>,
    scope: &Scope,
    at: u64,
    kind: &StmtKind,
) -> Result<(), AllocError>
    requires { at + (kind_piece kind.now).size ≤ 4294967296 }
    ensures { OnOk result (out.new.items ≡ out.old.items ++ (kind_piece kind.now).bytes (names_in scope.now) (labels_in scope.now) at) }
{
    match kind {
        StmtKind::Assign(x, a) => scope.put_assignment(out, x, a),
        StmtKind::Compute(x, op, a, b) => scope.put_computation(out, x, *op, a, b),
        StmtKind::Load(x, place) => scope.put_load(out, x, place),
        StmtKind::LoadByte(x, place) => scope.put_load_byte(out, x, place),
        StmtKind::Store(place, b) => scope.put_store(out, place, b),
        StmtKind::StoreByte(place, b) => scope.put_store_byte(out, place, b),
        StmtKind::Call {
            into,
            target,
            args,
            ..
        } => scope.put_call(out, at, into, target, args.as_slice()),
        StmtKind::If { test, yes, no, .. } => {
            let yes = yes.as_slice();
            let no = no.as_slice();
            let no_at = at + test_size(test) + small_body_size(yes) + jump_size(body_falls(yes));
            put_guarded(out, scope, at, test, yes, no_at + small_body_size(no))?;
            put_body(out, scope, no_at, no)
        }
        StmtKind::While { test, body, .. } => {
            put_guarded(out, scope, at, test, body.as_slice(), at)
        }
        StmtKind::Return(a) => scope.put_answer(out, a),
        StmtKind::Hint(_) => Ok(()),
        StmtKind::Find {
            node,
            value,
            key,
            list,
            body,
            ..
        } => put_find(out, scope, at, node, value, key, list, body.as_slice()),
        StmtKind::Walk {
            node,
            value,
            list,
            body,
            ..
        } => put_walk(out, scope, at, node, value, list, body.as_slice()),
    }
}

// Appends a test that begins at `at`, the statements where it is true, and behind them, where control
// comes to their end, a jump to `target`. Where the test is false it jumps behind all this.
#[cycle(code)]
fn put_guarded(
    out: &mut Vec<u8>,
    scope: &Scope,
    at: u64,
    test: &Test,
    body: &[Stmt],
    target: u64,
) -> Result<(), AllocError>
    requires end_is_address { at + (loop test.now no_assertion (body_piece body.now)).size ≤ 4294967296 }
    requires target_is_address { target ≤ 4294967296 }
    ensures { OnOk result (out.new.items ≡ out.old.items ++ guarded (names_in scope.now) (labels_in scope.now) test.now (body_piece body.now) at target) }
{
    let falls = body_falls(body);
    let body_at = at + test_size(test);
    let jump_at = body_at + small_body_size(body);
    scope.put_test(out, test, at, jump_at + jump_size(falls))?;
    put_body(out, scope, body_at, body)?;
    put_jump_if(out, falls, jump_at, target)
}

// Appends the code of a `find` that begins at `at`.
#[cycle(code)]
fn put_find(
    out: &mut Vec<u8>,
    scope: &Scope,
    at: u64,
    node: &Name,
    value: &Name,
    key: &Operand,
    list: &Name,
    body: &[Stmt],
) -> Result<(), AllocError>
    requires { at + (list_loop node.now value.now list.now no_assertion (choice (is_key value.now key.now) (body_piece body.now) nothing)).size ≤ 4294967296 }
    ensures { OnOk result (out.new.items ≡ out.old.items ++ (list_loop node.now value.now list.now no_assertion (choice (is_key value.now key.now) (body_piece body.now) nothing)).bytes (names_in scope.now) (labels_in scope.now) at) }
{
    let falls = body_falls(body);
    let body_at = at + LIST_FRONT + key_test_size(key);
    let jump_at = body_at + small_body_size(body);
    let next = jump_at + jump_size(falls);
    scope.put_list_front(out, node, value, list, at, next + LIST_BACK)?;
    scope.put_key_test(out, value, key, at + LIST_FRONT, next)?;
    put_body(out, scope, body_at, body)?;
    put_jump_if(out, falls, jump_at, next)?;
    scope.put_list_back(out, node, value, next + LIST_STEP, at + LIST_HEAD)
}

// Appends the code of a `walk` that begins at `at`.
#[cycle(code)]
fn put_walk(
    out: &mut Vec<u8>,
    scope: &Scope,
    at: u64,
    node: &Name,
    value: &Name,
    list: &Name,
    body: &[Stmt],
) -> Result<(), AllocError>
    requires { at + (list_loop node.now value.now list.now no_assertion (body_piece body.now)).size ≤ 4294967296 }
    ensures { OnOk result (out.new.items ≡ out.old.items ++ (list_loop node.now value.now list.now no_assertion (body_piece body.now)).bytes (names_in scope.now) (labels_in scope.now) at) }
{
    let body_at = at + LIST_FRONT;
    let next = body_at + small_body_size(body);
    scope.put_list_front(out, node, value, list, at, next + LIST_BACK)?;
    put_body(out, scope, body_at, body)?;
    scope.put_list_back(out, node, value, next + LIST_STEP, at + LIST_HEAD)
}

// Appends the code of statements, the first of which begins at `at`.
#[cycle(code)]
pub(crate) fn put_body(
    out: &mut Vec<u8>,
    scope: &Scope,
    at: u64,
    body: &[Stmt],
) -> Result<(), AllocError>
    requires { at + (body_piece body.now).size ≤ 4294967296 }
    ensures { OnOk result (out.new.items ≡ out.old.items ++ (body_piece body.now).bytes (names_in scope.now) (labels_in scope.now) at) }
{
    let mut next = at;
    for item in body {
        put_kind(out, scope, next, &item.kind)?;
        next += small_kind_size(&item.kind);
    }
    Ok(())
}

// Appends the code of a function that stands at `at`.
fn put_function(out: &mut Vec<u8>, labels: &[Known], at: u64, item: &Item) -> Result<(), AllocError>
    requires { at + layout.function_size (defined_of item.now) ≤ 4294967296 }
    ensures { OnOk result (out.new.items ≡ out.old.items ++ (function_piece item.now.function.now).bytes ((defined_of item.now).locals) (layout.address_of (map label_of labels.now)) at) }
{
    let scope = Scope {
        params: item.params,
        locals: item.function.locals.as_slice(),
        labels,
    };
    // mov [ebp+0], esi
    put_code(out, &[0x89, 0xB5], 0)?;
    put_body(out, &scope, at + ENTRY, item.function.body.as_slice())
}

// Appends the code of functions that stand from `base` on.
pub(crate) fn put_functions(
    out: &mut Vec<u8>,
    labels: &[Known],
    base: u32,
    functions: &[Item],
) -> Result<(), AllocError>
    requires { base + layout.total_size (map defined_of functions.now) ≤ 4294967296 }
    ensures { OnOk result (out.new.items ≡ out.old.items ++ layout.code_of (layout.address_of (map label_of labels.now)) (layout.placed_from base (map defined_of functions.now))) }
{
    let mut at = base as u64;
    for item in functions {
        put_function(out, labels, at, item)?;
        at += function_size(item.function);
    }
    Ok(())
}
