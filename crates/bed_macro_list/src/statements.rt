//! The statements that `find` and `walk` stand for.

ghost use Rattle.std.specs.Prelude.{◌≡◌, ◌∷◌, ◌++◌, [], codes, IfOk, OnOk};
ghost use Rattle.bed_table.specs.ListLoops.{not_null as not_null_of, is_key as is_key_of, field_at as field_of, word_named as word_of_name};
ghost use Rattle.bed_sat.specs.Written.{statement as statement_of, made_hint, made_test, node_front, node_back, list_loop, unfold_at as unfold_of, fold_segment as fold_segment_of};

use crate::hints::{fold_list, fold_segment, unfold_at};
use crate::terms::word_named;
use bed_lang::{Assertion, Hint, List, Name, Operand, Place, Rel, Stmt, StmtKind, Test};
use std::alloc::{AllocError, Global};

/// Appends a hint.
pub(crate) fn push_hint(at: u32, hint: Hint, out: &mut List<Stmt>) -> Result<(), AllocError>
    ensures { OnOk result (out.new ≡ out.old ++ made_hint at hint ∷ []) }
{
    out.push(Stmt {
        at,
        kind: StmtKind::Hint(hint),
    })
}

/// Appends the statement that a local becomes another.
pub(crate) fn push_assign(
    alloc: Global,
    at: u32,
    into: &Name,
    from: &Name,
    out: &mut List<Stmt>,
) -> Result<(), AllocError>
    ensures { OnOk result (out.new ≡ out.old ++ statement_of at (StmtKind.Assign into.now (Operand.Local from.now)) ∷ []) }
{
    let into = into.copy(alloc)?;
    let from = Operand::Local(from.copy(alloc)?);
    out.push(Stmt {
        at,
        kind: StmtKind::Assign(into, from),
    })
}

/// The place `[node + disp]`.
pub(crate) fn field_at(alloc: Global, node: &Name, disp: u32) -> Result<Place, AllocError>
    ensures { IfOk result (λ p. p ≡ field_of node.now disp) }
{
    Ok(Place {
        base: Operand::Local(node.copy(alloc)?),
        disp,
    })
}

/// Appends the statement that a local becomes a field of a node.
pub(crate) fn push_load(
    alloc: Global,
    at: u32,
    into: &Name,
    node: &Name,
    disp: u32,
    out: &mut List<Stmt>,
) -> Result<(), AllocError>
    ensures { OnOk result (out.new ≡ out.old ++ statement_of at (StmtKind.Load into.now (field_of node.now disp)) ∷ []) }
{
    let into = into.copy(alloc)?;
    let place = field_at(alloc, node, disp)?;
    out.push(Stmt {
        at,
        kind: StmtKind::Load(into, place),
    })
}

/// The test `node != 0`.
pub(crate) fn not_null(alloc: Global, at: u32, node: &Name) -> Result<Test, AllocError>
    ensures { IfOk result (λ t. t ≡ made_test at (not_null_of node.now)) }
{
    Ok(Test {
        at,
        rel: Rel::Unequal,
        left: Operand::Local(node.copy(alloc)?),
        right: Operand::Number(0),
    })
}

/// The test `value = key`.
pub(crate) fn is_key(
    alloc: Global,
    at: u32,
    value: &Name,
    key: &Operand,
) -> Result<Test, AllocError>
    ensures { IfOk result (λ t. t ≡ made_test at (is_key_of value.now key.now)) }
{
    let left = Operand::Local(value.copy(alloc)?);
    let right = key.copy(alloc)?;
    Ok(Test {
        at,
        rel: Rel::Equal,
        left,
        right,
    })
}

// Appends what comes to a node.
fn push_front(
    alloc: Global,
    at: u32,
    node: &Name,
    value: &Name,
    out: &mut List<Stmt>,
) -> Result<(), AllocError>
    ensures { OnOk result (out.new ≡ out.old ++ node_front at node.now value.now) }
{
    push_hint(at, unfold_at(alloc, b"lseg", node)?, out)?;
    push_load(alloc, at, value, node, 0, out)
}

// Appends the hints behind a node.
fn push_folds(
    alloc: Global,
    at: u32,
    node: &Name,
    value: &Name,
    list: &Name,
    out: &mut List<Stmt>,
) -> Result<(), AllocError>
    ensures { OnOk result (out.new ≡ out.old ++ made_hint at (fold_segment_of value.now value.now 1) ∷ made_hint at (fold_segment_of node.now value.now 2) ∷ made_hint at (Hint.Append (word_of_name list.now)) ∷ []) }
{
    push_hint(at, fold_segment(alloc, value, value, 1)?, out)?;
    push_hint(at, fold_segment(alloc, node, value, 2)?, out)?;
    push_hint(at, Hint::Append(word_named(alloc, list)?), out)
}

// Appends what goes on from a node.
fn push_back(
    alloc: Global,
    at: u32,
    node: &Name,
    value: &Name,
    list: &Name,
    out: &mut List<Stmt>,
) -> Result<(), AllocError>
    ensures { OnOk result (out.new ≡ out.old ++ node_back at node.now value.now list.now) }
{
    push_load(alloc, at, value, node, 4, out)?;
    push_folds(alloc, at, node, value, list, out)?;
    push_assign(alloc, at, node, value, out)
}

// The body of the loop.
fn around(
    alloc: Global,
    at: u32,
    node: &Name,
    value: &Name,
    list: &Name,
    visit: List<Stmt>,
) -> Result<List<Stmt>, AllocError>
    ensures { IfOk result (λ r. r ≡ node_front at node.now value.now ++ (visit ++ node_back at node.now value.now list.now)) }
{
    let mut out = List::new(alloc);
    push_front(alloc, at, node, value, &mut out)?;
    out.append(visit)?;
    push_back(alloc, at, node, value, list, &mut out)?;
    Ok(out)
}

// Appends the loop.
fn push_while(
    alloc: Global,
    at: u32,
    node: &Name,
    invariant: Assertion,
    body: List<Stmt>,
    out: &mut List<Stmt>,
) -> Result<(), AllocError>
    ensures { OnOk result (out.new ≡ out.old ++ statement_of at (StmtKind.While (made_test at (not_null_of node.now)) at invariant body) ∷ []) }
{
    let test = not_null(alloc, at, node)?;
    out.push(Stmt {
        at,
        kind: StmtKind::While {
            test,
            place: at,
            invariant,
            body,
        },
    })
}

/// Appends the statements before the loop.
pub(crate) fn push_entry(
    alloc: Global,
    at: u32,
    node: &Name,
    list: &Name,
    out: &mut List<Stmt>,
) -> Result<(), AllocError>
    ensures { OnOk result (out.new ≡ out.old ++ made_hint at (unfold_of (codes "lst") list.now) ∷ statement_of at (StmtKind.Assign node.now (Operand.Local list.now)) ∷ made_hint at (fold_segment_of list.now node.now 1) ∷ []) }
{
    push_hint(at, unfold_at(alloc, b"lst", list)?, out)?;
    push_assign(alloc, at, node, list, out)?;
    push_hint(at, fold_segment(alloc, list, node, 1)?, out)
}

/// Appends the statements of a loop over a list, by its invariant and by what is done at a node.
pub(crate) fn push_list_loop(
    alloc: Global,
    at: u32,
    node: &Name,
    value: &Name,
    list: &Name,
    invariant: Assertion,
    visit: List<Stmt>,
    out: &mut List<Stmt>,
) -> Result<(), AllocError>
    ensures { OnOk result (out.new ≡ out.old ++ list_loop at node.now value.now list.now invariant visit) }
{
    push_entry(alloc, at, node, list, out)?;
    let body = around(alloc, at, node, value, list, visit)?;
    push_while(alloc, at, node, invariant, body, out)?;
    push_hint(at, unfold_at(alloc, b"lseg", node)?, out)?;
    push_hint(at, fold_list(alloc, list)?, out)
}
