//! Actions.
ghost use Rattle.std.specs.Prelude.{◌≡◌, ◌++◌, codes, OnOk};
ghost use Rattle.bed_condition_text.specs.Texts.{operand_text, op_text, place_text};
ghost use Rattle.bed_condition_text.specs.Lines.{action_text, do_lines};

use crate::leaf::push_name;
use crate::operand::{push_op, push_operand, push_place, push_test};
use bed_lang::{Action, Name, Op, Operand, Place};
use std::alloc::{AllocError, Global};

/// Appends that a local becomes an operand.
fn push_assign(
    alloc: Global,
    into: &Name,
    operand: &Operand,
    out: &mut Vec<u8>,
) -> Result<(), AllocError>
    ensures { OnOk result (out.new.items ≡ out.old.items ++ (into.now.bytes ++ (codes " <- " ++ operand_text operand.now))) }
{
    push_name(into, out)?;
    out.extend_from_slice(b" <- ")?;
    push_operand(alloc, operand, out)
}

/// Appends that a local becomes what an operation gives.
fn push_compute(
    alloc: Global,
    into: &Name,
    op: Op,
    a: &Operand,
    b: &Operand,
    out: &mut Vec<u8>,
) -> Result<(), AllocError>
    ensures { OnOk result (out.new.items ≡ out.old.items ++ (into.now.bytes ++ (codes " <- " ++ (operand_text a.now ++ (op_text op ++ operand_text b.now))))) }
{
    push_assign(alloc, into, a, out)?;
    push_op(op, out)?;
    push_operand(alloc, b, out)
}

/// Appends that a local becomes what is read at a place.
fn push_load(
    alloc: Global,
    into: &Name,
    arrow: &[u8],
    place: &Place,
    out: &mut Vec<u8>,
) -> Result<(), AllocError>
    ensures { OnOk result (out.new.items ≡ out.old.items ++ (into.now.bytes ++ (arrow.now ++ place_text place.now))) }
{
    push_name(into, out)?;
    out.extend_from_slice(arrow)?;
    push_place(alloc, place, out)
}

/// Appends that an operand is written at a place.
fn push_store(
    alloc: Global,
    place: &Place,
    operand: &Operand,
    out: &mut Vec<u8>,
) -> Result<(), AllocError>
    ensures { OnOk result (out.new.items ≡ out.old.items ++ (place_text place.now ++ (codes " <- " ++ operand_text operand.now))) }
{
    push_place(alloc, place, out)?;
    out.extend_from_slice(b" <- ")?;
    push_operand(alloc, operand, out)
}

/// Appends an action.
fn push_action(alloc: Global, action: &Action, out: &mut Vec<u8>) -> Result<(), AllocError>
    ensures { OnOk result (out.new.items ≡ out.old.items ++ action_text action.now) }
{
    match action {
        Action::Assign(into, operand) => push_assign(alloc, into, operand, out),
        Action::Compute(into, op, a, b) => push_compute(alloc, into, *op, a, b, out),
        Action::Load(into, place) => push_load(alloc, into, b" <- ", place, out),
        Action::LoadByte(into, place) => push_load(alloc, into, b" <- byte ", place, out),
        Action::Store(place, operand) => push_store(alloc, place, operand, out),
        Action::StoreByte(place, operand) => {
            out.extend_from_slice(b"byte ")?;
            push_store(alloc, place, operand, out)
        }
        Action::Assume(test) => {
            out.extend_from_slice(b"assume ")?;
            push_test(alloc, test, out)
        }
    }
}

/// Appends a line for each action.
pub(crate) fn push_do_lines(
    alloc: Global,
    actions: &[Action],
    out: &mut Vec<u8>,
) -> Result<(), AllocError>
    ensures { OnOk result (out.new.items ≡ out.old.items ++ do_lines actions.now) }
{
    for action in actions {
        out.extend_from_slice(b"do ")?;
        push_action(alloc, action, out)?;
        out.extend_from_slice(b"\n")?;
    }
    Ok(())
}
