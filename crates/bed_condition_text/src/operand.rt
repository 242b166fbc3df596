//! Operands, places and tests.
ghost use Rattle.std.specs.Prelude.{◌≡◌, ◌++◌, OnOk};
ghost use Rattle.bed_condition_text.specs.Texts.{operand_text, op_text, rel_text, offset_text, place_text, test_text};

use crate::leaf::{push_decimal, push_name};
use crate::list::Written;
use bed_lang::{Op, Operand, Place, Rel, Test};
use std::alloc::{AllocError, Global};

/// Appends an operand.
pub(crate) fn push_operand(
    alloc: Global,
    operand: &Operand,
    out: &mut Vec<u8>,
) -> Result<(), AllocError>
    ensures { OnOk result (out.new.items ≡ out.old.items ++ operand_text operand.now) }
{
    match operand {
        Operand::Number(number) => push_decimal(alloc, *number, out),
        Operand::Local(name) => push_name(name, out),
        Operand::Label(label) => {
            out.extend_from_slice(b"&")?;
            push_name(label, out)
        }
    }
}

impl Written for Operand {
    ghost text = { operand_text };

    fn write(&self, alloc: Global, out: &mut Vec<u8>) -> Result<(), AllocError> {
        push_operand(alloc, self, out)
    }
}

/// Appends an operation between blanks.
pub(crate) fn push_op(op: Op, out: &mut Vec<u8>) -> Result<(), AllocError>
    ensures { OnOk result (out.new.items ≡ out.old.items ++ op_text op) }
{
    match op {
        Op::Add => out.extend_from_slice(b" + "),
        Op::Sub => out.extend_from_slice(b" - "),
        Op::Mul => out.extend_from_slice(b" * "),
        Op::And => out.extend_from_slice(b" and "),
        Op::Or => out.extend_from_slice(b" or "),
        Op::Xor => out.extend_from_slice(b" xor "),
    }
}

/// Appends a comparison between blanks.
fn push_rel(rel: Rel, out: &mut Vec<u8>) -> Result<(), AllocError>
    ensures { OnOk result (out.new.items ≡ out.old.items ++ rel_text rel) }
{
    match rel {
        Rel::Equal => out.extend_from_slice(b" = "),
        Rel::Unequal => out.extend_from_slice(b" != "),
        Rel::Less => out.extend_from_slice(b" < "),
        Rel::AtMost => out.extend_from_slice(b" <= "),
    }
}

/// Appends a displacement; 0 is left out.
fn push_offset(alloc: Global, disp: u32, out: &mut Vec<u8>) -> Result<(), AllocError>
    ensures { OnOk result (out.new.items ≡ out.old.items ++ offset_text disp) }
{
    if disp == 0 {
        return Ok(());
    }
    out.extend_from_slice(b" + ")?;
    push_decimal(alloc, disp, out)
}

/// Appends a place.
pub(crate) fn push_place(alloc: Global, place: &Place, out: &mut Vec<u8>) -> Result<(), AllocError>
    ensures { OnOk result (out.new.items ≡ out.old.items ++ place_text place.now) }
{
    out.extend_from_slice(b"[")?;
    push_operand(alloc, &place.base, out)?;
    push_offset(alloc, place.disp, out)?;
    out.extend_from_slice(b"]")
}

/// Appends a test.
pub(crate) fn push_test(alloc: Global, test: &Test, out: &mut Vec<u8>) -> Result<(), AllocError>
    ensures { OnOk result (out.new.items ≡ out.old.items ++ test_text test.now) }
{
    push_operand(alloc, &test.left, out)?;
    push_rel(test.rel, out)?;
    push_operand(alloc, &test.right, out)
}
