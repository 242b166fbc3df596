//! Operands, places and tests.
ghost use Rattle.std.specs.Prelude.{◌≡◌, ◌++◌, ◌∷◌, [], OnOk};
ghost use Rattle.bed_print.specs.Kinds.{operand_kinds, op_kind, rel_kind, offset_kinds, place_kinds, test_kinds};

use crate::class::{AMPERSAND, AND, AT_MOST, EQUAL, LESS, MINUS, OR, PLUS, STAR, UNEQUAL, XOR};
use crate::leaf::{push_fixed, push_name, push_number};
use crate::list::Printed;
use bed_lang::{List, Op, Operand, Place, Rel, Test};
use bed_lex::Kind;
use std::alloc::{AllocError, Global};

/// Appends an operand.
pub(crate) fn push_operand(
    alloc: Global,
    operand: &Operand,
    out: &mut List<Kind>,
) -> Result<(), AllocError>
    ensures { OnOk result (out.new ≡ out.old ++ operand_kinds operand.now) }
{
    match operand {
        Operand::Number(number) => push_number(*number, out),
        Operand::Local(name) => push_name(alloc, name, out),
        Operand::Label(name) => {
            push_fixed(AMPERSAND, out)?;
            push_name(alloc, name, out)
        }
    }
}

impl Printed for Operand {
    ghost kinds = { operand_kinds };

    fn print(&self, alloc: Global, out: &mut List<Kind>) -> Result<(), AllocError> {
        push_operand(alloc, self, out)
    }
}

/// Appends an operation.
pub(crate) fn push_op(op: Op, out: &mut List<Kind>) -> Result<(), AllocError>
    ensures { OnOk result (out.new ≡ out.old ++ op_kind op ∷ []) }
{
    match op {
        Op::Add => push_fixed(PLUS, out),
        Op::Sub => push_fixed(MINUS, out),
        Op::Mul => push_fixed(STAR, out),
        Op::And => push_fixed(AND, out),
        Op::Or => push_fixed(OR, out),
        Op::Xor => push_fixed(XOR, out),
    }
}

fn push_rel(rel: Rel, out: &mut List<Kind>) -> Result<(), AllocError>
    ensures { OnOk result (out.new ≡ out.old ++ rel_kind rel ∷ []) }
{
    match rel {
        Rel::Equal => push_fixed(EQUAL, out),
        Rel::Unequal => push_fixed(UNEQUAL, out),
        Rel::Less => push_fixed(LESS, out),
        Rel::AtMost => push_fixed(AT_MOST, out),
    }
}

/// Appends a displacement; 0 is left out.
fn push_offset(disp: u32, out: &mut List<Kind>) -> Result<(), AllocError>
    ensures { OnOk result (out.new ≡ out.old ++ offset_kinds disp) }
{
    if disp == 0 {
        return Ok(());
    }
    push_fixed(PLUS, out)?;
    push_number(disp, out)
}

/// Appends a place.
pub(crate) fn push_place(
    alloc: Global,
    place: &Place,
    out: &mut List<Kind>,
) -> Result<(), AllocError>
    ensures { OnOk result (out.new ≡ out.old ++ place_kinds place.now) }
{
    push_operand(alloc, &place.base, out)?;
    push_offset(place.disp, out)
}

/// Appends a test.
pub(crate) fn push_test(alloc: Global, test: &Test, out: &mut List<Kind>) -> Result<(), AllocError>
    ensures { OnOk result (out.new ≡ out.old ++ test_kinds test.now) }
{
    push_operand(alloc, &test.left, out)?;
    push_rel(test.rel, out)?;
    push_operand(alloc, &test.right, out)
}
