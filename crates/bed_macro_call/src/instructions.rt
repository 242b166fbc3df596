//! The instructions of a call's two blocks.

ghost use Rattle.std.specs.Prelude.{◌≡◌, ◌+◌, ◌*◌, ◌++◌, [], ◌∷◌, IsSome, IfOk, OnOk};
ghost use Rattle.bed_lang.specs.Numbers.{wrap};
ghost use Rattle.bed_table.specs.Words.{call_area as area_of};
ghost use Rattle.bed_laws.specs.StatementBlocks.{argument_insts, leave_insts, leave_block, back_block, value_of};
ghost use Rattle.bed_macro.specs.Sites.{function_of, locals_in};

use bed_il::{Inst, Scratch};
use bed_lang::{List, Name, Operand};
use bed_macro::Site;
use std::alloc::{AllocError, Global};

// Appends what brings an operand into the word at a place behind the frame's address.
fn push_argument(
    alloc: Global,
    site: &Site,
    operand: &Operand,
    disp: u32,
    out: &mut List<Inst>,
) -> Result<(), AllocError>
    requires { IsSome (function_of site.now) }
    ensures { OnOk result (out.new ≡ out.old ++ Inst.Fetch Scratch.First (value_of (locals_in site.now) operand.now) ∷ Inst.Keep disp ∷ []) }
{
    site.fetch(alloc, Scratch::First, operand, out)?;
    out.push(Inst::Keep { disp })
}

// Appends what brings the arguments into the callee's frame.
fn push_arguments(
    alloc: Global,
    site: &Site,
    arguments: &[Operand],
    out: &mut List<Inst>,
) -> Result<(), AllocError>
    requires { IsSome (function_of site.now) }
    ensures { OnOk result (out.new ≡ out.old ++ argument_insts (locals_in site.now) 0 arguments.now) }
{
    let mut slot = site.call_area().wrapping_add(4);
    for argument in arguments {
        push_argument(alloc, site, argument, slot, out)?;
        slot = slot.wrapping_add(4);
    }
    Ok(())
}

// Appends what leaves to the target, to come back at a label.
fn push_leave(
    alloc: Global,
    site: &Site,
    target: &Operand,
    back: u32,
    out: &mut List<Inst>,
) -> Result<(), AllocError>
    requires { IsSome (function_of site.now) }
    ensures { OnOk result (out.new ≡ out.old ++ leave_insts (locals_in site.now) target.now back) }
{
    site.fetch(alloc, Scratch::Second, target, out)?;
    out.push(Inst::RaiseSp(site.call_area()))?;
    out.push(Inst::ReturnTo(back))
}

/// The instructions of the block that leaves.
pub(crate) fn leaving(
    alloc: Global,
    site: &Site,
    target: &Operand,
    arguments: &List<Operand>,
    back: u32,
) -> Result<List<Inst>, AllocError>
    requires { IsSome (function_of site.now) }
    ensures { IfOk result (λ r. r ≡ argument_insts (locals_in site.now) 0 arguments.now ++ leave_insts (locals_in site.now) target.now back) }
{
    let mut insts = List::new(alloc);
    push_arguments(alloc, site, arguments.as_slice(), &mut insts)?;
    push_leave(alloc, site, target, back, &mut insts)?;
    Ok(insts)
}

/// The instructions of the block to which the call comes back.
pub(crate) fn coming(alloc: Global, site: &Site, into: &Name) -> Result<List<Inst>, AllocError>
    requires { IsSome (function_of site.now) }
    ensures { IfOk result (λ r. r ≡ (back_block (locals_in site.now) into.now 0 0).insts) }
{
    let area = site.call_area();
    let disp = site.slot(into);
    let mut insts = List::new(alloc);
    insts.push(Inst::LowerSp(area))?;
    insts.push(Inst::KeepAnswer { disp })?;
    Ok(insts)
}
