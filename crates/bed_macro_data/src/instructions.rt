//! Blocks of one row of instructions.

ghost use Rattle.std.specs.Prelude.{◌≡◌, ◌++◌, [], ◌∷◌, IsSome, IfOk, OnOk, OnErr};
ghost use Rattle.bed_laws.specs.StatementBlocks.{falling, keep as keep_in, value_of};
ghost use Rattle.bed_macro.specs.Sites.{function_of, locals_in};

use bed_il::{Block, Inst, Jump, Scratch};
use bed_lang::{List, Name, Operand};
use bed_macro::Site;
use std::alloc::{AllocError, Global};

/// Appends the block of instructions that falls on.
pub(crate) fn push_row(
    first: u32,
    insts: List<Inst>,
    next: u32,
    out: &mut List<Block>,
) -> Result<(), AllocError>
    ensures ok { OnOk result (out.new ≡ out.old ++ falling first insts next ∷ []) }
    ensures err { OnErr result (out.new ≡ out.old) }
{
    out.push(Block {
        label: first,
        insts,
        jump: Jump::Fall(next),
    })
}

/// Appends the instruction that keeps the first operand in a local.
pub(crate) fn push_keep(site: &Site, into: &Name, out: &mut List<Inst>) -> Result<(), AllocError>
    requires { IsSome (function_of site.now) }
    ensures { OnOk result (out.new ≡ out.old ++ keep_in (locals_in site.now) into.now ∷ []) }
{
    let disp = site.slot(into);
    out.push(Inst::Keep { disp })
}

/// Appends an instruction, and then the one that keeps the first operand in a local.
pub(crate) fn push_kept(
    site: &Site,
    inst: Inst,
    into: &Name,
    out: &mut List<Inst>,
) -> Result<(), AllocError>
    requires { IsSome (function_of site.now) }
    ensures { OnOk result (out.new ≡ out.old ++ inst ∷ keep_in (locals_in site.now) into.now ∷ []) }
{
    out.push(inst)?;
    push_keep(site, into, out)
}

/// The instruction that brings an operand into the first register, alone.
pub(crate) fn fetched(
    alloc: Global,
    site: &Site,
    operand: &Operand,
) -> Result<List<Inst>, AllocError>
    requires { IsSome (function_of site.now) }
    ensures { IfOk result (λ r. r ≡ Inst.Fetch Scratch.First (value_of (locals_in site.now) operand.now) ∷ []) }
{
    let mut insts = List::new(alloc);
    site.fetch(alloc, Scratch::First, operand, &mut insts)?;
    Ok(insts)
}
