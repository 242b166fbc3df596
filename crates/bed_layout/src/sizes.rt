//! How many bytes blocks have. Sums are modulo 2^32.
ghost use Rattle.std.specs.Prelude.{◌≡◌};
ghost use Rattle.bed_lang.specs.Numbers.{wrap};
ghost use Rattle.bed_il.specs.Places as places;
ghost use Rattle.bed_il.specs.declared.blocks.Inst.TheVariants.{Fetch, Apply};
ghost use Rattle.bed_il.specs.declared.blocks.Scratch.TheVariants.{First};

use bed_il::{Block, Inst, Jump, Value};
use bed_lang::Op;

fn value_size(value: &Value) -> u32
    ensures { result ≡ places.inst_size (Fetch First value.now) }
{
    match value {
        Value::Number(_) => 5,
        Value::Slot(_) => 6,
        Value::Function(_) => 5,
    }
}

fn operation_size(op: Op) -> u32
    ensures { result ≡ places.inst_size (Apply op) }
{
    match op {
        Op::Mul => 3,
        _ => 2,
    }
}

/// The number of an instruction's bytes.
fn inst_size(inst: &Inst) -> u32
    ensures { result ≡ places.inst_size inst.now }
{
    match inst {
        Inst::Fetch { value, .. } => value_size(value),
        Inst::Apply(op) => operation_size(*op),
        Inst::ReturnTo(_) => 5,
        Inst::LoadByte { .. } => 7,
        Inst::SetAnswer => 2,
        _ => 6,
    }
}

fn jump_size(jump: Jump) -> u32
    ensures { result ≡ places.jump_size jump }
{
    match jump {
        Jump::Goto(_) => 5,
        Jump::Fall(_) => 0,
        Jump::Test { .. } => 8,
        Jump::Register(_) => 2,
    }
}

/// The number of the bytes of instructions in a row.
pub(crate) fn insts_size(insts: &[Inst]) -> u32
    ensures { result ≡ wrap (places.insts_size insts.now) }
{
    let mut size: u32 = 0;
    for inst in insts {
        size = size.wrapping_add(inst_size(inst));
    }
    size
}

/// The number of a block's bytes.
pub(crate) fn block_size(block: &Block) -> u32
    ensures { result ≡ wrap (places.block_size block.now) }
{
    insts_size(block.insts.as_slice()).wrapping_add(jump_size(block.jump))
}

/// The number of the bytes of blocks.
pub(crate) fn blocks_size(blocks: &[Block]) -> u32
    ensures { result ≡ wrap (places.blocks_size blocks.now) }
{
    let mut size: u32 = 0;
    for block in blocks {
        size = size.wrapping_add(block_size(block));
    }
    size
}
