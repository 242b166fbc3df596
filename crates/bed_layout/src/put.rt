//! The bytes of blocks, put one after the other into room that is there.
ghost use Rattle.std.specs.Prelude.{◌≡◌, ◌+◌, ◌≤◌, ◌++◌, length, take};
ghost use Rattle.bed_lang.specs.Numbers.{wrap};
ghost use Rattle.bed_machine.specs.Instructions.{row, IsAllowed};
ghost use Rattle.bed_il.specs.Bytes as bytes;
ghost use Rattle.bed_il.specs.Fit.{AreDistinct};
ghost use Rattle.bed_il.specs.Places.{place_of, insts_size, jump_size, block_size, blocks_size};
ghost use Rattle.bed_layout.specs.Addresses.{address_in};
ghost use Rattle.bed_layout.specs.Functions.{function_bytes};
ghost use Rattle.bed_layout.specs.Labels.{AreLabels};

use crate::labels::{Labels, set_places};
use crate::rows::{machine_ins, otherwise};
use crate::sizes;
use bed_asm::encode;
use bed_il::{Block, Inst, Jump};
use bed_lang::Rel;
use bed_machine::{Ins, Reg};
use bed_names::Table;

// Each function here puts bytes behind the first `from` ones and answers where they end.

fn put_ins(into: &mut [u8], from: usize, ins: Ins) -> usize
    requires allowed { IsAllowed ins }
    requires room { from + length (row ins) ≤ length into.old }
    ensures size { result ≡ from + length (row ins) }
    ensures front { take result into.new ≡ take from into.old ++ row ins }
{
    let mut bytes = [0; 16];
    let size = encode(&ins, &mut bytes);
    into[from..from + size].copy_from_slice(&bytes[..size]);
    from + size
}

fn put_insts(into: &mut [u8], from: usize, labels: &Labels, insts: &[Inst]) -> usize
    requires labels { AreLabels labels.now }
    requires room { from + insts_size insts.now ≤ length into.old }
    ensures size { result ≡ from + insts_size insts.now }
    ensures front { take result into.new ≡ take from into.old ++ bytes.insts_bytes (address_in labels.now.names.now) (place_of labels.now.blocks.now labels.now.at) insts.now }
{
    let mut next = from;
    for inst in insts {
        next = put_ins(into, next, machine_ins(labels, inst));
    }
    next
}

// What a jump to a label adds to the address of the next instruction.
fn distance(labels: &Labels, next: u32, label: u32) -> u32
    requires { AreLabels labels.now }
    ensures { result ≡ bytes.distance (place_of labels.now.blocks.now labels.now.at) next label }
{
    labels.place(label).wrapping_sub(next)
}

fn put_test(into: &mut [u8], from: usize, labels: &Labels, rel: Rel, no: u32, at: u32) -> usize
    requires labels { AreLabels labels.now }
    requires room { from + 8 ≤ length into.old }
    ensures size { result ≡ from + 8 }
    ensures front { take result into.new ≡ take from into.old ++ bytes.jump_bytes (place_of labels.now.blocks.now labels.now.at) (Jump.Test rel 0 no) at }
{
    let cmp = Ins::Cmp {
        left: Reg::Ecx,
        right: Reg::Edx,
    };
    let jump = Ins::Jcc {
        branch: otherwise(rel),
        rel: distance(labels, at.wrapping_add(8), no),
    };
    let next = put_ins(into, from, cmp);
    put_ins(into, next, jump)
}

// The jump of a block, which stands at an address.
fn put_jump(into: &mut [u8], from: usize, labels: &Labels, jump: Jump, at: u32) -> usize
    requires labels { AreLabels labels.now }
    requires room { from + jump_size jump ≤ length into.old }
    ensures size { result ≡ from + jump_size jump }
    ensures front { take result into.new ≡ take from into.old ++ bytes.jump_bytes (place_of labels.now.blocks.now labels.now.at) jump at }
{
    match jump {
        Jump::Goto(label) => {
            let rel = distance(labels, at.wrapping_add(5), label);
            put_ins(into, from, Ins::Jmp { rel })
        }
        Jump::Fall(_) => from,
        Jump::Test { rel, yes: _, no } => put_test(into, from, labels, rel, no, at),
        Jump::Register(r) => put_ins(into, from, Ins::JmpReg(r)),
    }
}

fn put_block(into: &mut [u8], from: usize, labels: &Labels, block: &Block, at: u32) -> usize
    requires labels { AreLabels labels.now }
    requires room { from + block_size block.now ≤ length into.old }
    ensures size { result ≡ from + block_size block.now }
    ensures front { take result into.new ≡ take from into.old ++ bytes.block_bytes (address_in labels.now.names.now) (place_of labels.now.blocks.now labels.now.at) block.now at }
{
    let insts = block.insts.as_slice();
    let next = put_insts(into, from, labels, insts);
    let at = at.wrapping_add(sizes::insts_size(insts));
    put_jump(into, next, labels, block.jump, at)
}

fn put_blocks(into: &mut [u8], labels: &Labels) -> usize
    requires labels { AreLabels labels.now }
    requires room { blocks_size labels.now.blocks.now ≤ length into.old }
    ensures size { result ≡ blocks_size labels.now.blocks.now }
    ensures front { take result into.new ≡ function_bytes (address_in labels.now.names.now) labels.now.blocks.now labels.now.at }
{
    let mut next = 0;
    let mut at = labels.at;
    for block in labels.blocks {
        next = put_block(into, next, labels, block, at);
        at = at.wrapping_add(sizes::block_size(block));
    }
    next
}

/// Puts the bytes of a function's blocks, from an address, to the front of the room, and answers how many
/// they are.
pub(crate) fn put_function(
    into: &mut [u8],
    places: &mut [u32],
    names: &Table,
    blocks: &[Block],
    at: u32,
) -> usize
    requires distinct { AreDistinct blocks.now }
    requires room { blocks_size blocks.now ≤ length into.old }
    ensures size { result ≡ blocks_size blocks.now }
    ensures front { take result into.new ≡ function_bytes (address_in names.now) blocks.now at }
{
    set_places(places, blocks, at);
    let labels = Labels {
        names,
        blocks,
        places,
        at,
    };
    put_blocks(into, &labels)
}
