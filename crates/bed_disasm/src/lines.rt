//! Lines, and the listing of an image.
ghost use Rattle.std.specs.Prelude.{◌≡◌, ◌+◌, ◌<◌, ◌≤◌, ◌^◌, ◌∷◌, [], ◌++◌, IfOk, OnOk, OnErr, length, codes};
ghost use Rattle.bed_machine.specs.MachineCode.{IsInCode, bytes_from};
ghost use Rattle.bed_disasm.specs.Text.{word_text, bytes_text, instruction_text};
ghost use Rattle.bed_disasm.specs.Listing.{IsListing, line_text, byte_says};
ghost use Rattle.bed_disasm.specs.Appended.{IsLineAppended, IsListingAppended};

use crate::instructions::push_instruction;
use crate::names::push_names;
use crate::numbers::{push_byte, push_bytes, push_word};
use bed_image::Image;
use bed_machine::{Code, Ins, decode};
use std::alloc::{AllocError, Global};

/// Appends the line of an address of the code, its line feed with it, and answers how many bytes it covers:
/// those of the instruction that begins there, or one.
///
/// # Errors
/// `AllocError` for want of memory: `out` is as it was.
pub fn line(alloc: Global, code: &Code, at: u32, out: &mut Vec<u8>) -> Result<u32, AllocError>
    requires { IsInCode code.now at }
    ensures line { IfOk result (λ size. IsLineAppended at (bytes_from code.now at) size out.old.items out.new.items) }
    ensures unchanged { OnErr result (out.new.items ≡ out.old.items) }
{
    let mut text = Vec::new(alloc);
    let size = push_line_at(&mut text, code, at)?;
    out.extend_from_slice(&text)?;
    Ok(size)
}

/// Appends the listing of an image: a line for each instruction of its code, and `db` for each byte at which
/// none begins. Before a line stand the names of the symbols at its address, in their order, imports left out.
///
/// # Errors
/// `AllocError` for want of memory: `out` is as it was.
pub fn listing(alloc: Global, i: &Image, out: &mut Vec<u8>) -> Result<(), AllocError>
    ensures listed { OnOk result (IsListingAppended i.now out.old.items out.new.items) }
    ensures unchanged { OnErr result (out.new.items ≡ out.old.items) }
{
    let text = listed(alloc, i)?;
    out.extend_from_slice(&text)
}

/// The listing.
fn listed(alloc: Global, i: &Image) -> Result<Vec<u8>, AllocError>
    ensures { IfOk result (λ text. IsListing i.now text.items) }
{
    let end = end_of(&i.code);
    let mut text = Vec::new(alloc);
    let mut at = u64::from(i.code.base());
    while at < end {
        push_names(&mut text, i.symbols.as_slice(), at as u32)?;
        let size = push_line_at(&mut text, &i.code, at as u32)?;
        at += u64::from(size);
    }
    Ok(text)
}

/// The address after the last byte of the code, which may be 2^32.
fn end_of(code: &Code) -> u64
    ensures end { result ≡ code.now.base + length code.now.bytes }
    ensures fits { result ≤ 2 ^ 32 }
{
    let bytes = code.bytes();
    u64::from(code.base()) + bytes.len() as u64
}

/// Appends the line of an address of the code.
fn push_line_at(out: &mut Vec<u8>, code: &Code, at: u32) -> Result<u32, AllocError>
    requires { IsInCode code.now at }
    ensures line { IfOk result (λ size. IsLineAppended at (bytes_from code.now at) size out.old.items out.new.items) }
    ensures within { IfOk result (λ size. at + size ≤ code.now.base + length code.now.bytes) }
    ensures covers { IfOk result (λ size. 0 < size) }
{
    let bytes = code.bytes();
    let offset = (at - code.base()) as usize;
    let size = push_line(out, at, &bytes[offset..])?;
    Ok(size as u32)
}

/// Appends the line of an address, from which the code has these bytes.
fn push_line(out: &mut Vec<u8>, at: u32, bytes: &[u8]) -> Result<usize, AllocError>
    requires { 0 < length bytes.now }
    ensures line { IfOk result (λ size. IsLineAppended at bytes.now size out.old.items out.new.items) }
    ensures covers { IfOk result (λ size. (0 < size) × (size ≤ length bytes.now)) }
    ensures short { IfOk result (λ size. size ≤ 7) }
{
    match decode(bytes) {
        Ok((ins, size)) => {
            push_instruction_line(out, at, &bytes[..size], ins, at.wrapping_add(size as u32))?;
            Ok(size)
        }
        Err(_) => {
            push_byte_line(out, at, bytes[0])?;
            Ok(1)
        }
    }
}

fn push_instruction_line(
    out: &mut Vec<u8>,
    at: u32,
    bytes: &[u8],
    ins: Ins,
    next: u32,
) -> Result<(), AllocError>
    ensures { OnOk result (out.new.items ≡ out.old.items ++ line_text at bytes.now (instruction_text next ins)) }
{
    push_start(out, at, bytes)?;
    push_instruction(out, ins, next)?;
    out.extend_from_slice(b"\n")
}

fn push_byte_line(out: &mut Vec<u8>, at: u32, byte: u8) -> Result<(), AllocError>
    ensures { OnOk result (out.new.items ≡ out.old.items ++ line_text at (byte ∷ []) (byte_says byte)) }
{
    push_start(out, at, &[byte])?;
    out.extend_from_slice(b"db 0x")?;
    push_byte(out, byte)?;
    out.extend_from_slice(b"\n")
}

/// Appends an address, bytes, and the blanks after each.
fn push_start(out: &mut Vec<u8>, at: u32, bytes: &[u8]) -> Result<(), AllocError>
    ensures { OnOk result (out.new.items ≡ out.old.items ++ (word_text at ++ (codes " " ++ (bytes_text bytes.now ++ codes " ")))) }
{
    push_word(out, at)?;
    out.extend_from_slice(b" ")?;
    push_bytes(out, bytes)?;
    out.extend_from_slice(b" ")
}
