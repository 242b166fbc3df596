//! Writing images.
ghost use Rattle.std.specs.Prelude.{◌≡◌, [], ◌++◌, length, IfOk, OnErr, OnOk};
ghost use Rattle.bed_lang.specs.Numbers.{word_bytes};
ghost use Rattle.bed_image.specs.Format.{symbol_bytes, table_bytes, header_bytes, image_bytes};

use crate::image::{Image, Symbol};
use bed_lang::List;
use std::alloc::{AllocError, Global};

/// Appends a word, the lowest byte first, of a number modulo 2^32.
fn put_word(out: &mut Vec<u8>, word: u64) -> Result<(), AllocError>
    ensures { OnOk result (out.new.items ≡ out.old.items ++ word_bytes word) }
{
    let bytes = [
        (word % 256) as u8,
        (word / 256 % 256) as u8,
        (word / 65536 % 256) as u8,
        (word / 16777216 % 256) as u8,
    ];
    out.extend_from_slice(&bytes)
}

fn put_symbol(out: &mut Vec<u8>, s: &Symbol) -> Result<(), AllocError>
    ensures { OnOk result (out.new.items ≡ out.old.items ++ symbol_bytes s.now) }
{
    out.push(s.kind)?;
    put_word(out, u64::from(s.address))?;
    out.push((s.name.len() % 256) as u8)?;
    out.extend_from_slice(s.name.as_slice())
}

fn put_symbols(out: &mut Vec<u8>, symbols: &[Symbol]) -> Result<(), AllocError>
    ensures { OnOk result (out.new.items ≡ out.old.items ++ table_bytes symbols.now) }
{
    for s in symbols {
        put_symbol(out, s)?;
    }
    Ok(())
}

/// The bytes of an image up to its code.
fn header_of(
    alloc: Global,
    base: u32,
    length: u64,
    symbols: &[Symbol],
) -> Result<Vec<u8>, AllocError>
    ensures { IfOk result (λ v. v.items ≡ header_bytes base length symbols.now) }
{
    let mut out = Vec::from_slice(alloc, b"BIM1")?;
    put_word(&mut out, u64::from(base))?;
    put_word(&mut out, length)?;
    put_word(&mut out, symbols.len() as u64)?;
    put_symbols(&mut out, symbols)?;
    Ok(out)
}

/// Appends an image up to its code, which has this base and this length: `write_image` is this followed by
/// the code.
///
/// Every list of symbols is written, in one form; it is read again where the image is one that a file holds.
///
/// # Errors
/// `AllocError` for want of memory: `out` is as it was.
pub fn header(
    alloc: Global,
    base: u32,
    length: u32,
    symbols: &List<Symbol>,
    out: &mut Vec<u8>,
) -> Result<(), AllocError>
    ensures written { OnOk result (out.new.items ≡ out.old.items ++ header_bytes base length symbols.now) }
    ensures unchanged { OnErr result (out.new.items ≡ out.old.items) }
{
    let bytes = header_of(alloc, base, u64::from(length), symbols.as_slice())?;
    out.extend_from_slice(&bytes)
}

/// Appends the bytes of an image. What is written is read again by `read_image`, where the image is one that
/// a file holds.
///
/// # Errors
/// `AllocError` for want of memory: `out` is as it was.
pub fn write_image(alloc: Global, i: &Image, out: &mut Vec<u8>) -> Result<(), AllocError>
    ensures written { OnOk result (out.new.items ≡ out.old.items ++ image_bytes i.now) }
    ensures unchanged { OnErr result (out.new.items ≡ out.old.items) }
{
    let code = i.code.bytes();
    let mut bytes = header_of(
        alloc,
        i.code.base(),
        code.len() as u64,
        i.symbols.as_slice(),
    )?;
    bytes.extend_from_slice(code)?;
    out.extend_from_slice(&bytes)
}
