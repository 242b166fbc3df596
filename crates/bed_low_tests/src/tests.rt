//! The image of
//!
//! ```text
//! module m;
//! signature S() pre emp post [result = 7];
//! export function seven: S { return 7; }
//! ```
//!
//! at 0x00400000.
use bed_image::{Image, ImageError, Symbol, read_image, write_image};
use bed_lang::List;
use bed_machine::Code;
use std::alloc::{AllocError, Global};
use std::test::Fail;

const SEVEN: [u8; 48] = [
    0x42, 0x49, 0x4D, 0x31, 0x00, 0x00, 0x40, 0x00, 0x15, 0x00, 0x00, 0x00, 0x01, 0x00, 0x00, 0x00,
    0x01, 0x00, 0x00, 0x40, 0x00, 0x05, 0x73, 0x65, 0x76, 0x65, 0x6E, 0x89, 0xB5, 0x00, 0x00, 0x00,
    0x00, 0xB9, 0x07, 0x00, 0x00, 0x00, 0x8B, 0xC1, 0x8B, 0xB5, 0x00, 0x00, 0x00, 0x00, 0xFF, 0xE6,
];

/// An offset, four bytes to write there, and the offset of the fault.
const FAULTS: [(usize, [u8; 4], u32); 10] = [
    // Another magic.
    (0, *b"BIM2", 0),
    // Code that passes 2^32 from the base, and code of 1,048,577 bytes.
    (4, [0xF0, 0xFF, 0xFF, 0xFF], 8),
    (8, [0x01, 0x00, 0x10, 0x00], 8),
    // 65,537 symbols.
    (12, [0x01, 0x00, 0x01, 0x00], 12),
    // Kind 4.
    (16, [0x04, 0x00, 0x00, 0x40], 16),
    // An address before the code, and the first one behind it.
    (17, [0xFF, 0xFF, 0x3F, 0x00], 17),
    (17, [0x15, 0x00, 0x40, 0x00], 17),
    // A name of no bytes, and names with a blank and with 0x7F.
    (21, [0x00, 0x73, 0x65, 0x76], 21),
    (22, [0x20, 0x65, 0x76, 0x65], 22),
    (22, [0x73, 0x65, 0x76, 0x7F], 22),
];

fn symbol(alloc: Global) -> Result<Symbol, AllocError> {
    Ok(Symbol {
        kind: 1,
        address: 0x0040_0000,
        name: List::from_slice(alloc, b"seven")?,
    })
}

fn symbols(alloc: Global) -> Result<List<Symbol>, AllocError> {
    let mut symbols = List::new(alloc);
    symbols.push(symbol(alloc)?)?;
    Ok(symbols)
}

fn code(alloc: Global) -> Result<Code, Fail> {
    let bytes = Vec::from_slice(alloc, &SEVEN[27..])?;
    let code = Code::new(0x0040_0000, bytes).ok_or("the code fits")?;
    Ok(code)
}

fn seven(alloc: Global) -> Result<Image, Fail> {
    let code = code(alloc)?;
    Ok(Image {
        code,
        symbols: symbols(alloc)?,
    })
}

fn is_written_as_seven(alloc: Global, image: &Image) -> Result<bool, AllocError> {
    let mut out = Vec::new(alloc);
    write_image(alloc, image, &mut out)?;
    Ok(out.as_slice() == SEVEN.as_slice())
}

fn is_read(alloc: Global) -> Result<bool, Fail> {
    let image = read_image(alloc, &SEVEN)?;
    let written = is_written_as_seven(alloc, &image)?;
    Ok(written)
}

fn is_fault(alloc: Global, bytes: &[u8], offset: u32) -> bool {
    match read_image(alloc, bytes) {
        Err(ImageError::BadImage { at }) => at == offset,
        _ => false,
    }
}

fn are_cuts_faults(alloc: Global) -> bool {
    for n in 0..48u32 {
        if !is_fault(alloc, &SEVEN[..n as usize], n) {
            return false;
        }
    }
    true
}

fn is_more_a_fault(alloc: Global) -> bool {
    let mut bytes = [0; 49];
    bytes[..48].copy_from_slice(&SEVEN);
    is_fault(alloc, &bytes, 48)
}

fn is_changed_a_fault(alloc: Global, at: usize, field: [u8; 4], offset: u32) -> bool {
    if at > 44 {
        return false;
    }
    let mut bytes = SEVEN;
    bytes[at..at + 4].copy_from_slice(&field);
    is_fault(alloc, &bytes, offset)
}

fn are_changes_faults(alloc: Global) -> bool {
    for (at, field, offset) in FAULTS {
        if !is_changed_a_fault(alloc, at, field, offset) {
            return false;
        }
    }
    true
}

#[test]
fn the_image_of_seven(rt: HostRuntime) -> Result<(), Fail> {
    let alloc = rt.alloc();
    let image = seven(alloc)?;
    let written = is_written_as_seven(alloc, &image)?;
    let read = is_read(alloc)?;
    assert!(rt; written && read);
    let faults = are_cuts_faults(alloc) && is_more_a_fault(alloc) && are_changes_faults(alloc);
    assert!(rt; faults);
    Ok(())
}
