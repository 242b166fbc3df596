//! Reading images.
ghost use Rattle.std.specs.Prelude.{◌≡◌, ℕ, ◌+◌, ◌*◌, ◌^◌, ◌<◌, ◌≤◌, List, length, take, [], true, IfOk, Ok, Err};
ghost use Rattle.std.specs.Bool.{OnTrue};
ghost use Rattle.std.specs.Int.{w32, from_le_bytes};
ghost use Rattle.bed_image.specs.declared.image.Image.{Image};
ghost use Rattle.bed_image.specs.Format.{IsFileOf, IsImage, image_bytes};
ghost use Rattle.bed_image.specs.Faults.{IsFault, Answers, Refuses, is_magic, is_address, is_printing, is_kind, is_name_size, magic_word, is_code_size, is_count};
ghost use Rattle.bed_image.specs.Reading.{Gives, rest_of, field_at, byte_at, word_at, text_at, symbol_at, symbols_at, header_at, code_at, image_of};

use crate::error::ImageError;
use crate::image::{Image, Symbol};
use bed_lang::{List, Text};
use bed_machine::Code;
use std::alloc::Global;

/// `BIM1`.
const MAGIC: u32 = 0x314D_4942;

const MAX_CODE: u32 = 1_048_576;

const MAX_SYMBOLS: u32 = 65_536;

/// The bytes that aren't read yet, and the offset of the first of them.
#[derive(Clone, Copy)]
pub(crate) struct Unread<'a> {
    pub(crate) at: u32,
    pub(crate) bytes: &'a [u8],
}

/// A field of `size` bytes.
#[tactic(auto, unfolding(crate::specs::Reading::field_at))]
fn field<'a>(from: Unread<'a>, size: u32) -> Result<(&'a [u8], Unread<'a>), ImageError>
    requires near { from.at + size < 2 ^ 32 }
    ensures gives { Gives (λ x. (x.0.now, rest_of x.1)) result (field_at size (rest_of from.entry)) }
    ensures moves { IfOk result (λ x. x.1.at ≡ from.entry.at + size) }
    ensures size { IfOk result (λ x. length x.0.now ≡ size) }
{
    let left = from.bytes.len();
    if left < size as usize {
        return Err(ImageError::BadImage {
            at: from.at + left as u32,
        });
    }
    let (field, bytes) = from.bytes.split_at(size as usize);
    Ok((
        field,
        Unread {
            at: from.at + size,
            bytes,
        },
    ))
}

#[tactic(auto, unfolding(crate::specs::Reading::byte_at))]
fn kind(from: Unread<'_>) -> Result<(u8, Unread<'_>), ImageError>
    requires near { from.at + 1 < 2 ^ 32 }
    ensures gives { Gives (λ x. (x.0, rest_of x.1)) result (byte_at is_kind (rest_of from.entry)) }
    ensures moves { IfOk result (λ x. x.1.at ≡ from.entry.at + 1) }
{
    let (field, rest) = field(from, 1)?;
    if field[0] > 3 {
        return Err(ImageError::BadImage { at: from.at });
    }
    Ok((field[0], rest))
}

/// The length of a name.
#[tactic(auto, unfolding(crate::specs::Reading::byte_at))]
fn name_size(from: Unread<'_>) -> Result<(u8, Unread<'_>), ImageError>
    requires near { from.at + 1 < 2 ^ 32 }
    ensures gives { Gives (λ x. (x.0, rest_of x.1)) result (byte_at is_name_size (rest_of from.entry)) }
    ensures moves { IfOk result (λ x. x.1.at ≡ from.entry.at + 1) }
{
    let (field, rest) = field(from, 1)?;
    if field[0] == 0 {
        return Err(ImageError::BadImage { at: from.at });
    }
    Ok((field[0], rest))
}

/// The word that four bytes are, the lowest first.
fn word_of(field: &[u8]) -> u32
    requires { length field.now ≡ 4 }
    ensures { result ≡ from_le_bytes w32 field.now }
{
    u32::from_le_bytes([field[0], field[1], field[2], field[3]])
}

#[tactic(auto, unfolding(crate::specs::Reading::word_at))]
fn magic(from: Unread<'_>) -> Result<Unread<'_>, ImageError>
    requires near { from.at + 4 < 2 ^ 32 }
    ensures gives { Gives (λ x. (magic_word, rest_of x)) result (word_at is_magic (rest_of from.entry)) }
    ensures moves { IfOk result (λ x. x.at ≡ from.entry.at + 4) }
{
    let (field, rest) = field(from, 4)?;
    if word_of(field) != MAGIC {
        return Err(ImageError::BadImage { at: from.at });
    }
    Ok(rest)
}

#[tactic(auto, unfolding(crate::specs::Reading::word_at))]
fn base(from: Unread<'_>) -> Result<(u32, Unread<'_>), ImageError>
    requires near { from.at + 4 < 2 ^ 32 }
    ensures gives { Gives (λ x. (x.0, rest_of x.1)) result (word_at (λ _. true) (rest_of from.entry)) }
    ensures moves { IfOk result (λ x. x.1.at ≡ from.entry.at + 4) }
{
    let (field, rest) = field(from, 4)?;
    Ok((word_of(field), rest))
}

fn is_code_size(base: u32, size: u32) -> bool
    ensures test { result ≡ is_code_size base size }
    ensures short { OnTrue result (size ≤ 1048576) }
    ensures fits { OnTrue result (base + size ≤ 2 ^ 32) }
{
    size <= MAX_CODE && u64::from(base) + u64::from(size) <= 4294967296
}

/// The length of the code, which ends at 2^32 at the latest.
#[tactic(auto, unfolding(crate::specs::Reading::word_at))]
fn code_size(from: Unread<'_>, base: u32) -> Result<(u32, Unread<'_>), ImageError>
    requires near { from.at + 4 < 2 ^ 32 }
    ensures gives { Gives (λ x. (x.0, rest_of x.1)) result (word_at (is_code_size base) (rest_of from.entry)) }
    ensures moves { IfOk result (λ x. x.1.at ≡ from.entry.at + 4) }
    ensures short { IfOk result (λ x. x.0 ≤ 1048576) }
    ensures fits { IfOk result (λ x. base + x.0 ≤ 2 ^ 32) }
{
    let (field, rest) = field(from, 4)?;
    let size = word_of(field);
    if !is_code_size(base, size) {
        return Err(ImageError::BadImage { at: from.at });
    }
    Ok((size, rest))
}

/// The number of symbols.
#[tactic(auto, unfolding(crate::specs::Reading::word_at))]
fn count(from: Unread<'_>) -> Result<(u32, Unread<'_>), ImageError>
    requires near { from.at + 4 < 2 ^ 32 }
    ensures gives { Gives (λ x. (x.0, rest_of x.1)) result (word_at is_count (rest_of from.entry)) }
    ensures moves { IfOk result (λ x. x.1.at ≡ from.entry.at + 4) }
    ensures few { IfOk result (λ x. x.0 ≤ 65536) }
{
    let (field, rest) = field(from, 4)?;
    let count = word_of(field);
    if count > MAX_SYMBOLS {
        return Err(ImageError::BadImage { at: from.at });
    }
    Ok((count, rest))
}

fn is_address(base: u32, size: u32, kind: u8, address: u32) -> bool
    ensures { result ≡ is_address base size kind address }
{
    let end = u64::from(base) + u64::from(size);
    kind == 3 || (base <= address && u64::from(address) < end)
}

/// Where a symbol stands.
#[tactic(auto, unfolding(crate::specs::Reading::word_at))]
fn address(
    from: Unread<'_>,
    base: u32,
    size: u32,
    kind: u8,
) -> Result<(u32, Unread<'_>), ImageError>
    requires near { from.at + 4 < 2 ^ 32 }
    ensures gives { Gives (λ x. (x.0, rest_of x.1)) result (word_at (is_address base size kind) (rest_of from.entry)) }
    ensures moves { IfOk result (λ x. x.1.at ≡ from.entry.at + 4) }
{
    let (field, rest) = field(from, 4)?;
    let address = word_of(field);
    if !is_address(base, size, kind, address) {
        return Err(ImageError::BadImage { at: from.at });
    }
    Ok((address, rest))
}

fn is_printing(name: &[u8]) -> bool
    ensures { result ≡ is_printing name.now }
{
    name.iter().all(|b| 0x21 <= *b && *b <= 0x7E)
}

#[tactic(auto, unfolding(crate::specs::Reading::text_at))]
fn name(alloc: Global, from: Unread<'_>, size: u8) -> Result<(Text, Unread<'_>), ImageError>
    requires near { from.at + size < 2 ^ 32 }
    ensures gives { Gives (λ x. (x.0, rest_of x.1)) result (text_at size is_printing (rest_of from.entry)) }
    ensures moves { IfOk result (λ x. x.1.at ≡ from.entry.at + size) }
{
    let (field, rest) = field(from, u32::from(size))?;
    if !is_printing(field) {
        return Err(ImageError::BadImage { at: from.at });
    }
    Ok((List::from_slice(alloc, field)?, rest))
}

/// A symbol of code that is `size` bytes long.
#[tactic(auto, unfolding(crate::specs::Reading::symbol_at))]
fn symbol(
    alloc: Global,
    from: Unread<'_>,
    base: u32,
    size: u32,
) -> Result<(Symbol, Unread<'_>), ImageError>
    requires near { from.at + 261 < 2 ^ 32 }
    ensures gives { Gives (λ x. (x.0, rest_of x.1)) result (symbol_at base size (rest_of from.entry)) }
    ensures moves { IfOk result (λ x. x.1.at ≤ from.entry.at + 261) }
{
    let (kind, rest) = kind(from)?;
    let (address, rest) = address(rest, base, size, kind)?;
    let (count, rest) = name_size(rest)?;
    let (name, rest) = name(alloc, rest, count)?;
    Ok((
        Symbol {
            kind,
            address,
            name,
        },
        rest,
    ))
}

fn symbols(
    alloc: Global,
    from: Unread<'_>,
    base: u32,
    size: u32,
    count: u32,
) -> Result<(List<Symbol>, Unread<'_>), ImageError>
    requires near { from.at + 261 * count < 2 ^ 32 }
    ensures gives { Gives (λ x. (x.0, rest_of x.1)) result (symbols_at base size count (rest_of from.entry)) }
    ensures moves { IfOk result (λ x. x.1.at ≤ from.entry.at + 261 * count) }
{
    let mut symbols = List::new(alloc);
    let mut rest = from;
    for _ in 0..count {
        let (symbol, after) = symbol(alloc, rest, base, size)?;
        symbols.push(symbol)?;
        rest = after;
    }
    Ok((symbols, rest))
}

/// The code, which goes to the end of the bytes.
#[tactic(auto, unfolding(crate::specs::Reading::code_at))]
fn code(alloc: Global, from: Unread<'_>, base: u32, size: u32) -> Result<Code, ImageError>
    requires near { from.at + size < 2 ^ 32 }
    requires fits { base + size ≤ 2 ^ 32 }
    ensures { Gives (λ c. c) result (code_at base size (rest_of from.entry)) }
{
    let (bytes, rest) = field(from, size)?;
    if !rest.bytes.is_empty() {
        return Err(ImageError::BadImage { at: rest.at });
    }
    let bytes = Vec::from_slice(alloc, bytes)?;
    Ok(Code::new(base, bytes).unwrap())
}

/// What stands before the code.
#[derive(Drop)]
pub(crate) struct Header {
    pub(crate) base: u32,
    pub(crate) size: u32,
    pub(crate) symbols: List<Symbol>,
}

#[tactic(auto, unfolding(crate::specs::Reading::header_at))]
fn read_header(alloc: Global, from: Unread<'_>) -> Result<(Header, Unread<'_>), ImageError>
    requires near { from.at ≡ 0 }
    ensures gives { Gives (λ x. (x.0, rest_of x.1)) result (header_at (rest_of from.entry)) }
    ensures moves { IfOk result (λ x. x.1.at ≤ 17104912) }
    ensures short { IfOk result (λ x. x.0.size ≤ 1048576) }
    ensures fits { IfOk result (λ x. x.0.base + x.0.size ≤ 2 ^ 32) }
{
    let rest = magic(from)?;
    let (base, rest) = base(rest)?;
    let (size, rest) = code_size(rest, base)?;
    let (count, rest) = count(rest)?;
    let (symbols, rest) = symbols(alloc, rest, base, size, count)?;
    Ok((
        Header {
            base,
            size,
            symbols,
        },
        rest,
    ))
}

/// The fields, in their order.
#[tactic(auto, unfolding(crate::specs::Reading::image_of))]
fn fields(alloc: Global, bytes: &[u8]) -> Result<Image, ImageError>
    ensures { Gives (λ i. i) result (image_of bytes.now) }
{
    let (header, rest) = read_header(alloc, Unread { at: 0, bytes })?;
    let code = code(alloc, rest, header.base, header.size)?;
    Ok(Image {
        code,
        symbols: header.symbols,
    })
}

/// The image that the bytes are, all of them.
///
/// # Errors
/// `BadImage` exactly where they are no image, at the offset of the first fault: of a field with a bad value,
/// of the end of the bytes where a field isn't whole, or of the first byte behind the code. `Memory` for want
/// of memory.
pub fn read_image(alloc: Global, bytes: &[u8]) -> Result<Image, ImageError>
    ensures read { IfOk result (λ i. IsFileOf i bytes.now) }
    ensures complete { (i : Image) → IsFileOf i bytes.now → Answers i result }
    ensures refused { (at : ℕ) → result ≡ Err (ImageError.BadImage at) → IsFault bytes.now at }
    ensures fault { (at : ℕ) → IsFault bytes.now at → Refuses at result }
    // Each beginning of an image's bytes ends too early.
    ensures cut { (i : Image) (n : ℕ) → IsImage i → n < length (image_bytes i) → bytes.now ≡ take n (image_bytes i) → Refuses n result }
{
    fields(alloc, bytes)
}
