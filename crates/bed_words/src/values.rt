//! What single words stand for.
ghost use Rattle.std.specs.Prelude.{◌≡◌, ◌<◌, ◌+◌, nat_eq, length, position, take, drop, IfOk, IfSome, IsTrue, Option, Some, None, is_some};
ghost use Rattle.std.specs.List.{list_all};
ghost use Rattle.bed_lex.specs.Numbers.{digits_value, that_fits};
ghost use Rattle.bed_lex.specs.Tokens.{is_name_byte, fixed_word};
ghost use Rattle.bed_words.specs.Values.{after_zero, number_of, begins_name, is_name, named, import_of, block_of, size_of};

use bed_lang::{List, Name};
use bed_lex::{digits, fixed, letter, name_byte};
use std::alloc::{AllocError, Global};

fn after_first_zero(word: &[u8]) -> Option<u32>
    ensures { result ≡ after_zero word.now }
{
    match word {
        [] => Some(0),
        [_] => None,
        [x, rest @ ..] => { if *x == b'x' { digits(rest, true) } else { None } }
    }
}

/// The value of a number: decimal digits without a leading zero, or `0x` and hexadecimal digits.
pub(crate) fn number(word: &[u8]) -> Option<u32>
    ensures { result ≡ number_of word.now }
{
    let [first, rest @ ..] = word else {
        return None;
    };
    if *first == b'0' {
        return after_first_zero(rest);
    }
    digits(word, false)
}

fn find_byte(word: &[u8], byte: u8) -> Option<usize>
    ensures exact { result ≡ position (λ b. nat_eq b byte) word.now }
    ensures within { IfSome result (λ i. i < length word.now) }
{
    word.iter().position(|each| *each == byte)
}

fn begins_as_name(word: &[u8]) -> bool
    ensures { result ≡ begins_name word.now }
{
    match word {
        [] => false,
        [first, ..] => letter(*first),
    }
}

fn has_name_bytes(word: &[u8]) -> bool
    ensures { result ≡ list_all is_name_byte word.now }
{
    word.iter().all(|byte| name_byte(*byte))
}

/// Whether a word is a name of the language.
fn is_named(word: &[u8]) -> bool
    ensures { result ≡ is_name word.now }
{
    begins_as_name(word) && has_name_bytes(word) && fixed(word).is_none()
}

/// A name that stands in no text.
pub(crate) fn name_from(alloc: Global, word: &[u8]) -> Result<Name, AllocError>
    ensures { IfOk result (λ name. name ≡ named word.now) }
{
    let bytes = List::from_slice(alloc, word)?;
    Ok(Name { bytes, at: 0 })
}

/// Whether a word is an import with its address, `n=h`.
pub(crate) fn is_import(word: &[u8]) -> bool
    ensures { result ≡ is_some (import_of word.now) }
{
    match find_byte(word, b'=') {
        None => false,
        Some(i) => is_named(&word[..i]) && number(&word[i + 1..]).is_some(),
    }
}

/// An import with its address, `n=h`.
pub(crate) fn import(alloc: Global, word: &[u8]) -> Result<Option<(Name, u32)>, AllocError>
    ensures { IfOk result (λ found. found ≡ import_of word.now) }
{
    let Some(i) = find_byte(word, b'=') else {
        return Ok(None);
    };
    if !is_named(&word[..i]) {
        return Ok(None);
    }
    match number(&word[i + 1..]) {
        None => Ok(None),
        Some(address) => Ok(Some((name_from(alloc, &word[..i])?, address))),
    }
}

/// A block of memory, `h,w`.
pub(crate) fn block(word: &[u8]) -> Option<(u32, u32)>
    ensures { result ≡ block_of word.now }
{
    let i = find_byte(word, b',')?;
    let address = number(&word[..i])?;
    let words = number(&word[i + 1..])?;
    Some((address, words))
}

/// The size of a generated module, 1 to 200.
pub(crate) fn size(word: &[u8]) -> Option<u32>
    ensures { result ≡ size_of word.now }
{
    let size = number(word)?;
    if 1 <= size && size <= 200 {
        Some(size)
    } else {
        None
    }
}
