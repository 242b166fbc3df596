//! What stands at the front of a text.
ghost use Rattle.std.specs.Prelude.{◌≡◌, ℕ, ◌+◌, ◌*◌, ◌<◌, ◌≤◌, ◌^◌, length, slice_get, take, take_while, position, find, map, IsTrue, IsSome, IfSome, Option, Some, None};
ghost use Rattle.std.specs.Str.{bytes_eq};
ghost use Rattle.std.specs.Option.{option_copied};
ghost use Rattle.bed_lex.specs.Numbers.{digit_of, digits_value, that_fits, number_value, is_between};
ghost use Rattle.bed_lex.specs.Tokens.{is_letter, is_digit, is_name_byte, is_blank, run_length, line_length, fixed_word, is_byte_at, is_name_byte_at, stands, mark_at, run_front, mark_front, front_of, Advances};

use crate::token::{MARKS, WORDS};

/// What stands at the front of a text, with its number of bytes.
#[derive(Clone, Copy, PartialEq, Eq)]
pub enum Front {
    /// Nothing: the text is empty.
    End,
    /// A blank or a comment.
    Skip(usize),
    /// A reserved word, a mark or the hole, by its position in `WORDS`.
    Word(u8, usize),
    /// A number, with its value.
    Number(u32, usize),
    /// A name of at most 255 bytes.
    Name(usize),
    /// A byte that begins no token.
    BadByte,
    /// A word that begins with a digit and is no number.
    BadNumber,
    /// A name of more than 255 bytes.
    LongName,
}

fn between(low: u8, high: u8, byte: u8) -> bool
    ensures { result ≡ is_between low high byte }
{
    low <= byte && byte <= high
}

/// Whether a byte is a letter or `_`.
pub fn letter(byte: u8) -> bool
    ensures { result ≡ is_letter byte }
{
    between(65, 90, byte) || between(97, 122, byte) || byte == 95
}

fn digit(byte: u8) -> bool
    ensures { result ≡ is_digit byte }
{
    between(48, 57, byte)
}

/// Whether a byte is one of names: a letter, a digit or `_`.
pub fn name_byte(byte: u8) -> bool
    ensures { result ≡ is_name_byte byte }
{
    letter(byte) || digit(byte)
}

fn blank(byte: u8) -> bool
    ensures { result ≡ is_blank byte }
{
    byte == 32 || byte == 9 || byte == 13 || byte == 10
}

/// How many bytes of names stand at the front.
fn run(text: &[u8]) -> usize
    ensures exact { result ≡ run_length text.now }
    ensures within { result ≤ length text.now }
{
    text.iter().take_while(|byte| name_byte(**byte)).count()
}

/// How many bytes stand before the end of the line.
fn line(text: &[u8]) -> usize
    ensures exact { result ≡ line_length text.now }
    ensures within { result ≤ length text.now }
{
    text.iter().take_while(|byte| **byte != 10).count()
}

fn byte_at(text: &[u8], at: usize, byte: u8) -> bool
    ensures { result ≡ is_byte_at text.now at byte }
{
    match text.get(at) {
        Some(found) => *found == byte,
        None => false,
    }
}

fn name_byte_at(text: &[u8], at: usize) -> bool
    ensures { result ≡ is_name_byte_at text.now at }
{
    match text.get(at) {
        Some(found) => name_byte(*found),
        None => false,
    }
}

/// The position of the first of these words that has these bytes.
fn position_of(words: &[&str], word: &[u8]) -> Option<usize>
    ensures exact { result ≡ position (λ w. bytes_eq w.now word.now) words.now }
    ensures within { IfSome result (λ i. i < length words.now) }
{
    words.iter().position(|each| each.as_bytes() == word)
}

/// The position of a reserved word, a mark or the hole in `WORDS`.
pub fn fixed(word: &[u8]) -> Option<usize>
    ensures exact { result ≡ fixed_word word.now }
    ensures within { IfSome result (λ i. i < 82) }
{
    position_of(&WORDS, word)
}

fn starts(text: &[u8], mark: &[u8]) -> bool
    ensures { result ≡ stands text.now mark.now }
{
    text.starts_with(mark) && !(byte_at(mark, 3, 98) && name_byte_at(text, mark.len()))
}

/// The first of these marks that stands at the front.
fn first_mark<'a>(marks: &[&'a str], text: &[u8]) -> Option<&'a [u8]>
    ensures { option_copied result ≡ find (stands text.now) (map (λ m. m.now) marks.now) }
{
    for mark in marks {
        let bytes = mark.as_bytes();
        if starts(text, bytes) {
            return Some(bytes);
        }
    }
    None
}

/// The longest mark at the front.
fn mark(text: &[u8]) -> Option<&'static [u8]>
    ensures { option_copied result ≡ mark_at text.now }
{
    first_mark(&MARKS, text)
}

/// The value of a digit, decimal or hexadecimal.
fn digit_value(byte: u8, hexadecimal: bool) -> Option<u64>
    ensures exact { result ≡ digit_of hexadecimal byte }
    ensures small { IfSome result (λ d. d < 16) }
{
    if between(48, 57, byte) {
        return Some((byte - 48) as u64);
    }
    if !hexadecimal {
        return None;
    }
    if between(65, 70, byte) {
        return Some((byte - 55) as u64);
    }
    if between(97, 102, byte) {
        return Some((byte - 87) as u64);
    }
    None
}

/// The value of a row of decimal or hexadecimal digits, where it is at most 4294967295.
pub fn digits(word: &[u8], hexadecimal: bool) -> Option<u32>
    ensures { result ≡ that_fits (digits_value hexadecimal 0 word.now) }
{
    let radix = if hexadecimal { 16 } else { 10 };
    let mut value: u64 = 0;
    for byte in word {
        let Some(digit) = digit_value(*byte, hexadecimal) else {
            return None;
        };
        value = value * radix + digit;
        if value > 4_294_967_295 {
            return None;
        }
    }
    Some(value as u32)
}

/// The value of a number, decimal or with `0x`.
fn number(word: &[u8]) -> Option<u32>
    ensures { result ≡ number_value word.now }
{
    match word {
        [zero, x, rest @ ..] => {
            if *zero == 48 && *x == 120 && !rest.is_empty() {
                digits(rest, true)
            } else {
                digits(word, false)
            }
        }
        _ => digits(word, false),
    }
}

/// What a longest run of bytes of names is.
fn word(word: &[u8], begins_with_digit: bool) -> Front
    ensures exact { result ≡ run_front begins_with_digit word.now }
    ensures sized { 0 < length word.now → Advances result (length word.now) }
{
    if begins_with_digit {
        return match number(word) {
            Some(value) => Front::Number(value, word.len()),
            None => Front::BadNumber,
        };
    }
    match fixed(word) {
        Some(position) => Front::Word(position as u8, word.len()),
        None => {
            if word.len() <= 255 {
                Front::Name(word.len())
            } else {
                Front::LongName
            }
        }
    }
}

/// The longest mark at the front, or the byte there that begins no token.
fn marked(text: &[u8]) -> Front
    ensures exact { result ≡ mark_front text.now }
    ensures sized { Advances result (length text.now) }
{
    let Some(mark) = mark(text) else {
        return Front::BadByte;
    };
    match fixed(mark) {
        Some(position) => Front::Word(position as u8, mark.len()),
        None => Front::BadByte,
    }
}

/// What stands at the front of a text.
#[tactic(auto, unfolding(crate::specs::Tokens::front_of))]
pub fn find_front(text: &[u8]) -> Front
    ensures exact { result ≡ front_of text.now }
    ensures sized { Advances result (length text.now) }
{
    let Some(first) = text.first() else {
        return Front::End;
    };
    let first = *first;
    if byte_at(text, 0, 47) && byte_at(text, 1, 47) {
        return Front::Skip(line(text));
    }
    if blank(first) {
        return Front::Skip(1);
    }
    if name_byte(first) {
        let length = run(text);
        return word(&text[..length], digit(first));
    }
    marked(text)
}
