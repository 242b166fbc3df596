//! Tokens written as a text.
ghost use Rattle.std.specs.Prelude.{◌≡◌, ◌≤◌, ◌++◌, [], nat_eq, map, replicate, slice_get, unwrap_or, OnOk};
ghost use Rattle.std.specs.Fmt.{decimal};
ghost use Rattle.bed_read.specs.Classes.{kind_class};
ghost use Rattle.bed_print.specs.Layout.{fixed_bytes, bytes_of, holds_next, holds_last, takes_list, touch, ends_line, indentation, gap, gap_after, depth_after, text_of};

use crate::class::{
    AMPERSAND, APP, BAR, BLOCK, CODE, COLON, COMMA, CONS, DOT, ELSE, JOIN, LEFT_BRACE,
    LEFT_BRACKET, LEFT_PAREN, RIGHT_BRACE, RIGHT_BRACKET, RIGHT_PAREN, SEMICOLON,
};
use bed_lex::{Kind, WORDS};
use std::alloc::{AllocError, Global};

/// The class of a token in the grammar.
fn class_of(kind: &Kind) -> u32
    ensures { result ≡ kind_class kind.now }
{
    match kind {
        Kind::Name(_) => 0,
        Kind::Number(number) => { if *number <= 4096 { 1 } else { 2 } }
        Kind::Word(word) => *word as u32 + 3,
        Kind::Fresh(_) => 85,
    }
}

fn is(class: u32, fixed: u8) -> bool
    ensures { result ≡ nat_eq class fixed }
{
    class == fixed as u32
}

/// Whether no blank comes after a token.
fn joins_next(class: u32) -> bool
    ensures { result ≡ holds_next class }
{
    is(class, LEFT_PAREN) || is(class, LEFT_BRACKET) || is(class, AMPERSAND)
}

/// Whether no blank comes before a token.
fn joins_last(class: u32) -> bool
    ensures { result ≡ holds_last class }
{
    is(class, RIGHT_PAREN)
        || is(class, RIGHT_BRACKET)
        || is(class, COMMA)
        || is(class, SEMICOLON)
        || is(class, COLON)
        || is(class, DOT)
}

/// Whether no blank comes between a token and `(`.
fn begins_list(class: u32) -> bool
    ensures { result ≡ takes_list class }
{
    class == 0 || is(class, BLOCK) || is(class, CODE) || is(class, CONS) || is(class, APP)
}

/// Whether two tokens stand side by side.
fn are_joined(last: u32, next: u32) -> bool
    ensures { result ≡ touch last next }
{
    joins_next(last) || joins_last(next) || (begins_list(last) && is(next, LEFT_PAREN))
}

/// Whether a new line begins between two tokens.
fn are_parted(last: u32, next: u32) -> bool
    ensures { result ≡ ends_line last next }
{
    is(last, SEMICOLON)
        || is(last, LEFT_BRACE)
        || (is(last, RIGHT_BRACE) && !(is(next, ELSE) || is(next, JOIN)))
        || is(next, BAR)
}

/// By how many blanks a line is moved in.
fn indent(depth: u32, next: u32) -> u32
    requires { depth ≤ 64 }
    ensures { result ≡ indentation depth next }
{
    if is(next, BAR) {
        return 2;
    }
    if is(next, RIGHT_BRACE) {
        return 4 * depth.saturating_sub(1);
    }
    4 * depth
}

/// How many braces are open after a token, at most 64.
fn deeper(depth: u32, class: u32) -> u32
    requires { depth ≤ 64 }
    ensures exact { result ≡ depth_after depth class }
    ensures within { result ≤ 64 }
{
    if is(class, LEFT_BRACE) {
        return (depth + 1).min(64);
    }
    if is(class, RIGHT_BRACE) {
        return depth.saturating_sub(1);
    }
    depth
}

fn push_blanks(count: u32, text: &mut Vec<u8>) -> Result<(), AllocError>
    ensures { OnOk result (text.new.items ≡ text.old.items ++ replicate count 32) }
{
    for _ in 0..count {
        text.push(b' ')?;
    }
    Ok(())
}

/// Appends what stands between two tokens.
fn push_gap(depth: u32, last: u32, next: u32, text: &mut Vec<u8>) -> Result<(), AllocError>
    requires { depth ≤ 64 }
    ensures { OnOk result (text.new.items ≡ text.old.items ++ gap depth last next) }
{
    if are_joined(last, next) {
        return Ok(());
    }
    if are_parted(last, next) {
        text.push(b'\n')?;
        return push_blanks(indent(depth, next), text);
    }
    text.push(b' ')?;
    Ok(())
}

/// Appends what stands before a token.
fn push_before(
    depth: u32,
    last: Option<u32>,
    next: u32,
    text: &mut Vec<u8>,
) -> Result<(), AllocError>
    requires { depth ≤ 64 }
    ensures { OnOk result (text.new.items ≡ text.old.items ++ gap_after depth last next) }
{
    match last {
        None => Ok(()),
        Some(last) => push_gap(depth, last, next, text),
    }
}

fn push_decimal(alloc: Global, number: u32, text: &mut Vec<u8>) -> Result<(), AllocError>
    ensures { OnOk result (text.new.items ≡ text.old.items ++ decimal number) }
{
    let digits = format!(in alloc; "{number}")?;
    text.extend_from_slice(digits.as_bytes())
}

/// The bytes of the word at a position; none where there is none.
fn bytes_at<'a>(words: &[&'a str], position: usize) -> &'a [u8]
    ensures { result.now ≡ unwrap_or (slice_get (map (λ w. w.now) words.now) position) [] }
{
    if position < words.len() {
        words[position].as_bytes()
    } else {
        &[]
    }
}

/// The bytes of the fixed word at a position; none where there is none.
fn word_bytes(word: u8) -> &'static [u8]
    ensures { result.now ≡ fixed_bytes word }
{
    bytes_at(&WORDS, word as usize)
}

/// Appends the bytes of a token.
fn push_bytes(alloc: Global, kind: &Kind, text: &mut Vec<u8>) -> Result<(), AllocError>
    ensures { OnOk result (text.new.items ≡ text.old.items ++ bytes_of kind.now) }
{
    match kind {
        Kind::Name(name) => text.extend_from_slice(name.bytes.as_slice()),
        Kind::Number(number) => push_decimal(alloc, *number, text),
        Kind::Word(word) => text.extend_from_slice(word_bytes(*word)),
        Kind::Fresh(number) => {
            text.push(b'#')?;
            push_decimal(alloc, *number, text)
        }
    }
}

/// Appends the text of tokens.
pub(crate) fn push_text(alloc: Global, kinds: &[Kind], text: &mut Vec<u8>) -> Result<(), AllocError>
    ensures { OnOk result (text.new.items ≡ text.old.items ++ text_of kinds.now) }
{
    let mut depth = 0;
    let mut last = None;
    for kind in kinds {
        let class = class_of(kind);
        push_before(depth, last, class, text)?;
        push_bytes(alloc, kind, text)?;
        depth = deeper(depth, class);
        last = Some(class);
    }
    text.push(b'\n')?;
    Ok(())
}
