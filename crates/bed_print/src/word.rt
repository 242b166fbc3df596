//! Words.
ghost use Rattle.std.specs.Prelude.{◌≡◌, ◌++◌, OnOk};
ghost use Rattle.bed_print.specs.Kinds.{sum_of, word_kinds, opening, closing, room_left};

use crate::class::{AMPERSAND, LEFT_PAREN, MINUS, PLUS, RIGHT_PAREN, STAR};
use crate::leaf::{push_fixed, push_name, push_number, push_var};
use bed_lang::{List, Word};
use bed_lex::Kind;
use std::alloc::{AllocError, Global};

/// Appends the bracket before a sum that may have one part alone.
fn push_opening(room: u32, out: &mut List<Kind>) -> Result<(), AllocError>
    ensures { OnOk result (out.new ≡ out.old ++ opening room) }
{
    if room == 0 {
        push_fixed(LEFT_PAREN, out)?;
    }
    Ok(())
}

/// Appends the bracket after a sum that may have one part alone.
fn push_closing(room: u32, out: &mut List<Kind>) -> Result<(), AllocError>
    ensures { OnOk result (out.new ≡ out.old ++ closing room) }
{
    if room == 0 {
        push_fixed(RIGHT_PAREN, out)?;
    }
    Ok(())
}

/// How many further parts the left part of a sum may have: a sum in brackets has at most 256 parts.
fn left_room(room: u32) -> u32
    ensures { result ≡ room_left room }
{
    if room == 0 { 254 } else { room - 1 }
}

/// Appends a word, as a sum of at most `room + 1` parts.
pub(crate) fn push_parts(
    alloc: Global,
    word: &Word,
    room: u32,
    out: &mut List<Kind>,
) -> Result<(), AllocError>
    ensures { OnOk result (out.new ≡ out.old ++ sum_of word.now room) }
{
    match word {
        Word::Number(number) => push_number(*number, out),
        Word::Var(var) => push_var(alloc, var, out),
        Word::Label(name) => {
            push_fixed(AMPERSAND, out)?;
            push_name(alloc, name, out)
        }
        Word::Add(left, right) => {
            push_opening(room, out)?;
            push_parts(alloc, left.get(), left_room(room), out)?;
            push_fixed(PLUS, out)?;
            push_parts(alloc, right.get(), 0, out)?;
            push_closing(room, out)
        }
        Word::Sub(left, right) => {
            push_opening(room, out)?;
            push_parts(alloc, left.get(), left_room(room), out)?;
            push_fixed(MINUS, out)?;
            push_parts(alloc, right.get(), 0, out)?;
            push_closing(room, out)
        }
        Word::Times(number, word) => {
            push_fixed(LEFT_PAREN, out)?;
            push_number(*number, out)?;
            push_fixed(STAR, out)?;
            push_parts(alloc, word.get(), 255, out)?;
            push_fixed(RIGHT_PAREN, out)
        }
    }
}

/// Appends a word.
pub(crate) fn push_word(alloc: Global, word: &Word, out: &mut List<Kind>) -> Result<(), AllocError>
    ensures { OnOk result (out.new ≡ out.old ++ word_kinds word.now) }
{
    push_parts(alloc, word, 255, out)
}
