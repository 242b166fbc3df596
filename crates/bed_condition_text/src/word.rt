//! Words and sequences.
ghost use Rattle.std.specs.Prelude.{◌≡◌, ◌++◌, OnOk};
ghost use Rattle.bed_condition_text.specs.Texts.{opening, closing, part_text, word_text, seq_text};

use crate::leaf::{push_decimal, push_name, push_var};
use bed_lang::{Seq, Word};
use std::alloc::{AllocError, Global};

/// Appends the bracket before a sum that is the right part of another.
fn push_opening(right: bool, out: &mut Vec<u8>) -> Result<(), AllocError>
    ensures { OnOk result (out.new.items ≡ out.old.items ++ opening right) }
{
    if right {
        out.extend_from_slice(b"(")?;
    }
    Ok(())
}

/// Appends the bracket after a sum that is the right part of another.
fn push_closing(right: bool, out: &mut Vec<u8>) -> Result<(), AllocError>
    ensures { OnOk result (out.new.items ≡ out.old.items ++ closing right) }
{
    if right {
        out.extend_from_slice(b")")?;
    }
    Ok(())
}

/// Appends a word, as the right part of a sum or not.
fn push_part(alloc: Global, word: &Word, right: bool, out: &mut Vec<u8>) -> Result<(), AllocError>
    ensures { OnOk result (out.new.items ≡ out.old.items ++ part_text word.now right) }
{
    match word {
        Word::Number(number) => push_decimal(alloc, *number, out),
        Word::Var(var) => push_var(alloc, var, out),
        Word::Label(label) => {
            out.extend_from_slice(b"&")?;
            push_name(label, out)
        }
        Word::Add(a, b) => {
            push_opening(right, out)?;
            push_part(alloc, a.get(), false, out)?;
            out.extend_from_slice(b" + ")?;
            push_part(alloc, b.get(), true, out)?;
            push_closing(right, out)
        }
        Word::Sub(a, b) => {
            push_opening(right, out)?;
            push_part(alloc, a.get(), false, out)?;
            out.extend_from_slice(b" - ")?;
            push_part(alloc, b.get(), true, out)?;
            push_closing(right, out)
        }
        Word::Times(number, a) => {
            out.extend_from_slice(b"(")?;
            push_decimal(alloc, *number, out)?;
            out.extend_from_slice(b" * ")?;
            push_part(alloc, a.get(), false, out)?;
            out.extend_from_slice(b")")
        }
    }
}

/// Appends a word.
pub(crate) fn push_word(alloc: Global, word: &Word, out: &mut Vec<u8>) -> Result<(), AllocError>
    ensures { OnOk result (out.new.items ≡ out.old.items ++ word_text word.now) }
{
    push_part(alloc, word, false, out)
}

/// Appends a sequence.
pub(crate) fn push_seq(alloc: Global, seq: &Seq, out: &mut Vec<u8>) -> Result<(), AllocError>
    ensures { OnOk result (out.new.items ≡ out.old.items ++ seq_text seq.now) }
{
    match seq {
        Seq::Var(var) => push_var(alloc, var, out),
        Seq::Nil => out.extend_from_slice(b"nil"),
        Seq::Cons(word, rest) => {
            out.extend_from_slice(b"cons(")?;
            push_word(alloc, word.get(), out)?;
            out.extend_from_slice(b", ")?;
            push_seq(alloc, rest.get(), out)?;
            out.extend_from_slice(b")")
        }
        Seq::App(front, back) => {
            out.extend_from_slice(b"app(")?;
            push_seq(alloc, front.get(), out)?;
            out.extend_from_slice(b", ")?;
            push_seq(alloc, back.get(), out)?;
            out.extend_from_slice(b")")
        }
    }
}
