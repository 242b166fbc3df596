//! Words and sequences written anew from their normal forms.
ghost use Rattle.std.specs.Prelude.{◌≡◌, IfOk};
ghost use Rattle.bed_forms.specs.Rebuilt.{key_word, part_word, sum_from, parts_word, form_word, pieces_seq, rebuilt_word, rebuilt_seq};

use crate::normal::{seq_form, word_form};
use bed_lang::{Box, Form, Key, Piece, Seq, Var, Word};
use std::alloc::{AllocError, Global};

// Sums and sequences nest a level for each part or piece: no deeper than any stack holds.
const MAX_NESTING: usize = 8_192;

fn key_word(alloc: Global, key: &Key) -> Result<Word, AllocError>
    ensures { IfOk result (λ r. r ≡ key_word key.now) }
{
    match key {
        Key::Var(v) => Ok(Word::Var(v.copy(alloc)?)),
        Key::Label(name) => Ok(Word::Label(name.copy(alloc)?)),
    }
}

fn boxed_key(alloc: Global, key: &Key) -> Result<Box<Word>, AllocError>
    ensures { IfOk result (λ r. r ≡ key_word key.now) }
{
    Box::new(alloc, key_word(alloc, key)?)
}

fn part_word(alloc: Global, part: &(Key, u32)) -> Result<Word, AllocError>
    ensures { IfOk result (λ r. r ≡ part_word part.now) }
{
    if part.1 == 1 {
        key_word(alloc, &part.0)
    } else {
        Ok(Word::Times(part.1, boxed_key(alloc, &part.0)?))
    }
}

fn sum(alloc: Global, a: Word, b: Word) -> Result<Word, AllocError>
    ensures { IfOk result (λ r. r ≡ Word.Add a b) }
{
    let a = Box::new(alloc, a)?;
    let b = Box::new(alloc, b)?;
    Ok(Word::Add(a, b))
}

// A word followed by parts.
fn sum_from(alloc: Global, first: Word, parts: &[(Key, u32)]) -> Result<Word, AllocError>
    ensures { IfOk result (λ r. r ≡ sum_from first parts.now) }
{
    let mut total = first;
    for part in parts {
        total = sum(alloc, total, part_word(alloc, part)?)?;
    }
    Ok(total)
}

fn parts_word(alloc: Global, parts: &[(Key, u32)]) -> Result<Word, AllocError>
    ensures { IfOk result (λ r. r ≡ parts_word parts.now) }
{
    match parts {
        [] => Ok(Word::Number(0)),
        [part, more @ ..] => {
            let first = part_word(alloc, part)?;
            sum_from(alloc, first, more)
        }
    }
}

/// The word of a form: its constant, left out where it is 0 beside parts, and then its parts in order.
///
/// # Errors
/// `AllocError` for want of memory, and where there are more than 8,192 parts.
pub fn form_word(alloc: Global, form: &Form) -> Result<Word, AllocError>
    ensures { IfOk result (λ r. r ≡ form_word form.now) }
{
    let parts = form.parts.as_slice();
    if parts.len() > MAX_NESTING {
        return Err(AllocError);
    }
    if form.constant == 0 {
        parts_word(alloc, parts)
    } else {
        sum_from(alloc, Word::Number(form.constant), parts)
    }
}

// A form's word before a sequence, and a variable before one.
fn element_before(alloc: Global, form: &Form, rest: Seq) -> Result<Seq, AllocError>
    ensures { IfOk result (λ r. r ≡ Seq.Cons (form_word form.now) rest) }
{
    let rest = Box::new(alloc, rest)?;
    let first = Box::new(alloc, form_word(alloc, form)?)?;
    Ok(Seq::Cons(first, rest))
}

fn variable_before(alloc: Global, v: &Var, rest: Seq) -> Result<Seq, AllocError>
    ensures { IfOk result (λ r. r ≡ Seq.App (Seq.Var v.now) rest) }
{
    let rest = Box::new(alloc, rest)?;
    let first = Box::new(alloc, Seq::Var(v.copy(alloc)?))?;
    Ok(Seq::App(first, rest))
}

fn pieces_from(alloc: Global, pieces: &[Piece]) -> Result<Seq, AllocError>
    ensures { IfOk result (λ r. r ≡ pieces_seq pieces.now) }
{
    match pieces {
        [] => Ok(Seq::Nil),
        [Piece::Element(form), more @ ..] => {
            let rest = pieces_from(alloc, more)?;
            element_before(alloc, form, rest)
        }
        [Piece::Sequence(v), more @ ..] => {
            let rest = pieces_from(alloc, more)?;
            variable_before(alloc, v, rest)
        }
    }
}

/// The sequence of pieces: an element before the rest, or a variable followed by it.
///
/// # Errors
/// `AllocError` for want of memory, and where there are more than 8,192 pieces.
pub fn pieces_seq(alloc: Global, pieces: &[Piece]) -> Result<Seq, AllocError>
    ensures { IfOk result (λ r. r ≡ pieces_seq pieces.now) }
{
    if pieces.len() > MAX_NESTING {
        return Err(AllocError);
    }
    pieces_from(alloc, pieces)
}

/// The word written anew from its normal form.
///
/// # Errors
/// As of `form_word`.
pub fn rebuilt_word(alloc: Global, w: &Word) -> Result<Word, AllocError>
    ensures { IfOk result (λ r. r ≡ rebuilt_word w.now) }
{
    let form = word_form(alloc, w)?;
    form_word(alloc, &form)
}

/// The sequence written anew from its normal form.
///
/// # Errors
/// As of `pieces_seq`.
pub fn rebuilt_seq(alloc: Global, s: &Seq) -> Result<Seq, AllocError>
    ensures { IfOk result (λ r. r ≡ rebuilt_seq s.now) }
{
    let pieces = seq_form(alloc, s)?;
    pieces_seq(alloc, pieces.as_slice())
}
