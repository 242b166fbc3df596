//! Words that rules make.
ghost use Rattle.std.specs.Prelude.{◌≡◌, IfOk};
ghost use Rattle.bed_deriv.specs.HeapRules.{fresh_word, four_bytes};

use bed_lang::{Box, Var, Word};
use std::alloc::{AllocError, Global};

fn boxed(alloc: Global, w: &Word) -> Result<Box<Word>, AllocError>
    ensures { IfOk result (λ r. r ≡ w.now) }
{
    Box::new(alloc, w.copy(alloc)?)
}

/// `a + b`.
pub(crate) fn sum(alloc: Global, a: &Word, b: &Word) -> Result<Word, AllocError>
    ensures { IfOk result (λ r. r ≡ Word.Add a.now b.now) }
{
    let a = boxed(alloc, a)?;
    let b = boxed(alloc, b)?;
    Ok(Word::Add(a, b))
}

/// `e + n`.
pub(crate) fn plus(alloc: Global, e: &Word, n: u32) -> Result<Word, AllocError>
    ensures { IfOk result (λ r. r ≡ Word.Add e.now (Word.Number n)) }
{
    sum(alloc, e, &Word::Number(n))
}

/// `a - b`.
pub(crate) fn difference(alloc: Global, a: &Word, b: &Word) -> Result<Word, AllocError>
    ensures { IfOk result (λ r. r ≡ Word.Sub a.now b.now) }
{
    let a = boxed(alloc, a)?;
    let b = boxed(alloc, b)?;
    Ok(Word::Sub(a, b))
}

// `n * e`.
fn times(alloc: Global, n: u32, e: &Word) -> Result<Word, AllocError>
    ensures { IfOk result (λ r. r ≡ Word.Times n e.now) }
{
    Ok(Word::Times(n, boxed(alloc, e)?))
}

// `a + n * e`.
fn plus_times(alloc: Global, a: &Word, n: u32, e: &Word) -> Result<Word, AllocError>
    ensures { IfOk result (λ r. r ≡ Word.Add a.now (Word.Times n e.now)) }
{
    let more = times(alloc, n, e)?;
    sum(alloc, a, &more)
}

/// `e + 4 * n`: where n words from address e end.
pub(crate) fn end_of(alloc: Global, e: &Word, n: &Word) -> Result<Word, AllocError>
    ensures { IfOk result (λ r. r ≡ Word.Add e.now (Word.Times 4 n.now)) }
{
    plus_times(alloc, e, 4, n)
}

/// The fresh variable of a number.
pub(crate) fn fresh_word(number: u32) -> Word
    ensures { result ≡ fresh_word number }
{
    Word::Var(Var::Fresh(number))
}

// `a + 256 * b + 65536 * c`.
fn three_bytes(alloc: Global, a: &Word, b: &Word, c: &Word) -> Result<Word, AllocError>
    ensures { IfOk result (λ r. r ≡ Word.Add (Word.Add a.now (Word.Times 256 b.now)) (Word.Times 65536 c.now)) }
{
    let low = plus_times(alloc, a, 256, b)?;
    plus_times(alloc, &low, 65_536, c)
}

/// `a + 256 * b + 65536 * c + 16777216 * d`: the word of four bytes.
pub(crate) fn four_bytes(
    alloc: Global,
    a: &Word,
    b: &Word,
    c: &Word,
    d: &Word,
) -> Result<Word, AllocError>
    ensures { IfOk result (λ r. r ≡ four_bytes a.now b.now c.now d.now) }
{
    let more = three_bytes(alloc, a, b, c)?;
    plus_times(alloc, &more, 16_777_216, d)
}
