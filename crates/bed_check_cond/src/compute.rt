//! The word that an operation gives.
ghost use Rattle.std.specs.Prelude.{◌≡◌, IfOk};
ghost use Rattle.bed_lang.specs.SameFacts.{is_constant};
ghost use Rattle.bed_lang.specs.Forms.{times_form, word_form};
ghost use Rattle.bed_forms.specs.Rebuilt.{form_word, rebuilt_word};
ghost use Rattle.bed_deriv.specs.Steps.{computed, product_of};
ghost use Rattle.bed_check_cond.specs.Parts.{both_constant, bits, bits_word};

use bed_forms::{form_word, rebuilt_word, times_form, word_form};
use bed_lang::{Box, Form, Op, Word};
use std::alloc::{AllocError, Global};

fn sum(alloc: Global, a: &Word, b: &Word) -> Result<Word, AllocError>
    ensures { IfOk result (λ r. r ≡ rebuilt_word (Word.Add a.now b.now)) }
{
    let a = Box::new(alloc, a.copy(alloc)?)?;
    let b = Box::new(alloc, b.copy(alloc)?)?;
    let w = Word::Add(a, b);
    rebuilt_word(alloc, &w)
}

fn difference(alloc: Global, a: &Word, b: &Word) -> Result<Word, AllocError>
    ensures { IfOk result (λ r. r ≡ rebuilt_word (Word.Sub a.now b.now)) }
{
    let a = Box::new(alloc, a.copy(alloc)?)?;
    let b = Box::new(alloc, b.copy(alloc)?)?;
    let w = Word::Sub(a, b);
    rebuilt_word(alloc, &w)
}

fn is_constant(f: &Form) -> bool
    ensures { result ≡ is_constant f.now }
{
    match f.parts.as_slice() {
        [] => true,
        _ => false,
    }
}

fn multiple(alloc: Global, n: u32, f: &Form) -> Result<Word, AllocError>
    ensures { IfOk result (λ r. r ≡ form_word (times_form n f.now)) }
{
    let form = times_form(alloc, n, f)?;
    form_word(alloc, &form)
}

fn product_of(alloc: Global, f: &Form, g: &Form) -> Result<Option<Word>, AllocError>
    ensures { IfOk result (λ r. r ≡ product_of f.now g.now) }
{
    if is_constant(f) {
        Ok(Some(multiple(alloc, f.constant, g)?))
    } else if is_constant(g) {
        Ok(Some(multiple(alloc, g.constant, f)?))
    } else {
        Ok(None)
    }
}

fn product(alloc: Global, a: &Word, b: &Word) -> Result<Option<Word>, AllocError>
    ensures { IfOk result (λ r. r ≡ computed Op.Mul a.now b.now) }
{
    let f = word_form(alloc, a)?;
    let g = word_form(alloc, b)?;
    product_of(alloc, &f, &g)
}

fn constants_of(f: &Form, g: &Form) -> Option<(u32, u32)>
    ensures { result ≡ both_constant f.now g.now }
{
    if is_constant(f) && is_constant(g) {
        Some((f.constant, g.constant))
    } else {
        None
    }
}

// The numbers that two words are, where they are.
fn constants(alloc: Global, a: &Word, b: &Word) -> Result<Option<(u32, u32)>, AllocError>
    ensures { IfOk result (λ r. r ≡ both_constant (word_form a.now) (word_form b.now)) }
{
    let f = word_form(alloc, a)?;
    let g = word_form(alloc, b)?;
    Ok(constants_of(&f, &g))
}

fn all_bits(op: Op, m: u32, n: u32) -> u32
    ensures { result ≡ bits op m n }
{
    match op {
        Op::And => m & n,
        Op::Or => m | n,
        _ => m ^ n,
    }
}

fn bits_of(alloc: Global, op: Op, a: &Word, b: &Word) -> Result<Option<Word>, AllocError>
    ensures { IfOk result (λ r. r ≡ bits_word op (both_constant (word_form a.now) (word_form b.now))) }
{
    match constants(alloc, a, b)? {
        None => Ok(None),
        Some((m, n)) => Ok(Some(Word::Number(all_bits(op, m, n)))),
    }
}

/// The word that an operation gives; None where it is none that can be written.
///
/// # Errors
/// `AllocError` for want of memory, and where a form has more than 8,192 parts.
#[tactic(auto, using(crate::proofs::ComputedLemmas::and_is, crate::proofs::ComputedLemmas::or_is, crate::proofs::ComputedLemmas::xor_is))]
pub(crate) fn computed(
    alloc: Global,
    op: Op,
    a: &Word,
    b: &Word,
) -> Result<Option<Word>, AllocError>
    ensures { IfOk result (λ r. r ≡ computed op a.now b.now) }
{
    match op {
        Op::Add => Ok(Some(sum(alloc, a, b)?)),
        Op::Sub => Ok(Some(difference(alloc, a, b)?)),
        Op::Mul => product(alloc, a, b),
        Op::And => bits_of(alloc, Op::And, a, b),
        Op::Or => bits_of(alloc, Op::Or, a, b),
        Op::Xor => bits_of(alloc, Op::Xor, a, b),
    }
}
