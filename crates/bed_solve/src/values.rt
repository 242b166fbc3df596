//! The value of a variable by an equation.
ghost use Rattle.std.specs.Prelude.{◌≡◌, ◌∷◌, ◌++◌, [], IfOk, OnOk, bytes_eq, is_some};
ghost use Rattle.bed_lang.specs.Keys.{same_key, key_text};
ghost use Rattle.bed_lang.specs.Forms.{seq_form, times_form};
ghost use Rattle.bed_forms.specs.Rebuilt.{form_word, pieces_seq};
ghost use Rattle.bed_lang.specs.Coefficients.{coefficient_in};
ghost use Rattle.bed_lang.specs.Differences.{difference};
ghost use Rattle.bed_deriv.specs.PureRules.{parts_but, form_but, is_just, has_sequence};
ghost use Rattle.bed_plain.specs.Solving.{word_value, seq_value, solved_value};

use bed_forms::{Key, Piece, difference, form_word, pieces_seq, seq_form, times_form};
use bed_lang::{Arg, Form, List, Pure, Seq, Var, Word};
use std::alloc::{AllocError, Global};

fn is_key(key: &Key, v: &Var) -> bool
    ensures { result ≡ same_key key.now (Key.Var v.now) }
{
    match key {
        Key::Var(x) => x.same(v),
        Key::Label(_) => false,
    }
}

// Whether the texts of a key and a variable are the same.
#[tactic(auto, using(crate::proofs::KeyLemmas::same_key_is))]
fn has_text(key: &Key, v: &Var) -> bool
    ensures { result ≡ bytes_eq (key_text (Key.Var v.now)) (key_text key.now) }
{
    is_key(key, v)
}

// The coefficient of a variable.
fn coefficient(v: &Var, parts: &[(Key, u32)]) -> u32
    ensures { result ≡ coefficient_in (Key.Var v.now) parts.now }
{
    let mut rest = parts;
    while let [part, more @ ..] = rest {
        if has_text(&part.0, v) {
            return part.1;
        }
        rest = more;
    }
    0
}

fn push_part(alloc: Global, out: &mut List<(Key, u32)>, part: &(Key, u32)) -> Result<(), AllocError>
    ensures { OnOk result (out.new ≡ out.old ++ part.now ∷ []) }
{
    let key = part.0.copy(alloc)?;
    out.push((key, part.1))
}

// The parts without a variable's.
fn parts_but(alloc: Global, v: &Var, parts: &[(Key, u32)]) -> Result<List<(Key, u32)>, AllocError>
    ensures { IfOk result (λ r. r ≡ parts_but v.now parts.now) }
{
    let mut out = List::new(alloc);
    for part in parts {
        if !is_key(&part.0, v) {
            push_part(alloc, &mut out, part)?;
        }
    }
    Ok(out)
}

fn form_but(alloc: Global, v: &Var, form: &Form) -> Result<Form, AllocError>
    ensures { IfOk result (λ r. r ≡ form_but v.now form.now) }
{
    let parts = parts_but(alloc, v, form.parts.as_slice())?;
    Ok(Form {
        constant: form.constant,
        parts,
    })
}

// What is left of a form without a variable, as a word, and its opposite.
fn rest_word(alloc: Global, v: &Var, form: &Form) -> Result<Word, AllocError>
    ensures { IfOk result (λ r. r ≡ form_word (form_but v.now form.now)) }
{
    let rest = form_but(alloc, v, form)?;
    form_word(alloc, &rest)
}

fn minus_rest(alloc: Global, v: &Var, form: &Form) -> Result<Word, AllocError>
    ensures { IfOk result (λ r. r ≡ form_word (times_form 4294967295 (form_but v.now form.now))) }
{
    let rest = form_but(alloc, v, form)?;
    let opposite = times_form(alloc, 4_294_967_295, &rest)?;
    form_word(alloc, &opposite)
}

// The value of a variable whose sum with the rest of a form is 0.
fn word_value(alloc: Global, v: &Var, form: &Form) -> Result<Option<Arg>, AllocError>
    ensures { IfOk result (λ r. r ≡ word_value v.now form.now (coefficient_in (Key.Var v.now) form.now.parts)) }
{
    let times = coefficient(v, form.parts.as_slice());
    if times == 1 {
        Ok(Some(Arg::Word(0, minus_rest(alloc, v, form)?)))
    } else if times == 4_294_967_295 {
        Ok(Some(Arg::Word(0, rest_word(alloc, v, form)?)))
    } else {
        Ok(None)
    }
}

fn is_just(v: &Var, pieces: &[Piece]) -> bool
    ensures { result ≡ is_just v.now pieces.now }
{
    match pieces {
        [] => false,
        [Piece::Element(_), ..] => false,
        [Piece::Sequence(x), more @ ..] => more.is_empty() && x.same(v),
    }
}

fn has_sequence(v: &Var, pieces: &[Piece]) -> bool
    ensures { result ≡ has_sequence v.now pieces.now }
{
    let mut rest = pieces;
    while let [piece, more @ ..] = rest {
        if let Piece::Sequence(x) = piece {
            if x.same(v) {
                return true;
            }
        }
        rest = more;
    }
    false
}

// The value of a sequence variable that is one side of an equation and not in the other.
fn seq_value(alloc: Global, v: &Var, ps: &[Piece], qs: &[Piece]) -> Result<Option<Arg>, AllocError>
    ensures { IfOk result (λ r. r ≡ seq_value v.now ps.now qs.now) }
{
    if is_just(v, ps) && !has_sequence(v, qs) {
        Ok(Some(Arg::Seq(0, pieces_seq(alloc, qs)?)))
    } else if is_just(v, qs) && !has_sequence(v, ps) {
        Ok(Some(Arg::Seq(0, pieces_seq(alloc, ps)?)))
    } else {
        Ok(None)
    }
}

fn of_words(alloc: Global, v: &Var, a: &Word, b: &Word) -> Result<Option<Arg>, AllocError>
    ensures { IfOk result (λ r. r ≡ solved_value v.now (Pure.Equal a.now b.now)) }
{
    let form = difference(alloc, a, b)?;
    word_value(alloc, v, &form)
}

fn of_sequences(alloc: Global, v: &Var, s: &Seq, t: &Seq) -> Result<Option<Arg>, AllocError>
    ensures { IfOk result (λ r. r ≡ solved_value v.now (Pure.Same s.now t.now)) }
{
    let ps = seq_form(alloc, s)?;
    let qs = seq_form(alloc, t)?;
    seq_value(alloc, v, ps.as_slice(), qs.as_slice())
}

/// The value of a variable by a fact: that which an equation of words gives where its coefficient is 1 or
/// 4294967295, or an equation of sequences where it is one side and not in the other; else None.
///
/// # Errors
/// `AllocError` for want of memory, and where a form has more than 8,192 parts or pieces.
pub(crate) fn solved_value(alloc: Global, v: &Var, p: &Pure) -> Result<Option<Arg>, AllocError>
    ensures { IfOk result (λ r. r ≡ solved_value v.now p.now) }
{
    match p {
        Pure::Equal(a, b) => of_words(alloc, v, a, b),
        Pure::Same(s, t) => of_sequences(alloc, v, s, t),
        _ => Ok(None),
    }
}

/// Whether a variable has a value by a fact.
///
/// # Errors
/// As of `solved_value`.
pub(crate) fn is_allowed(alloc: Global, v: &Var, p: &Pure) -> Result<bool, AllocError>
    ensures { IfOk result (λ r. r ≡ is_some (solved_value v.now p.now)) }
{
    match solved_value(alloc, v, p)? {
        Some(_) => Ok(true),
        None => Ok(false),
    }
}
