//! The normal form of a word and of a sequence.
ghost use Rattle.std.specs.Prelude.{◌≡◌, ◌++◌, ◌∷◌, [], ◌≤◌, IfOk, OnOk, length};
ghost use Rattle.bed_lang.specs.Keys.{bare_name, bare_var};
ghost use Rattle.bed_lang.specs.Forms.{only, word_form, seq_form};
ghost use Rattle.bed_lang.specs.Coefficients.{IsFormOf};
ghost use Rattle.bed_lang.specs.Differences.{difference};
ghost use Rattle.bed_forms.specs.Laws.{HasValueOf, HasDifferenceOf, HasValuesOf};

use crate::sum::{add_forms, minus_form, times_form};
use bed_lang::{Form, Key, List, Name, Piece, Seq, Var, Word};
use std::alloc::{AllocError, Global};

const MAX_PIECES: usize = 1_000_000;

fn bare_name(alloc: Global, name: &Name) -> Result<Name, AllocError>
    ensures { IfOk result (λ r. r ≡ bare_name name.now) }
{
    Ok(Name {
        bytes: List::from_slice(alloc, name.bytes.as_slice())?,
        at: 0,
    })
}

fn bare_var(alloc: Global, v: &Var) -> Result<Var, AllocError>
    ensures { IfOk result (λ r. r ≡ bare_var v.now) }
{
    match v {
        Var::Named(name) => Ok(Var::Named(bare_name(alloc, name)?)),
        Var::Old(name) => Ok(Var::Old(bare_name(alloc, name)?)),
        Var::Answer(_) => Ok(Var::Answer(0)),
        Var::Fresh(number) => Ok(Var::Fresh(*number)),
        Var::Hole => Ok(Var::Hole),
    }
}

fn only(alloc: Global, key: Key) -> Result<Form, AllocError>
    ensures { IfOk result (λ r. r ≡ only key) }
{
    let mut parts = List::new(alloc);
    parts.push((key, 1))?;
    Ok(Form { constant: 0, parts })
}

/// The normal form of a word: its constant, and its coefficient of each variable and label, modulo 2^32.
///
/// # Errors
/// `AllocError` for want of memory.
pub fn word_form(alloc: Global, w: &Word) -> Result<Form, AllocError>
    ensures exact { IfOk result (λ f. f ≡ word_form w.now) }
    ensures form { IfOk result (λ f. IsFormOf w.now f) }
    ensures value { IfOk result (λ f. HasValueOf w.now f) }
{
    form_of(alloc, w)
}

fn form_of(alloc: Global, w: &Word) -> Result<Form, AllocError>
    ensures { IfOk result (λ f. f ≡ word_form w.now) }
{
    match w {
        Word::Number(n) => Ok(Form {
            constant: *n,
            parts: List::new(alloc),
        }),
        Word::Var(v) => only(alloc, Key::Var(bare_var(alloc, v)?)),
        Word::Label(name) => only(alloc, Key::Label(bare_name(alloc, name)?)),
        Word::Add(a, b) => {
            let f = form_of(alloc, a.get())?;
            let g = form_of(alloc, b.get())?;
            add_forms(alloc, &f, &g)
        }
        Word::Sub(a, b) => {
            let f = form_of(alloc, a.get())?;
            let g = form_of(alloc, b.get())?;
            minus_form(alloc, &f, &g)
        }
        Word::Times(n, a) => {
            let f = form_of(alloc, a.get())?;
            times_form(alloc, *n, &f)
        }
    }
}

/// The normal form of the difference `a - b`.
///
/// # Errors
/// `AllocError` for want of memory.
pub fn difference(alloc: Global, a: &Word, b: &Word) -> Result<Form, AllocError>
    ensures exact { IfOk result (λ f. f ≡ difference a.now b.now) }
    ensures value { IfOk result (λ f. HasDifferenceOf a.now b.now f) }
{
    difference_of(alloc, a, b)
}

fn difference_of(alloc: Global, a: &Word, b: &Word) -> Result<Form, AllocError>
    ensures { IfOk result (λ f. f ≡ difference a.now b.now) }
{
    let f = form_of(alloc, a)?;
    let g = form_of(alloc, b)?;
    minus_form(alloc, &f, &g)
}

/// The normal form of a sequence: its elements and variables in order, `nil` gone, `cons` and `app`
/// laid flat.
///
/// # Errors
/// `AllocError` for want of memory, and where there are more than 1,000,000 pieces.
pub fn seq_form(alloc: Global, s: &Seq) -> Result<List<Piece>, AllocError>
    ensures exact { IfOk result (λ ps. ps ≡ seq_form s.now) }
    ensures value { IfOk result (λ ps. HasValuesOf s.now ps) }
    ensures limit { IfOk result (λ ps. length ps ≤ 1000000) }
{
    pieces_of(alloc, s)
}

fn pieces_of(alloc: Global, s: &Seq) -> Result<List<Piece>, AllocError>
    ensures exact { IfOk result (λ ps. ps ≡ seq_form s.now) }
    ensures limit { IfOk result (λ ps. length ps ≤ 1000000) }
{
    let mut out = List::new(alloc);
    push_pieces(alloc, &mut out, s)?;
    Ok(out)
}

fn push_pieces(alloc: Global, out: &mut List<Piece>, s: &Seq) -> Result<(), AllocError>
    requires { length out.old ≤ 1000000 }
    ensures pieces { OnOk result (out.new ≡ out.old ++ seq_form s.now) }
    ensures limit { length out.new ≤ 1000000 }
{
    match s {
        Seq::Var(v) => push_piece(out, Piece::Sequence(bare_var(alloc, v)?)),
        Seq::Nil => Ok(()),
        Seq::Cons(a, s) => {
            push_piece(out, Piece::Element(form_of(alloc, a.get())?))?;
            push_pieces(alloc, out, s.get())
        }
        Seq::App(s, t) => {
            push_pieces(alloc, out, s.get())?;
            push_pieces(alloc, out, t.get())
        }
    }
}

fn push_piece(out: &mut List<Piece>, piece: Piece) -> Result<(), AllocError>
    requires { length out.old ≤ 1000000 }
    ensures piece { OnOk result (out.new ≡ out.old ++ piece ∷ []) }
    ensures limit { length out.new ≤ 1000000 }
{
    if out.len() >= MAX_PIECES {
        return Err(AllocError);
    }
    out.push(piece)
}
