//! The greatest variable that an equation can be solved for.
ghost use Rattle.std.specs.Option.{option_copied};
ghost use Rattle.std.specs.Prelude.{◌≡◌, ◌∷◌, ◌++◌, [], IfOk, OnOk};
ghost use Rattle.bed_lang.specs.Forms.{seq_form};
ghost use Rattle.bed_lang.specs.Keys.{key_order};
ghost use Rattle.bed_plain.specs.Solving.{part_variables, piece_variables, variables_of, later, greatest_allowed};

use crate::values::is_allowed;
use bed_forms::{Key, Piece, difference, seq_form};
use bed_lang::{List, Pure, Seq, Var, Word};
use std::alloc::{AllocError, Global};
use std::cmp::Ordering;

fn push_copy(alloc: Global, out: &mut List<Var>, v: &Var) -> Result<(), AllocError>
    ensures { OnOk result (out.new ≡ out.old ++ v.now ∷ []) }
{
    let v = v.copy(alloc)?;
    out.push(v)
}

fn part_variables(alloc: Global, parts: &[(Key, u32)]) -> Result<List<Var>, AllocError>
    ensures { IfOk result (λ r. r ≡ part_variables parts.now) }
{
    let mut out = List::new(alloc);
    for part in parts {
        if let Key::Var(v) = &part.0 {
            push_copy(alloc, &mut out, v)?;
        }
    }
    Ok(out)
}

fn piece_variables(alloc: Global, pieces: &[Piece]) -> Result<List<Var>, AllocError>
    ensures { IfOk result (λ r. r ≡ piece_variables pieces.now) }
{
    let mut out = List::new(alloc);
    for piece in pieces {
        if let Piece::Sequence(v) = piece {
            push_copy(alloc, &mut out, v)?;
        }
    }
    Ok(out)
}

fn of_words(alloc: Global, a: &Word, b: &Word) -> Result<List<Var>, AllocError>
    ensures { IfOk result (λ r. r ≡ variables_of (Pure.Equal a.now b.now)) }
{
    let form = difference(alloc, a, b)?;
    part_variables(alloc, form.parts.as_slice())
}

fn of_sequence(alloc: Global, s: &Seq) -> Result<List<Var>, AllocError>
    ensures { IfOk result (λ r. r ≡ piece_variables (seq_form s.now)) }
{
    let pieces = seq_form(alloc, s)?;
    piece_variables(alloc, pieces.as_slice())
}

fn of_sequences(alloc: Global, s: &Seq, t: &Seq) -> Result<List<Var>, AllocError>
    ensures { IfOk result (λ r. r ≡ variables_of (Pure.Same s.now t.now)) }
{
    let mut out = of_sequence(alloc, s)?;
    let more = of_sequence(alloc, t)?;
    out.append(more)?;
    Ok(out)
}

/// The variables of an equation's difference, or of its sequences; none of any other fact.
///
/// # Errors
/// `AllocError` for want of memory.
pub(crate) fn variables_of(alloc: Global, p: &Pure) -> Result<List<Var>, AllocError>
    ensures { IfOk result (λ r. r ≡ variables_of p.now) }
{
    match p {
        Pure::Equal(a, b) => of_words(alloc, a, b),
        Pure::Same(s, t) => of_sequences(alloc, s, t),
        _ => Ok(List::new(alloc)),
    }
}

fn key_of(alloc: Global, v: &Var) -> Result<Key, AllocError>
    ensures { IfOk result (λ r. r ≡ Key.Var v.now) }
{
    Ok(Key::Var(v.copy(alloc)?))
}

fn order_of(alloc: Global, x: &Var, y: &Var) -> Result<Ordering, AllocError>
    ensures { IfOk result (λ r. r ≡ key_order (Key.Var x.now) (Key.Var y.now)) }
{
    let a = key_of(alloc, x)?;
    let b = key_of(alloc, y)?;
    Ok(a.order(&b))
}

// The later of two variables, in the order of keys.
fn later<'a>(alloc: Global, x: &'a Var, y: Option<&'a Var>) -> Result<&'a Var, AllocError>
    ensures { IfOk result (λ r. r.now ≡ later x.now (option_copied y.entry)) }
{
    match y {
        None => Ok(x),
        Some(y) => match order_of(alloc, x, y)? {
            Ordering::Less => Ok(y),
            _ => Ok(x),
        },
    }
}

/// The greatest of these variables for which the fact can be solved.
///
/// # Errors
/// As of `solved_value`.
pub(crate) fn greatest_allowed<'a>(
    alloc: Global,
    p: &Pure,
    vars: &'a [Var],
) -> Result<Option<&'a Var>, AllocError>
    ensures { IfOk result (λ r. option_copied r ≡ greatest_allowed p.now vars.now) }
{
    let mut found: Option<&Var> = None;
    let mut left = vars.len();
    while left > 0 {
        left -= 1;
        let v = &vars[left];
        if is_allowed(alloc, v, p)? {
            found = Some(later(alloc, v, found)?);
        }
    }
    Ok(found)
}
