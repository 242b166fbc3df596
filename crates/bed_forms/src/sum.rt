//! Sums and products of forms.
ghost use Rattle.std.specs.Prelude.{◌≡◌, ◌++◌, [], IfOk, OnOk};
ghost use Rattle.bed_lang.specs.Forms.{part_before, add_parts, times_parts, add_forms, times_form};
ghost use Rattle.bed_lang.specs.Differences.{minus_form};

use bed_lang::{Form, Key, List};
use std::alloc::{AllocError, Global};
use std::cmp::Ordering;

// The part at the end of a list, left out where its coefficient is 0.
fn push_part(
    alloc: Global,
    out: &mut List<(Key, u32)>,
    key: &Key,
    times: u32,
) -> Result<(), AllocError>
    ensures { OnOk result (out.new ≡ out.old ++ part_before key.now times []) }
{
    if times != 0 {
        let key = key.copy(alloc)?;
        out.push((key, times))?;
    }
    Ok(())
}

fn copy_part(alloc: Global, part: &(Key, u32)) -> Result<(Key, u32), AllocError>
    ensures { IfOk result (λ r. r ≡ part.now) }
{
    let key = part.0.copy(alloc)?;
    Ok((key, part.1))
}

fn push_all(
    alloc: Global,
    out: &mut List<(Key, u32)>,
    parts: &[(Key, u32)],
) -> Result<(), AllocError>
    ensures { OnOk result (out.new ≡ out.old ++ parts.now) }
{
    for part in parts {
        out.push(copy_part(alloc, part)?)?;
    }
    Ok(())
}

fn add_parts(
    alloc: Global,
    mut xs: &[(Key, u32)],
    mut ys: &[(Key, u32)],
) -> Result<List<(Key, u32)>, AllocError>
    ensures { IfOk result (λ r. r ≡ add_parts xs.entry.now ys.entry.now) }
{
    let mut out = List::new(alloc);
    'merge: loop {
        match (xs, ys) {
            ([], _) => {
                push_all(alloc, &mut out, ys)?;
                return Ok(out);
            }
            (_, []) => {
                push_all(alloc, &mut out, xs)?;
                return Ok(out);
            }
            ([x, more @ ..], [y, rest @ ..]) => match x.0.order(&y.0) {
                Ordering::Less => {
                    out.push(copy_part(alloc, x)?)?;
                    xs = more;
                }
                Ordering::Equal => {
                    push_part(alloc, &mut out, &x.0, x.1.wrapping_add(y.1))?;
                    xs = more;
                    ys = rest;
                }
                Ordering::Greater => {
                    out.push(copy_part(alloc, y)?)?;
                    ys = rest;
                }
            },
        }
    }
}

fn times_parts(alloc: Global, n: u32, parts: &[(Key, u32)]) -> Result<List<(Key, u32)>, AllocError>
    ensures { IfOk result (λ r. r ≡ times_parts n parts.now) }
{
    let mut out = List::new(alloc);
    for part in parts {
        push_part(alloc, &mut out, &part.0, n.wrapping_mul(part.1))?;
    }
    Ok(out)
}

/// The sum of two forms: the constants and the coefficients on each key added, modulo 2^32.
///
/// # Errors
/// `AllocError` for want of memory.
pub fn add_forms(alloc: Global, f: &Form, g: &Form) -> Result<Form, AllocError>
    ensures { IfOk result (λ r. r ≡ add_forms f.now g.now) }
{
    let parts = add_parts(alloc, f.parts.as_slice(), g.parts.as_slice())?;
    Ok(Form {
        constant: f.constant.wrapping_add(g.constant),
        parts,
    })
}

/// A number times a form, modulo 2^32.
///
/// # Errors
/// `AllocError` for want of memory.
pub fn times_form(alloc: Global, n: u32, f: &Form) -> Result<Form, AllocError>
    ensures { IfOk result (λ r. r ≡ times_form n f.now) }
{
    let parts = times_parts(alloc, n, f.parts.as_slice())?;
    Ok(Form {
        constant: n.wrapping_mul(f.constant),
        parts,
    })
}

pub(crate) fn minus_form(alloc: Global, f: &Form, g: &Form) -> Result<Form, AllocError>
    ensures { IfOk result (λ r. r ≡ minus_form f.now g.now) }
{
    let opposite = times_form(alloc, u32::MAX, g)?;
    add_forms(alloc, f, &opposite)
}
