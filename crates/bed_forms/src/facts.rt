//! When two facts are the same, and which facts hold by their normal forms.
ghost use Rattle.std.specs.Prelude.{◌≡◌, ◌&&◌, IfOk};
ghost use Rattle.std.specs.Cmp.Lexicographic.{pointwise};
ghost use Rattle.bed_lang.specs.Forms.{same_piece, seq_form};
ghost use Rattle.bed_lang.specs.Differences.{same_difference};
ghost use Rattle.bed_lang.specs.Same.{same_name};
ghost use Rattle.bed_lang.specs.SameFacts.{is_none, same_words, same_seqs, same_facts, is_number, less_by_norm, at_most_by_norm, by_norm};

use crate::normal::{difference, seq_form, word_form};
use bed_lang::{Form, Name, Piece, Pure, Seq, Word};
use std::alloc::{AllocError, Global};

fn same_words(alloc: Global, a: &Word, b: &Word) -> Result<bool, AllocError>
    ensures { IfOk result (λ r. r ≡ same_words a.now b.now) }
{
    let f = word_form(alloc, a)?;
    let g = word_form(alloc, b)?;
    Ok(f.same(&g))
}

fn same_pieces(mut a: &[Piece], mut b: &[Piece]) -> bool
    ensures { result ≡ pointwise same_piece a.entry.now b.entry.now }
{
    while let ([x, xs @ ..], [y, ys @ ..]) = (a, b) {
        if !x.same(y) {
            return false;
        }
        a = xs;
        b = ys;
    }
    a.is_empty() && b.is_empty()
}

fn same_seqs(alloc: Global, s: &Seq, t: &Seq) -> Result<bool, AllocError>
    ensures { IfOk result (λ r. r ≡ same_seqs s.now t.now) }
{
    let ps = seq_form(alloc, s)?;
    let qs = seq_form(alloc, t)?;
    Ok(same_pieces(ps.as_slice(), qs.as_slice()))
}

fn same_difference(
    alloc: Global,
    a: &Word,
    b: &Word,
    c: &Word,
    d: &Word,
) -> Result<bool, AllocError>
    ensures { IfOk result (λ r. r ≡ same_difference a.now b.now c.now d.now) }
{
    let f = difference(alloc, a, b)?;
    let g = difference(alloc, c, d)?;
    let h = difference(alloc, d, c)?;
    Ok(f.same(&g) || f.same(&h))
}

fn same_pairs(alloc: Global, a: &Word, b: &Word, c: &Word, d: &Word) -> Result<bool, AllocError>
    ensures { IfOk result (λ r. r ≡ (same_words a.now c.now && same_words b.now d.now)) }
{
    let first = same_words(alloc, a, c)?;
    let second = same_words(alloc, b, d)?;
    Ok(first && second)
}

fn same_memberships(alloc: Global, a: &Word, s: &Seq, b: &Word, t: &Seq) -> Result<bool, AllocError>
    ensures { IfOk result (λ r. r ≡ (same_words a.now b.now && same_seqs s.now t.now)) }
{
    let first = same_words(alloc, a, b)?;
    let second = same_seqs(alloc, s, t)?;
    Ok(first && second)
}

fn same_sequences(alloc: Global, s: &Seq, t: &Seq, u: &Seq, v: &Seq) -> Result<bool, AllocError>
    ensures { IfOk result (λ r. r ≡ (same_seqs s.now u.now && same_seqs t.now v.now)) }
{
    let first = same_seqs(alloc, s, u)?;
    let second = same_seqs(alloc, t, v)?;
    Ok(first && second)
}

fn same_code(alloc: Global, a: &Word, x: &Name, b: &Word, y: &Name) -> Result<bool, AllocError>
    ensures { IfOk result (λ r. r ≡ (same_words a.now b.now && same_name x.now y.now)) }
{
    let words = same_words(alloc, a, b)?;
    Ok(words && x.same(y))
}

/// Whether the two facts have one kind and the same normal forms; `=` and `!=` compare the difference of
/// their sides up to sign.
///
/// # Errors
/// `AllocError` for want of memory.
pub fn same_facts(alloc: Global, p: &Pure, q: &Pure) -> Result<bool, AllocError>
    ensures { IfOk result (λ r. r ≡ same_facts p.now q.now) }
{
    match (p, q) {
        (Pure::Equal(a, b), Pure::Equal(c, d)) => same_difference(alloc, a, b, c, d),
        (Pure::Unequal(a, b), Pure::Unequal(c, d)) => same_difference(alloc, a, b, c, d),
        (Pure::Less(a, b), Pure::Less(c, d)) => same_pairs(alloc, a, b, c, d),
        (Pure::AtMost(a, b), Pure::AtMost(c, d)) => same_pairs(alloc, a, b, c, d),
        (Pure::Same(s, t), Pure::Same(u, v)) => same_sequences(alloc, s, t, u, v),
        (Pure::Member(a, s), Pure::Member(b, t)) => same_memberships(alloc, a, s, b, t),
        (Pure::NonMember(a, s), Pure::NonMember(b, t)) => same_memberships(alloc, a, s, b, t),
        (Pure::Code(a, x), Pure::Code(b, y)) => same_code(alloc, a, x, b, y),
        _ => Ok(false),
    }
}

fn is_number(n: u32, f: &Form) -> bool
    ensures { result ≡ is_number n f.now }
{
    f.parts.is_empty() && f.constant == n
}

fn less_by_norm(f: &Form, g: &Form) -> bool
    ensures { result ≡ less_by_norm f.now g.now }
{
    f.parts.is_empty() && g.parts.is_empty() && f.constant < g.constant
}

fn at_most_by_norm(f: &Form, g: &Form) -> bool
    ensures { result ≡ at_most_by_norm f.now g.now }
{
    f.same(g)
        || is_number(0, f)
        || is_number(4_294_967_295, g)
        || (f.parts.is_empty() && g.parts.is_empty() && f.constant <= g.constant)
}

fn unequal_words(alloc: Global, a: &Word, b: &Word) -> Result<bool, AllocError>
    ensures { IfOk result (λ r. r ≡ by_norm (Pure.Unequal a.now b.now)) }
{
    let f = difference(alloc, a, b)?;
    Ok(f.parts.is_empty() && f.constant != 0)
}

fn less_words(alloc: Global, a: &Word, b: &Word) -> Result<bool, AllocError>
    ensures { IfOk result (λ r. r ≡ by_norm (Pure.Less a.now b.now)) }
{
    let f = word_form(alloc, a)?;
    let g = word_form(alloc, b)?;
    Ok(less_by_norm(&f, &g))
}

fn at_most_words(alloc: Global, a: &Word, b: &Word) -> Result<bool, AllocError>
    ensures { IfOk result (λ r. r ≡ by_norm (Pure.AtMost a.now b.now)) }
{
    let f = word_form(alloc, a)?;
    let g = word_form(alloc, b)?;
    Ok(at_most_by_norm(&f, &g))
}

fn has_no_pieces(alloc: Global, s: &Seq) -> Result<bool, AllocError>
    ensures { IfOk result (λ r. r ≡ is_none (seq_form s.now)) }
{
    let pieces = seq_form(alloc, s)?;
    Ok(pieces.is_empty())
}

/// Whether the fact holds by its normal form.
///
/// # Errors
/// `AllocError` for want of memory.
pub fn by_norm(alloc: Global, p: &Pure) -> Result<bool, AllocError>
    ensures { IfOk result (λ r. r ≡ by_norm p.now) }
{
    match p {
        Pure::Equal(a, b) => same_words(alloc, a, b),
        Pure::Unequal(a, b) => unequal_words(alloc, a, b),
        Pure::Less(a, b) => less_words(alloc, a, b),
        Pure::AtMost(a, b) => at_most_words(alloc, a, b),
        Pure::Same(s, t) => same_seqs(alloc, s, t),
        Pure::Member(_, _) => Ok(false),
        Pure::NonMember(_, s) => has_no_pieces(alloc, s),
        Pure::Code(_, _) => Ok(false),
    }
}
