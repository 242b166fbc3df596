//! The edges of a chain, each by its fact or at its node.
ghost use Rattle.std.specs.Option.{option_map};
ghost use Rattle.std.specs.Prelude.{◌≡◌, IfOk, Ok};
ghost use Rattle.bed_lang.specs.Forms.{word_form};
ghost use Rattle.bed_lang.specs.Differences.{difference};
ghost use Rattle.bed_deriv.specs.Chains.{leg, one_more, one_less, forth, back, constant_above_0, up_by, down_by, exact_forth, exact_back, from_one_more, to_one_more, to_one_less, from_one_less};
ghost use Rattle.bed_check_pure.specs.Faults.{AnswersRule};
ghost use Rattle.bed_check_pure.specs.Legs.{as_ends, of_kind, fact_ends, constant_ends, edge_ends, from_of};

use crate::fault::Fault;
use bed_deriv::arguments::numbered;
use bed_deriv::{Edge, SymState};
use bed_forms::{difference, word_form};
use bed_lang::{Box, Form, Pure, Word};
use std::alloc::{AllocError, Global};

/// An edge of a chain: the value of its first node and `down` are at most that of its second and `up`.
#[derive(Drop)]
pub(crate) struct Ends {
    pub from: Form,
    pub to: Form,
    pub up: u32,
    pub down: u32,
}

/// A node that a chain reaches, with both sums.
#[derive(Drop)]
pub(crate) struct Reached {
    pub node: Form,
    pub up: u64,
    pub down: u64,
}

fn between(alloc: Global, a: &Word, b: &Word, up: u32, down: u32) -> Result<Ends, AllocError>
    ensures { IfOk result (λ r. r ≡ as_ends (leg a.now b.now up down)) }
{
    let from = word_form(alloc, a)?;
    let to = word_form(alloc, b)?;
    Ok(Ends { from, to, up, down })
}

fn forth(alloc: Global, p: &Pure) -> Result<Option<Ends>, AllocError>
    ensures { IfOk result (λ r. r ≡ option_map as_ends (forth p.now)) }
{
    match p {
        Pure::Less(a, b) => Ok(Some(between(alloc, a, b, 0, 1)?)),
        Pure::AtMost(a, b) => Ok(Some(between(alloc, a, b, 0, 0)?)),
        Pure::Equal(a, b) => Ok(Some(between(alloc, a, b, 0, 0)?)),
        _ => Ok(None),
    }
}

fn back(alloc: Global, p: &Pure) -> Result<Option<Ends>, AllocError>
    ensures { IfOk result (λ r. r ≡ option_map as_ends (back p.now)) }
{
    match p {
        Pure::Equal(a, b) => Ok(Some(between(alloc, b, a, 0, 0)?)),
        _ => Ok(None),
    }
}

// How far one word is above another, where that is a constant.
fn constant_above(alloc: Global, a: &Word, b: &Word) -> Result<Option<u32>, AllocError>
    ensures { IfOk result (λ r. r ≡ constant_above_0 (difference b.now a.now)) }
{
    let form = difference(alloc, b, a)?;
    if form.parts.is_empty() && form.constant != 0 {
        Ok(Some(form.constant))
    } else {
        Ok(None)
    }
}

fn up_by(alloc: Global, a: &Word, b: &Word) -> Result<Option<Ends>, AllocError>
    ensures { IfOk result (λ r. r ≡ option_map as_ends (up_by a.now b.now (constant_above_0 (difference b.now a.now)))) }
{
    match constant_above(alloc, a, b)? {
        None => Ok(None),
        Some(c) => Ok(Some(between(alloc, a, b, 0, c)?)),
    }
}

fn down_by(alloc: Global, a: &Word, b: &Word) -> Result<Option<Ends>, AllocError>
    ensures { IfOk result (λ r. r ≡ option_map as_ends (down_by a.now b.now (constant_above_0 (difference b.now a.now)))) }
{
    match constant_above(alloc, a, b)? {
        None => Ok(None),
        Some(c) => Ok(Some(between(alloc, b, a, c, 0)?)),
    }
}

fn exact_forth(alloc: Global, p: &Pure) -> Result<Option<Ends>, AllocError>
    ensures { IfOk result (λ r. r ≡ option_map as_ends (exact_forth p.now)) }
{
    match p {
        Pure::Less(a, b) => up_by(alloc, a, b),
        Pure::AtMost(a, b) => up_by(alloc, a, b),
        _ => Ok(None),
    }
}

fn exact_back(alloc: Global, p: &Pure) -> Result<Option<Ends>, AllocError>
    ensures { IfOk result (λ r. r ≡ option_map as_ends (exact_back p.now)) }
{
    match p {
        Pure::Less(a, b) => down_by(alloc, a, b),
        Pure::AtMost(a, b) => down_by(alloc, a, b),
        _ => Ok(None),
    }
}

fn boxed(alloc: Global, a: &Word) -> Result<Box<Word>, AllocError>
    ensures { IfOk result (λ r. r ≡ a.now) }
{
    Box::new(alloc, a.copy(alloc)?)
}

fn one_more(alloc: Global, a: &Word) -> Result<Word, AllocError>
    ensures { IfOk result (λ r. r ≡ one_more a.now) }
{
    let a = boxed(alloc, a)?;
    let one = Box::new(alloc, Word::Number(1))?;
    Ok(Word::Add(a, one))
}

fn one_less(alloc: Global, b: &Word) -> Result<Word, AllocError>
    ensures { IfOk result (λ r. r ≡ one_less b.now) }
{
    let b = boxed(alloc, b)?;
    let one = Box::new(alloc, Word::Number(1))?;
    Ok(Word::Sub(b, one))
}

fn more_ends(alloc: Global, a: &Word) -> Result<Ends, AllocError>
    ensures { IfOk result (λ r. r ≡ as_ends (leg (one_more a.now) a.now 1 0)) }
{
    let more = one_more(alloc, a)?;
    between(alloc, &more, a, 1, 0)
}

fn to_more_ends(alloc: Global, a: &Word) -> Result<Ends, AllocError>
    ensures { IfOk result (λ r. r ≡ as_ends (leg a.now (one_more a.now) 0 1)) }
{
    let more = one_more(alloc, a)?;
    between(alloc, a, &more, 0, 1)
}

fn to_less_ends(alloc: Global, b: &Word) -> Result<Ends, AllocError>
    ensures { IfOk result (λ r. r ≡ as_ends (leg b.now (one_less b.now) 1 0)) }
{
    let less = one_less(alloc, b)?;
    between(alloc, b, &less, 1, 0)
}

fn less_ends(alloc: Global, b: &Word) -> Result<Ends, AllocError>
    ensures { IfOk result (λ r. r ≡ as_ends (leg (one_less b.now) b.now 0 1)) }
{
    let less = one_less(alloc, b)?;
    between(alloc, &less, b, 0, 1)
}

fn from_one_more(alloc: Global, p: &Pure) -> Result<Option<Ends>, AllocError>
    ensures { IfOk result (λ r. r ≡ option_map as_ends (from_one_more p.now)) }
{
    match p {
        Pure::Less(a, _) => Ok(Some(more_ends(alloc, a)?)),
        _ => Ok(None),
    }
}

fn to_one_more(alloc: Global, p: &Pure) -> Result<Option<Ends>, AllocError>
    ensures { IfOk result (λ r. r ≡ option_map as_ends (to_one_more p.now)) }
{
    match p {
        Pure::Less(a, _) => Ok(Some(to_more_ends(alloc, a)?)),
        _ => Ok(None),
    }
}

fn to_one_less(alloc: Global, p: &Pure) -> Result<Option<Ends>, AllocError>
    ensures { IfOk result (λ r. r ≡ option_map as_ends (to_one_less p.now)) }
{
    match p {
        Pure::Less(_, b) => Ok(Some(to_less_ends(alloc, b)?)),
        _ => Ok(None),
    }
}

fn from_one_less(alloc: Global, p: &Pure) -> Result<Option<Ends>, AllocError>
    ensures { IfOk result (λ r. r ≡ option_map as_ends (from_one_less p.now)) }
{
    match p {
        Pure::Less(_, b) => Ok(Some(less_ends(alloc, b)?)),
        _ => Ok(None),
    }
}

// What a fact gives an edge of this kind.
fn of_kind(alloc: Global, e: &Edge, p: &Pure) -> Result<Option<Ends>, AllocError>
    ensures { IfOk result (λ r. r ≡ option_map as_ends (of_kind e.now p.now)) }
{
    match e {
        Edge::F(_) => forth(alloc, p),
        Edge::G(_) => back(alloc, p),
        Edge::X(_) => exact_forth(alloc, p),
        Edge::Y(_) => exact_back(alloc, p),
        Edge::P(_) => from_one_more(alloc, p),
        Edge::Q(_) => to_one_more(alloc, p),
        Edge::R(_) => to_one_less(alloc, p),
        Edge::S(_) => from_one_less(alloc, p),
        _ => Ok(None),
    }
}

// The edge that fact i gives.
fn fact_ends(alloc: Global, s: &SymState, i: u32, e: &Edge) -> Result<Ends, Fault>
    ensures { AnswersRule result (fact_ends s.now i (of_kind e.now)) }
{
    match numbered(s.facts.as_slice(), i) {
        None => Err(Fault::Argument),
        Some(p) => match of_kind(alloc, e, p) {
            Err(_) => Err(Fault::Memory),
            Ok(None) => Err(Fault::Condition),
            Ok(Some(ends)) => Ok(ends),
        },
    }
}

fn to_number(alloc: Global, node: &Form, n: u32, up: u32, down: u32) -> Result<Ends, AllocError>
    ensures { IfOk result (λ r. r ≡ record { from = node.now; to = word_form (Word.Number n); up = up; down = down }) }
{
    let to = word_form(alloc, &Word::Number(n))?;
    let from = node.copy(alloc)?;
    Ok(Ends { from, to, up, down })
}

// The edge from a constant to a number.
fn constant_ends(alloc: Global, node: &Form, n: u32) -> Result<Ends, Fault>
    ensures { AnswersRule result (constant_ends node.now n) }
{
    if !node.parts.is_empty() {
        return Err(Fault::Condition);
    }
    let up = node.constant.saturating_sub(n);
    let down = n.saturating_sub(node.constant);
    match to_number(alloc, node, n, up, down) {
        Ok(ends) => Ok(ends),
        Err(_) => Err(Fault::Memory),
    }
}

fn from_zero(alloc: Global, e: &Word) -> Result<Ends, Fault>
    ensures { AnswersRule result (Ok (as_ends (leg (Word.Number 0) e.now 0 0))) }
{
    match between(alloc, &Word::Number(0), e, 0, 0) {
        Ok(ends) => Ok(ends),
        Err(_) => Err(Fault::Memory),
    }
}

fn to_greatest(alloc: Global, node: &Form) -> Result<Ends, Fault>
    ensures { AnswersRule result (Ok (record { from = node.now; to = word_form (Word.Number 4294967295); up = 0; down = 0 })) }
{
    match to_number(alloc, node, 4_294_967_295, 0, 0) {
        Ok(ends) => Ok(ends),
        Err(_) => Err(Fault::Memory),
    }
}

/// An edge at a node of the chain.
pub(crate) fn edge_ends(alloc: Global, s: &SymState, node: &Form, e: &Edge) -> Result<Ends, Fault>
    ensures { AnswersRule result (edge_ends s.now node.now e.now) }
{
    match e {
        Edge::F(i) => fact_ends(alloc, s, *i, e),
        Edge::G(i) => fact_ends(alloc, s, *i, e),
        Edge::X(i) => fact_ends(alloc, s, *i, e),
        Edge::Y(i) => fact_ends(alloc, s, *i, e),
        Edge::P(i) => fact_ends(alloc, s, *i, e),
        Edge::Q(i) => fact_ends(alloc, s, *i, e),
        Edge::R(i) => fact_ends(alloc, s, *i, e),
        Edge::S(i) => fact_ends(alloc, s, *i, e),
        Edge::K(n) => constant_ends(alloc, node, *n),
        Edge::Z(w) => from_zero(alloc, w),
        Edge::H => to_greatest(alloc, node),
    }
}

/// The first node of the edge that fact i gives.
pub(crate) fn fact_start(alloc: Global, s: &SymState, i: u32, e: &Edge) -> Result<Form, Fault>
    ensures { AnswersRule result (from_of (fact_ends s.now i (of_kind e.now))) }
{
    match fact_ends(alloc, s, i, e) {
        Err(fault) => Err(fault),
        Ok(ends) => Ok(ends.from),
    }
}
