//! The edges of a graph, each with its edge of a chain.
ghost use Rattle.std.specs.Prelude.{◌≡◌, ◌∷◌, ◌++◌, ◌≤◌, [], length, neg_ℤ, pos, true, if◌then◌else◌, IfOk, OnOk};
ghost use Rattle.bed_forms.specs.Rebuilt.{rebuilt_word};
ghost use Rattle.bed_deriv.specs.Fresh.{known_word};
ghost use Rattle.bed_lang.specs.Forms.{word_form};
ghost use Rattle.bed_lang.specs.Differences.{difference};
ghost use Rattle.bed_deriv.specs.Chains.{leg, one_more, one_less, up_by, down_by, constant_above_0};
ghost use Rattle.bed_chain.specs.Graph.{place_of, link, link_if, edge_between, edges_of, labels_of, fact_links, facts_links, least_links, constant_links, node_links, nodes_links, all_links};
ghost use Rattle.bed_chain.specs.Tables.{Added, AreNodes, IsTable};

use crate::table::{Table, one_less, one_more, place_of};
use bed_deriv::known::known_word;
use bed_deriv::{Edge, SymState};
use bed_diff::Edge3;
use bed_forms::{difference, rebuilt_word, word_form};
use bed_lang::{Form, List, Pure, Word};
use std::alloc::{AllocError, Global};

/// Edges between the places of nodes, and beside each the edge of a chain that it stands for.
#[derive(Drop)]
pub(crate) struct Links {
    pub edges: List<Edge3>,
    pub labels: List<Edge>,
}

fn place_of_word(alloc: Global, w: &Word, forms: &[Form]) -> Result<u32, AllocError>
    requires { length forms.now ≤ 65536 }
    ensures { IfOk result (λ r. r ≡ place_of (word_form w.now) forms.now) }
{
    let form = word_form(alloc, w)?;
    Ok(place_of(&form, forms) as u32)
}

// Puts an edge behind the others.
fn push(links: &mut Links, label: Edge, edge: Edge3) -> Result<(), AllocError>
    ensures edges { OnOk result (links.new.edges ≡ links.old.edges ++ edge ∷ []) }
    ensures labels { OnOk result (links.new.labels ≡ links.old.labels ++ label ∷ []) }
{
    links.edges.push(edge)?;
    links.labels.push(label)
}

// The edge between two words.
fn between(
    alloc: Global,
    forms: &[Form],
    a: &Word,
    b: &Word,
    up: u32,
    down: u32,
) -> Result<Edge3, AllocError>
    requires few { length forms.now ≤ 65536 }
    ensures { IfOk result (λ e. e ≡ edge_between forms.now (leg a.now b.now up down)) }
{
    let from = place_of_word(alloc, a, forms)?;
    let to = place_of_word(alloc, b, forms)?;
    Ok(Edge3 {
        from,
        to,
        weight: i64::from(up) - i64::from(down),
    })
}

// How far one word is above another, where that is a constant.
fn constant_above(alloc: Global, a: &Word, b: &Word) -> Result<Option<u32>, AllocError>
    ensures { IfOk result (λ r. r ≡ constant_above_0 (difference b.now a.now)) }
{
    let form = difference(alloc, b, a)?;
    if form.parts.is_empty() && form.constant != 0 {
        Ok(Some(form.constant))
    } else {
        Ok(None)
    }
}

fn push_distance(
    alloc: Global,
    links: &mut Links,
    forms: &[Form],
    i: u32,
    a: &Word,
    b: &Word,
    c: u32,
) -> Result<(), AllocError>
    requires few { length forms.now ≤ 65536 }
    ensures { OnOk result (Added forms.now (link (Edge.X i) (leg a.now b.now 0 c) ∷ link (Edge.Y i) (leg b.now a.now c 0) ∷ []) links.old links.new) }
{
    let up = between(alloc, forms, a, b, 0, c)?;
    let down = between(alloc, forms, b, a, c, 0)?;
    push(links, Edge::X(i), up)?;
    push(links, Edge::Y(i), down)
}

// The edges of a constant distance.
fn push_exact(
    alloc: Global,
    links: &mut Links,
    forms: &[Form],
    i: u32,
    a: &Word,
    b: &Word,
) -> Result<(), AllocError>
    requires few { length forms.now ≤ 65536 }
    ensures { OnOk result (Added forms.now (link_if (Edge.X i) (up_by a.now b.now (constant_above_0 (difference b.now a.now))) ++ link_if (Edge.Y i) (down_by a.now b.now (constant_above_0 (difference b.now a.now)))) links.old links.new) }
{
    match constant_above(alloc, a, b)? {
        None => Ok(()),
        Some(c) => push_distance(alloc, links, forms, i, a, b, c),
    }
}

// The edge from the word after another to it, and that from a word to the one before it.
fn from_more(alloc: Global, forms: &[Form], a: &Word) -> Result<Edge3, AllocError>
    requires few { length forms.now ≤ 65536 }
    ensures { IfOk result (λ e. e ≡ edge_between forms.now (leg (one_more a.now) a.now 1 0)) }
{
    let more = one_more(alloc, a)?;
    between(alloc, forms, &more, a, 1, 0)
}

fn to_less(alloc: Global, forms: &[Form], b: &Word) -> Result<Edge3, AllocError>
    requires few { length forms.now ≤ 65536 }
    ensures { IfOk result (λ e. e ≡ edge_between forms.now (leg b.now (one_less b.now) 1 0)) }
{
    let less = one_less(alloc, b)?;
    between(alloc, forms, b, &less, 1, 0)
}

// The way back along an edge of weight 1.
fn back_by_one(edge: Edge3) -> Edge3
    ensures from { result.from ≡ edge.to }
    ensures to { result.to ≡ edge.from }
    ensures weight { result.weight ≡ neg_ℤ (pos 1) }
{
    Edge3 {
        from: edge.to,
        to: edge.from,
        weight: -1,
    }
}

// The edges to the words beside those of `a < b`.
fn push_beside(
    alloc: Global,
    links: &mut Links,
    forms: &[Form],
    i: u32,
    a: &Word,
    b: &Word,
) -> Result<(), AllocError>
    requires few { length forms.now ≤ 65536 }
    ensures { OnOk result (Added forms.now (link (Edge.P i) (leg (one_more a.now) a.now 1 0) ∷ link (Edge.Q i) (leg a.now (one_more a.now) 0 1) ∷ link (Edge.R i) (leg b.now (one_less b.now) 1 0) ∷ link (Edge.S i) (leg (one_less b.now) b.now 0 1) ∷ []) links.old links.new) }
{
    let more = from_more(alloc, forms, a)?;
    let less = to_less(alloc, forms, b)?;
    push(links, Edge::P(i), more)?;
    push(links, Edge::Q(i), back_by_one(more))?;
    push(links, Edge::R(i), less)?;
    push(links, Edge::S(i), back_by_one(less))
}

// The edge of `a < b`, `a <= b` or `a = b` from a to b.
fn push_forth(
    alloc: Global,
    links: &mut Links,
    forms: &[Form],
    i: u32,
    a: &Word,
    b: &Word,
    down: u32,
) -> Result<(), AllocError>
    requires few { length forms.now ≤ 65536 }
    ensures { OnOk result (Added forms.now (link (Edge.F i) (leg a.now b.now 0 down) ∷ []) links.old links.new) }
{
    let edge = between(alloc, forms, a, b, 0, down)?;
    push(links, Edge::F(i), edge)
}

fn push_less(
    alloc: Global,
    links: &mut Links,
    forms: &[Form],
    i: u32,
    a: &Word,
    b: &Word,
) -> Result<(), AllocError>
    requires few { length forms.now ≤ 65536 }
    ensures { OnOk result (Added forms.now (fact_links i (Pure.Less a.now b.now)) links.old links.new) }
{
    push_forth(alloc, links, forms, i, a, b, 1)?;
    push_exact(alloc, links, forms, i, a, b)?;
    push_beside(alloc, links, forms, i, a, b)
}

fn push_at_most(
    alloc: Global,
    links: &mut Links,
    forms: &[Form],
    i: u32,
    a: &Word,
    b: &Word,
) -> Result<(), AllocError>
    requires few { length forms.now ≤ 65536 }
    ensures { OnOk result (Added forms.now (fact_links i (Pure.AtMost a.now b.now)) links.old links.new) }
{
    push_forth(alloc, links, forms, i, a, b, 0)?;
    push_exact(alloc, links, forms, i, a, b)
}

fn push_equal(
    alloc: Global,
    links: &mut Links,
    forms: &[Form],
    i: u32,
    a: &Word,
    b: &Word,
) -> Result<(), AllocError>
    requires few { length forms.now ≤ 65536 }
    ensures { OnOk result (Added forms.now (fact_links i (Pure.Equal a.now b.now)) links.old links.new) }
{
    push_forth(alloc, links, forms, i, a, b, 0)?;
    let back = between(alloc, forms, b, a, 0, 0)?;
    push(links, Edge::G(i), back)
}

// The edges of a fact.
fn push_fact(
    alloc: Global,
    links: &mut Links,
    forms: &[Form],
    i: u32,
    p: &Pure,
) -> Result<(), AllocError>
    requires few { length forms.now ≤ 65536 }
    ensures { OnOk result (Added forms.now (fact_links i p.now) links.old links.new) }
{
    match p {
        Pure::Less(a, b) => push_less(alloc, links, forms, i, a, b),
        Pure::AtMost(a, b) => push_at_most(alloc, links, forms, i, a, b),
        Pure::Equal(a, b) => push_equal(alloc, links, forms, i, a, b),
        _ => Ok(()),
    }
}

/// The edges of facts.
///
/// # Errors
/// `AllocError` for want of memory, and where there are more than 4294967295 facts, whose numbers 32 bits
/// don't hold.
fn push_facts(
    alloc: Global,
    links: &mut Links,
    forms: &[Form],
    facts: &[Pure],
) -> Result<(), AllocError>
    requires few { length forms.now ≤ 65536 }
    ensures { OnOk result (Added forms.now (facts_links 1 facts.now) links.old links.new) }
{
    let mut rest = facts;
    let mut number = 1u32;
    while let [fact, more @ ..] = rest {
        push_fact(alloc, links, forms, number, fact)?;
        if number == u32::MAX {
            return if_none(more.is_empty());
        }
        number += 1;
        rest = more;
    }
    Ok(())
}

fn if_none(none: bool) -> Result<(), AllocError>
    ensures { OnOk result (none ≡ true) }
{
    if none { Ok(()) } else { Err(AllocError) }
}

/// Where the nodes of 0 and 4294967295 are.
#[derive(Clone, Copy)]
pub(crate) struct Bounds {
    pub zero: u32,
    pub top: u32,
}

// The edge from 0 to a node by the word that is written anew from its form.
fn push_anew(
    alloc: Global,
    links: &mut Links,
    next: u32,
    w: &Word,
    edge: Edge3,
) -> Result<(), AllocError>
    ensures edges { OnOk result (links.new.edges ≡ links.old.edges ++ (if known_word next (rebuilt_word w.now) then edge ∷ [] else [])) }
    ensures labels { OnOk result (links.new.labels ≡ links.old.labels ++ (if known_word next (rebuilt_word w.now) then Edge.Z (rebuilt_word w.now) ∷ [] else [])) }
{
    let w = rebuilt_word(alloc, w)?;
    if !known_word(next, &w) {
        return Ok(());
    }
    push(links, Edge::Z(w), edge)
}

fn push_named(alloc: Global, links: &mut Links, w: &Word, edge: Edge3) -> Result<(), AllocError>
    ensures edges { OnOk result (links.new.edges ≡ links.old.edges ++ edge ∷ []) }
    ensures labels { OnOk result (links.new.labels ≡ links.old.labels ++ Edge.Z w.now ∷ []) }
{
    let w = w.copy(alloc)?;
    push(links, Edge::Z(w), edge)
}

// The edge from 0 to a node.
fn push_least(
    alloc: Global,
    links: &mut Links,
    forms: &[Form],
    next: u32,
    bounds: Bounds,
    at: u32,
    w: &Word,
) -> Result<(), AllocError>
    requires zero { bounds.zero ≡ place_of (word_form (Word.Number 0)) forms.now }
    requires at { at ≡ place_of (word_form w.now) forms.now }
    ensures { OnOk result (Added forms.now (least_links next w.now) links.old links.new) }
{
    let edge = Edge3 {
        from: bounds.zero,
        to: at,
        weight: 0,
    };
    if known_word(next, w) {
        push_named(alloc, links, w, edge)
    } else {
        push_anew(alloc, links, next, w, edge)
    }
}

// The edges between a constant and 0.
fn push_constant(
    links: &mut Links,
    forms: &[Form],
    bounds: Bounds,
    at: u32,
    form: &Form,
) -> Result<(), AllocError>
    requires zero { bounds.zero ≡ place_of (word_form (Word.Number 0)) forms.now }
    requires at { at ≡ place_of form.now forms.now }
    requires form { (w : Word) × (form.now ≡ word_form w) }
    ensures { OnOk result (Added forms.now (constant_links form.now) links.old links.new) }
{
    if !form.parts.is_empty() {
        return Ok(());
    }
    let weight = i64::from(form.constant);
    push(
        links,
        Edge::K(0),
        Edge3 {
            from: at,
            to: bounds.zero,
            weight,
        },
    )?;
    push(
        links,
        Edge::K(form.constant),
        Edge3 {
            from: bounds.zero,
            to: at,
            weight: -weight,
        },
    )
}

// The edges of a node.
fn push_node(
    alloc: Global,
    links: &mut Links,
    forms: &[Form],
    next: u32,
    bounds: Bounds,
    at: u32,
    w: &Word,
    form: &Form,
) -> Result<(), AllocError>
    requires zero { bounds.zero ≡ place_of (word_form (Word.Number 0)) forms.now }
    requires top { bounds.top ≡ place_of (word_form (Word.Number 4294967295)) forms.now }
    requires at { at ≡ place_of form.now forms.now }
    requires form { form.now ≡ word_form w.now }
    ensures { OnOk result (Added forms.now (node_links next w.now) links.old links.new) }
{
    push_least(alloc, links, forms, next, bounds, at, w)?;
    push(
        links,
        Edge::H,
        Edge3 {
            from: at,
            to: bounds.top,
            weight: 0,
        },
    )?;
    push_constant(links, forms, bounds, at, form)
}

/// The edges of all nodes.
fn push_nodes(alloc: Global, links: &mut Links, next: u32, table: &Table) -> Result<(), AllocError>
    requires table { IsTable table.now }
    requires nodes { AreNodes table.now.words }
    requires few { length table.now.forms ≤ 65536 }
    ensures { OnOk result (Added table.now.forms (nodes_links next table.now.words) links.old links.new) }
{
    let forms = table.forms.as_slice();
    let bounds = Bounds {
        zero: place_of_word(alloc, &Word::Number(0), forms)?,
        top: place_of_word(alloc, &Word::Number(u32::MAX), forms)?,
    };
    let words = table.words.as_slice();
    let mut at = 0usize;
    while at < words.len() {
        push_node(
            alloc, links, forms, next, bounds, at as u32, &words[at], &forms[at],
        )?;
        at += 1;
    }
    Ok(())
}

/// All edges of a state between these nodes.
///
/// # Errors
/// As of `push_facts`.
pub(crate) fn links_of(alloc: Global, s: &SymState, table: &Table) -> Result<Links, AllocError>
    requires table { IsTable table.now }
    requires nodes { AreNodes table.now.words }
    requires few { length table.now.forms ≤ 65536 }
    ensures edges { IfOk result (λ r. r.edges ≡ edges_of table.now.forms (all_links s.now table.now.words)) }
    ensures labels { IfOk result (λ r. r.labels ≡ labels_of (all_links s.now table.now.words)) }
{
    let mut links = Links {
        edges: List::new(alloc),
        labels: List::new(alloc),
    };
    push_facts(
        alloc,
        &mut links,
        table.forms.as_slice(),
        s.facts.as_slice(),
    )?;
    push_nodes(alloc, &mut links, s.next, table)?;
    Ok(links)
}
