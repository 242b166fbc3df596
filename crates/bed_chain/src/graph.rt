//! Chains between words, and negative cycles.
ghost use Rattle.std.specs.Prelude.{◌≡◌, ◌⊎◌, ◌∷◌, ◌++◌, ◌<◌, ◌≤◌, ◌^◌, ℕ, List, [], true, negsuc, pos, drop, length, map, slice_index_or, take, All, IfOk, IfNone, IfSome, OnOk};
ghost use Rattle.bed_lang.specs.declared.logic.Pure.TheVariants as pure;
ghost use Rattle.bed_lang.specs.Forms.{word_form};
ghost use Rattle.bed_deriv.specs.declared.derivation.DArg.TheVariants as given;
ghost use Rattle.bed_diff.specs.Edges.{IsWithin};
ghost use Rattle.bed_chain.specs.Answers.{AnswersChain, AnswersCycle};
ghost use Rattle.bed_chain.specs.Freed.{is_free, edge_of, edges_at, AreTied, IsFreed, chain_args, IsDecided, IsRound};
ghost use Rattle.bed_chain.specs.Graph.{all_words, place_of, edges_of, labels_of, all_links};
ghost use Rattle.bed_chain.specs.Tables.{IsTable, AreNodes, Covers};

use crate::links::{Links, links_of};
use crate::table::{Table, goal_table, place_of, table_of};
use bed_deriv::{DArg, Edge, SymState};
use bed_diff::{Decision, Edge3, decide};
use bed_forms::word_form;
use bed_lang::{Form, List, Word};
use std::alloc::{AllocError, Global};

/// The most nodes over which a chain may run.
const MOST_NODES: usize = 65536;

fn label_copy(alloc: Global, labels: &[Edge], place: u32) -> Result<Edge, AllocError>
    ensures { IfOk result (λ r. r ≡ slice_index_or labels.now place Edge.H) }
{
    match labels.get(place as usize) {
        Some(edge) => edge.copy(alloc),
        None => Ok(Edge::H),
    }
}

fn push_label(
    alloc: Global,
    args: &mut List<DArg>,
    labels: &[Edge],
    place: u32,
) -> Result<(), AllocError>
    ensures { OnOk result (args.new ≡ args.old ++ given.Edge (slice_index_or labels.now place Edge.H) ∷ []) }
{
    let edge = label_copy(alloc, labels, place)?;
    args.push(DArg::Edge(edge))
}

/// The arguments of a chain along the edges at these places.
fn chain_args(alloc: Global, labels: &[Edge], places: &[u32]) -> Result<List<DArg>, AllocError>
    ensures { IfOk result (λ r. r ≡ chain_args labels.now places.now) }
{
    let mut args = List::new(alloc);
    let mut rest = places;
    while let [place, more @ ..] = rest {
        push_label(alloc, &mut args, labels, *place)?;
        rest = more;
    }
    Ok(args)
}

fn is_free(labels: &[Edge], place: u32) -> bool
    ensures { result ≡ is_free (edge_of labels.now place) }
{
    match labels.get(place as usize) {
        Some(Edge::K(_)) => false,
        Some(Edge::H) => false,
        Some(_) => true,
        None => false,
    }
}

/// Where a walk has its first edge that is free.
fn first_free(labels: &[Edge], places: &[u32]) -> Option<usize>
    ensures found { IfSome result (λ at. (at < length places.now) × (is_free (edge_of labels.now (slice_index_or places.now at 0)) ≡ true)) }
    ensures none { IfNone result (AreTied (edges_at labels.now places.now)) }
{
    let mut at = 0usize;
    while at < places.len() {
        if is_free(labels, places[at]) {
            return Some(at);
        }
        at += 1;
    }
    None
}

fn turned(alloc: Global, places: &[u32], at: usize) -> Result<Vec<u32>, AllocError>
    requires { at < length places.now }
    ensures { IfOk result (λ r. r.items ≡ drop at places.now ++ take at places.now) }
{
    let mut turned = Vec::from_slice(alloc, &places[at..])?;
    turned.extend_from_slice(&places[..at])?;
    Ok(turned)
}

/// The closed walk from its first free edge on.
fn freed(alloc: Global, labels: &[Edge], places: &[u32]) -> Result<Vec<u32>, AllocError>
    ensures { IfOk result (λ r. IsFreed labels.now places.now r.items) }
{
    match first_free(labels, places) {
        Some(at) => turned(alloc, places, at),
        None => Vec::from_slice(alloc, places),
    }
}

fn cycle_args(alloc: Global, labels: &[Edge], places: &[u32]) -> Result<List<DArg>, AllocError>
    ensures { IfOk result (λ r. (is : List ℕ) × IsFreed labels.now places.now is × (r ≡ chain_args labels.now is)) }
{
    let places = freed(alloc, labels, places)?;
    chain_args(alloc, labels, &places)
}

/// What is decided of a goal's edge.
fn decided(
    alloc: Global,
    nodes: u32,
    links: &Links,
    goal: &Edge3,
) -> Result<Option<List<DArg>>, AllocError>
    requires nodes { nodes ≤ 65536 }
    requires edges { All (IsWithin nodes (2 ^ 33)) links.now.edges }
    requires goal { IsWithin nodes (2 ^ 33) goal.now }
    ensures { IfOk result (IsDecided nodes links.now.edges links.now.labels goal.now) }
{
    let labels = links.labels.as_slice();
    match decide(alloc, nodes, links.edges.as_slice(), goal)? {
        Decision::Chain(places) => Ok(Some(chain_args(alloc, labels, places.as_slice())?)),
        Decision::Cycle(places) => Ok(Some(cycle_args(alloc, labels, places.as_slice())?)),
        Decision::Point(_) => Ok(None),
    }
}

/// The cycle that is decided on, if any, of the edge from a node to itself.
fn round(
    alloc: Global,
    nodes: u32,
    links: &Links,
    goal: &Edge3,
) -> Result<Option<List<DArg>>, AllocError>
    requires nodes { nodes ≤ 65536 }
    requires edges { All (IsWithin nodes (2 ^ 33)) links.now.edges }
    requires goal { IsWithin nodes (2 ^ 33) goal.now }
    requires closed { goal.now.from ≡ goal.now.to }
    requires negative { goal.now.weight ≡ negsuc 0 }
    ensures { IfOk result (IsRound nodes links.now.edges links.now.labels goal.now) }
{
    let labels = links.labels.as_slice();
    match decide(alloc, nodes, links.edges.as_slice(), goal)? {
        Decision::Chain(places) => Ok(Some(cycle_args(alloc, labels, places.as_slice())?)),
        Decision::Cycle(places) => Ok(Some(cycle_args(alloc, labels, places.as_slice())?)),
        Decision::Point(_) => Ok(None),
    }
}

/// What is decided of the edge between two nodes, with this weight.
fn over(
    alloc: Global,
    s: &SymState,
    table: &Table,
    goal: &Edge3,
) -> Result<Option<List<DArg>>, AllocError>
    requires table { IsTable table.now }
    requires nodes { AreNodes table.now.words }
    requires few { length table.now.words ≤ 65536 }
    requires facts { Covers table.now.words (all_words s.now.facts) }
    requires goal { IsWithin (length table.now.words) 1 goal.now }
    ensures { IfOk result (IsDecided (length table.now.words) (edges_of (map word_form table.now.words) (all_links s.now table.now.words)) (labels_of (all_links s.now table.now.words)) goal.now) }
{
    let links = links_of(alloc, s, table)?;
    decided(alloc, table.words.len() as u32, &links, goal)
}

fn edge_between(
    alloc: Global,
    table: &Table,
    a: &Word,
    b: &Word,
    weight: i64,
) -> Result<Edge3, AllocError>
    requires table { IsTable table.now }
    requires few { length table.now.words ≤ 65536 }
    ensures { IfOk result (λ e. e ≡ record {
      from = place_of (word_form a.now) (map word_form table.now.words);
      to = place_of (word_form b.now) (map word_form table.now.words);
      weight = weight;
    }) }
{
    let forms = table.forms.as_slice();
    let from = place_of(&word_form(alloc, a)?, forms) as u32;
    let to = place_of(&word_form(alloc, b)?, forms) as u32;
    Ok(Edge3 { from, to, weight })
}

/// What is decided of two words whose distance is bounded.
fn between(
    alloc: Global,
    s: &SymState,
    table: &Table,
    a: &Word,
    b: &Word,
    weight: i64,
) -> Result<Option<List<DArg>>, AllocError>
    requires table { IsTable table.now }
    requires nodes { AreNodes table.now.words }
    requires few { length table.now.words ≤ 65536 }
    requires facts { Covers table.now.words (all_words s.now.facts) }
    requires sides { Covers table.now.words (a.now ∷ b.now ∷ []) }
    requires weight { (weight ≡ pos 0) ⊎ (weight ≡ negsuc 0) }
    ensures { IfOk result (IsDecided (length table.now.words) (edges_of (map word_form table.now.words) (all_links s.now table.now.words)) (labels_of (all_links s.now table.now.words)) (record {
      from = place_of (word_form a.now) (map word_form table.now.words);
      to = place_of (word_form b.now) (map word_form table.now.words);
      weight = weight;
    })) }
{
    let goal = edge_between(alloc, table, a, b, weight)?;
    over(alloc, s, table, &goal)
}

/// The edges of a chain that closes `a <= b` in a state, or None where there is none that runs over at most
/// 65,536 forms of the goal and the facts.
///
/// # Errors
/// `AllocError` for want of memory, and where there are more than 4294967295 facts or edges, whose numbers
/// 32 bits don't hold.
pub fn at_most(
    alloc: Global,
    s: &SymState,
    a: &Word,
    b: &Word,
) -> Result<Option<List<DArg>>, AllocError>
    ensures answers { IfOk result (AnswersChain s.now (pure.AtMost a.now b.now)) }
{
    let table = goal_table(alloc, a, b, s.facts.as_slice())?;
    if table.words.len() > MOST_NODES {
        return Ok(None);
    }
    between(alloc, s, &table, a, b, 0)
}

/// The edges of a chain that closes `a < b` in a state, or None where there is none that runs over at most
/// 65,536 forms of the goal and the facts.
///
/// # Errors
/// As of `at_most`.
pub fn less(
    alloc: Global,
    s: &SymState,
    a: &Word,
    b: &Word,
) -> Result<Option<List<DArg>>, AllocError>
    ensures answers { IfOk result (AnswersChain s.now (pure.Less a.now b.now)) }
{
    let table = goal_table(alloc, a, b, s.facts.as_slice())?;
    if table.words.len() > MOST_NODES {
        return Ok(None);
    }
    between(alloc, s, &table, a, b, -1)
}

/// What is decided of a cycle through any nodes.
fn round_zero(alloc: Global, s: &SymState, table: &Table) -> Result<Option<List<DArg>>, AllocError>
    requires table { IsTable table.now }
    requires nodes { AreNodes table.now.words }
    requires few { length table.now.words ≤ 65536 }
    requires facts { Covers table.now.words (all_words s.now.facts) }
    ensures { IfOk result (IsRound (length table.now.words) (edges_of (map word_form table.now.words) (all_links s.now table.now.words)) (labels_of (all_links s.now table.now.words)) (record {
      from = place_of (word_form (Word.Number 0)) (map word_form table.now.words);
      to = place_of (word_form (Word.Number 0)) (map word_form table.now.words);
      weight = negsuc 0;
    })) }
{
    let zero = Word::Number(0);
    let goal = edge_between(alloc, table, &zero, &zero, -1)?;
    let links = links_of(alloc, s, table)?;
    round(alloc, table.words.len() as u32, &links, &goal)
}

/// The edges of a chain that closes every goal in a state, since it ends where it starts and says that a
/// value is less than itself; or None where none runs over at most 65,536 forms of the facts.
///
/// # Errors
/// As of `at_most`.
pub fn cycle(alloc: Global, s: &SymState) -> Result<Option<List<DArg>>, AllocError>
    ensures answers { IfOk result (AnswersCycle s.now) }
{
    let table = table_of(alloc, s.facts.as_slice())?;
    if table.words.len() > MOST_NODES {
        return Ok(None);
    }
    round_zero(alloc, s, &table)
}
