//! Deciding whether a goal follows.
ghost use Rattle.std.specs.Prelude.{◌≡◌, ℕ, ◌≢◌, [], ◌^◌, ◌<◌, ◌≤◌, pos, ◌-ℤ◌, length, All, slice_index, ◌++◌, ◌∷◌, IfOk, IfSome, IfNone};
ghost use Rattle.bed_diff.specs.Edges.{IsWithin};
ghost use Rattle.bed_diff.specs.Decided.{OnChain, OnCycle, OnPoint, IsChain, IsNegativeCycle, IsPoint};
ghost use Rattle.bed_diff.specs.Rounds.{IsNegativeCircuit};

use crate::constraint::Edge3;
use crate::solution::{Outcome, solve};
use bed_lang::List;
use std::alloc::{AllocError, Global};

/// Whether a goal follows from edges, with what shows it.
#[derive(Drop)]
pub enum Decision {
    /// It follows: the places, from 0, of edges that lead in this order from the goal's `from` to its
    /// `to` and have a total of at most its weight.
    Chain(List<u32>),
    /// No values meet the edges: the places of edges that lead in this order from a node back to it and
    /// have a total below 0.
    Cycle(List<u32>),
    /// It doesn't follow: a value for each node, that together meet each edge and not the goal.
    Point(List<i64>),
}

/// The index of a place in a walk.
fn index_of(walk: &[u32], place: usize) -> Option<usize>
    ensures found { IfSome result (λ i. (i < length walk.now) × (slice_index walk.now i ≡ place)) }
    ensures none { IfNone result (All (λ p. p ≢ place) walk.now) }
{
    for (i, p) in walk.iter().enumerate() {
        if *p as usize == place {
            return Some(i);
        }
    }
    None
}

/// The decision that a closed walk gives, along the edges and the reverse of the goal: what comes after
/// the reverse and then what comes before it, or the whole walk where the reverse isn't on it.
fn cut_circuit(
    alloc: Global,
    edges: &[Edge3],
    goal: &Edge3,
    walk: Vec<u32>,
) -> Result<Decision, AllocError>
    requires { IsNegativeCircuit (edges.now ++ record {
      from = goal.now.to;
      to = goal.now.from;
      weight = pos 0 -ℤ pos 1 -ℤ goal.now.weight;
    } ∷ []) walk.items }
    ensures chain { IfOk result (OnChain (IsChain edges.now goal.now)) }
    ensures cycle { IfOk result (OnCycle (IsNegativeCycle edges.now)) }
    ensures point { (nodes : ℕ) → IfOk result (OnPoint (IsPoint nodes edges.now goal.now)) }
{
    match index_of(&walk, edges.len()) {
        None => Ok(Decision::Cycle(List::from_vec(walk))),
        Some(at) => {
            let mut chain = Vec::from_slice(alloc, &walk[at + 1..])?;
            chain.extend_from_slice(&walk[..at])?;
            Ok(Decision::Chain(List::from_vec(chain)))
        }
    }
}

/// Whether `goal` follows from `edges`: a chain of edges that gives it, a cycle by which no values meet
/// the edges, or a point that meets the edges and not the goal. Edges that no values meet may also be
/// answered by a chain.
///
/// There are at most 65,536 nodes, numbered from 0; each end of an edge and of the goal is one of them,
/// and each weight lies between -2^33 and 2^33, both allowed.
///
/// # Errors
/// `AllocError` for want of memory, and for 2^32 edges or more, whose places 32 bits don't hold.
pub fn decide(
    alloc: Global,
    nodes: u32,
    edges: &[Edge3],
    goal: &Edge3,
) -> Result<Decision, AllocError>
    requires nodes { nodes ≤ 65536 }
    requires edges { All (IsWithin nodes (2 ^ 33)) edges.now }
    requires goal { IsWithin nodes (2 ^ 33) goal.now }
    ensures chain { IfOk result (OnChain (IsChain edges.now goal.now)) }
    ensures cycle { IfOk result (OnCycle (IsNegativeCycle edges.now)) }
    ensures point { IfOk result (OnPoint (IsPoint nodes edges.now goal.now)) }
{
    if edges.len() > u32::MAX as usize {
        return Err(AllocError);
    }
    let mut all = Vec::from_slice(alloc, edges)?;
    let weight = -1 - goal.weight;
    all.push(Edge3 {
        from: goal.to,
        to: goal.from,
        weight,
    })?;
    match solve(alloc, nodes, &all)? {
        Outcome::Values(found) => Ok(Decision::Point(List::from_vec(found))),
        Outcome::Circuit(walk) => cut_circuit(alloc, edges, goal, walk),
    }
}
