//! The rounds, to their end.
ghost use Rattle.std.specs.Prelude.{◌≡◌, ◌^◌, ◌<◌, ◌≤◌, length, All, map, IfOk};
ghost use Rattle.bed_diff.specs.Edges.{IsWithin};
ghost use Rattle.bed_diff.specs.Rounds.{AreListed, IsReady, IsOutcome};

use crate::circuit::look_for_circuit;
use crate::constraint::Edge3;
use crate::rounds::{Incoming, Label, all_nodes, incoming_edges, run_round};
use std::alloc::{AllocError, Global};

/// What the rounds end with.
#[derive(Drop)]
pub(crate) enum Outcome {
    /// The places of a closed walk of negative total, no edge twice.
    Circuit(Vec<u32>),
    /// A value for each node, that together meet each edge.
    Values(Vec<i64>),
}

fn label_values(alloc: Global, labels: &[Label]) -> Result<Vec<i64>, AllocError>
    ensures { IfOk result (λ v. v.items ≡ map (λ l. l.value) labels.now) }
{
    labels.iter().map(|l| l.value).collect(alloc)
}

/// Runs rounds until one changes nothing, or until the labels lead round a closed walk.
fn run_rounds(
    alloc: Global,
    labels: &mut Vec<Label>,
    edges: &[Edge3],
    incoming: &Incoming,
    first: Vec<u32>,
) -> Result<Outcome, AllocError>
    requires nodes { length labels.old.items ≤ 65536 }
    requires few { length edges.now ≤ 2 ^ 32 }
    requires edges { All (IsWithin (length labels.old.items) 8589934593) edges.now }
    requires listed { AreListed edges.now (length labels.old.items) (length edges.now)
        incoming.now.last.items incoming.now.before.items }
    requires ready { IsReady edges.now (length labels.old.items) 0 labels.old.items first.items }
    ensures { IfOk result (IsOutcome (length labels.old.items) edges.now) }
{
    let mut front = first;
    let mut done = 0u32;
    'rounds: loop {
        let mut next: Vec<u32> = Vec::new(alloc);
        run_round(labels, &mut next, edges, incoming, &front, done)?;
        if next.is_empty() {
            let found = label_values(alloc, labels)?;
            return Ok(Outcome::Values(found));
        }
        done += 1;
        match look_for_circuit(alloc, labels, edges, next[0], done)? {
            Some(walk) => return Ok(Outcome::Circuit(walk)),
            None => {}
        }
        front = next;
    }
}

/// Values that meet each edge, or a closed walk of negative total.
pub(crate) fn solve(alloc: Global, nodes: u32, edges: &[Edge3]) -> Result<Outcome, AllocError>
    requires some { 0 < nodes }
    requires nodes { nodes ≤ 65536 }
    requires few { length edges.now ≤ 2 ^ 32 }
    requires edges { All (IsWithin nodes 8589934593) edges.now }
    ensures { IfOk result (IsOutcome nodes edges.now) }
{
    let incoming = incoming_edges(alloc, nodes as usize, edges)?;
    let blank = Label {
        value: 0,
        round: 0,
        edge: 0,
    };
    let mut labels = vec![in alloc; blank; nodes as usize]?;
    let front = all_nodes(alloc, nodes)?;
    run_rounds(alloc, &mut labels, edges, &incoming, front)
}
