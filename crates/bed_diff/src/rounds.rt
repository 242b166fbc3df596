//! Labels of nodes, and the rounds that change them.
ghost use Rattle.std.specs.Prelude.{◌≡◌, ℕ, ◌≢◌, ◌+◌, ◌^◌, ◌<◌, ◌≤◌, length, All, Contains, OnOk, IfOk};
ghost use Rattle.std.specs.Bool.{OnFalse, OnTrue};
ghost use Rattle.bed_diff.specs.Edges.{edge_at, IsWithin};
ghost use Rattle.bed_diff.specs.Rounds.{round_of, Progress, IsDone, KeepsDone, Collected, Covers, AreDone, AreDoneTo, AreListed};

use crate::constraint::Edge3;
use std::alloc::{AllocError, Global};

/// What is known of a node: its value, the round that gave it, and the place of the edge that did.
/// Round 0 gave each node the value 0, by no edge.
#[derive(Clone, Copy)]
pub(crate) struct Label {
    pub(crate) value: i64,
    pub(crate) round: u32,
    pub(crate) edge: u32,
}

/// Lowers the value of the edge's `from` where the edge isn't met, if the round before gave its `to` its
/// value. A `to` that this round has changed already waits for the next one, so that a value of round k
/// is the sum of k weights at most.
fn relax(labels: &mut Vec<Label>, edges: &[Edge3], place: usize, done: u32) -> bool
    requires place { place < length edges.now }
    requires few { length edges.now ≤ 2 ^ 32 }
    requires rounds { done < 65536 }
    requires edges { All (IsWithin (length labels.old.items) 8589934593) edges.now }
    requires progress { Progress edges.now done labels.old.items }
    ensures progress { Progress edges.now done labels.new.items }
    ensures keeps { KeepsDone edges.now done labels.old.items labels.new.items }
    ensures done { IsDone done labels.new.items (edge_at edges.now place) }
    ensures len { length labels.new.items ≡ length labels.old.items }
    ensures others { (x : ℕ) → x ≢ (edge_at edges.now place).from
        → round_of labels.new.items x ≡ round_of labels.old.items x }
    ensures changed { OnTrue result (round_of labels.new.items (edge_at edges.now place).from ≡ done + 1) }
    ensures same { OnFalse result (labels.new.items ≡ labels.old.items) }
{
    let edge = edges[place];
    let to = labels[edge.to as usize];
    if to.round != done {
        return false;
    }
    let value = to.value + edge.weight;
    if labels[edge.from as usize].value <= value {
        return false;
    }
    labels[edge.from as usize] = Label {
        value,
        round: done + 1,
        edge: place as u32,
    };
    true
}

/// The edges by their `to`: one more than the place of the last edge to each node, or 0, and for each edge the
/// same of the edges before it that have its `to`.
#[derive(Drop)]
pub(crate) struct Incoming {
    pub(crate) last: Vec<usize>,
    pub(crate) before: Vec<usize>,
}

pub(crate) fn incoming_edges(
    alloc: Global,
    nodes: usize,
    edges: &[Edge3],
) -> Result<Incoming, AllocError>
    requires few { length edges.now ≤ 2 ^ 32 }
    requires edges { All (IsWithin nodes 8589934593) edges.now }
    ensures { IfOk result (λ i. AreListed edges.now nodes (length edges.now) i.last.items i.before.items) }
{
    let mut last = vec![in alloc; 0usize; nodes]?;
    let mut before: Vec<usize> = Vec::new(alloc);
    for (i, edge) in edges.iter().enumerate() {
        let to = edge.to as usize;
        before.push(last[to])?;
        last[to] = i + 1;
    }
    Ok(Incoming { last, before })
}

/// Relaxes an edge, and appends its `from` if this round changes it for the first time.
fn relax_collecting(
    labels: &mut Vec<Label>,
    next: &mut Vec<u32>,
    edges: &[Edge3],
    place: usize,
    done: u32,
) -> Result<(), AllocError>
    requires place { place < length edges.now }
    requires few { length edges.now ≤ 2 ^ 32 }
    requires rounds { done < 65536 }
    requires edges { All (IsWithin (length labels.old.items) 8589934593) edges.now }
    requires progress { Progress edges.now done labels.old.items }
    requires collected { Collected done labels.old.items next.old.items }
    ensures len { length labels.new.items ≡ length labels.old.items }
    ensures progress { Progress edges.now done labels.new.items }
    ensures keeps { KeepsDone edges.now done labels.old.items labels.new.items }
    ensures done { IsDone done labels.new.items (edge_at edges.now place) }
    ensures collected { OnOk result (Collected done labels.new.items next.new.items) }
{
    let from = edges[place].from;
    let fresh = labels[from as usize].round <= done;
    let changed = relax(labels, edges, place, done);
    if changed && fresh {
        next.push(from)?;
    }
    Ok(())
}

/// Relaxes each edge into a node.
fn relax_incoming(
    labels: &mut Vec<Label>,
    next: &mut Vec<u32>,
    edges: &[Edge3],
    incoming: &Incoming,
    node: u32,
    done: u32,
) -> Result<(), AllocError>
    requires node { node < length labels.old.items }
    requires few { length edges.now ≤ 2 ^ 32 }
    requires rounds { done < 65536 }
    requires edges { All (IsWithin (length labels.old.items) 8589934593) edges.now }
    requires listed { AreListed edges.now (length labels.old.items) (length edges.now)
        incoming.now.last.items incoming.now.before.items }
    requires progress { Progress edges.now done labels.old.items }
    requires collected { Collected done labels.old.items next.old.items }
    ensures len { length labels.new.items ≡ length labels.old.items }
    ensures progress { OnOk result (Progress edges.now done labels.new.items) }
    ensures keeps { OnOk result (KeepsDone edges.now done labels.old.items labels.new.items) }
    ensures done { OnOk result (AreDoneTo edges.now done labels.new.items node) }
    ensures collected { OnOk result (Collected done labels.new.items next.new.items) }
{
    let mut after = incoming.last[node as usize];
    while after > 0 {
        let place = after - 1;
        relax_collecting(labels, next, edges, place, done)?;
        after = incoming.before[place];
    }
    Ok(())
}

/// A round: relaxes each edge to a node that the round before changed.
pub(crate) fn run_round(
    labels: &mut Vec<Label>,
    next: &mut Vec<u32>,
    edges: &[Edge3],
    incoming: &Incoming,
    front: &[u32],
    done: u32,
) -> Result<(), AllocError>
    requires few { length edges.now ≤ 2 ^ 32 }
    requires rounds { done < 65536 }
    requires edges { All (IsWithin (length labels.old.items) 8589934593) edges.now }
    requires listed { AreListed edges.now (length labels.old.items) (length edges.now)
        incoming.now.last.items incoming.now.before.items }
    requires progress { Progress edges.now done labels.old.items }
    requires collected { Collected done labels.old.items next.old.items }
    requires front { All (λ x. x < length labels.old.items) front.now }
    requires covers { Covers done labels.old.items front.now }
    ensures len { length labels.new.items ≡ length labels.old.items }
    ensures progress { OnOk result (Progress edges.now done labels.new.items) }
    ensures done { OnOk result (AreDone edges.now done labels.new.items) }
    ensures collected { OnOk result (Collected done labels.new.items next.new.items) }
{
    for node in front {
        relax_incoming(labels, next, edges, incoming, *node, done)?;
    }
    Ok(())
}

pub(crate) fn all_nodes(alloc: Global, nodes: u32) -> Result<Vec<u32>, AllocError>
    ensures nodes { IfOk result (λ v. All (λ x. x < nodes) v.items) }
    ensures each { IfOk result (λ v. (x : ℕ) → x < nodes → Contains v.items x) }
{
    let mut all: Vec<u32> = Vec::new(alloc);
    for node in 0..nodes {
        all.push(node)?;
    }
    Ok(all)
}
