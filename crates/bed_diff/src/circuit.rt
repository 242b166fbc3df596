//! Looking for a closed walk of negative total.
ghost use Rattle.std.specs.Prelude.{◌≡◌, ◌<◌, ◌≤◌, length, All, IfOk, IfSome, IfNone};
ghost use Rattle.bed_diff.specs.Edges.{IsWithin};
ghost use Rattle.bed_diff.specs.Rounds.{round_of, ArePointed, IsNegativeCircuit};

use crate::constraint::Edge3;
use crate::rounds::Label;
use std::alloc::{AllocError, Global};

/// The places of a closed walk of negative total, where following the labels from `start` leads round.
fn find_circuit(
    alloc: Global,
    labels: &[Label],
    edges: &[Edge3],
    start: u32,
) -> Result<Option<Vec<u32>>, AllocError>
    requires start { start < length labels.now }
    requires nodes { length labels.now ≤ 65536 }
    requires edges { All (IsWithin (length labels.now) 8589934593) edges.now }
    requires pointed { ArePointed edges.now labels.now }
    ensures found { IfOk result (λ found. IfSome found (λ walk. IsNegativeCircuit edges.now walk.items)) }
    ensures late { IfOk result (λ found. IfNone found (round_of labels.now start < length labels.now)) }
{
    let mut steps = vec![in alloc; 0u32; labels.len()]?;
    let mut walk: Vec<u32> = Vec::new(alloc);
    let mut at = start;
    'follow: while steps[at as usize] == 0 {
        let label = labels[at as usize];
        if label.round == 0 {
            return Ok(None);
        }
        walk.push(label.edge)?;
        steps[at as usize] = walk.len() as u32;
        at = edges[label.edge as usize].to;
    }
    let first = steps[at as usize] as usize - 1;
    let found = Vec::from_slice(alloc, &walk[first..])?;
    Ok(Some(found))
}

/// Looks for a closed walk after the rounds 1, 2, 4, 8 and so on, and after the last.
pub(crate) fn look_for_circuit(
    alloc: Global,
    labels: &[Label],
    edges: &[Edge3],
    start: u32,
    done: u32,
) -> Result<Option<Vec<u32>>, AllocError>
    requires start { start < length labels.now }
    requires nodes { length labels.now ≤ 65536 }
    requires edges { All (IsWithin (length labels.now) 8589934593) edges.now }
    requires pointed { ArePointed edges.now labels.now }
    requires round { round_of labels.now start ≡ done }
    requires most { done ≤ length labels.now }
    ensures found { IfOk result (λ found. IfSome found (λ walk. IsNegativeCircuit edges.now walk.items)) }
    ensures late { IfOk result (λ found. IfNone found (done < length labels.now)) }
{
    if done as usize == labels.len() || done.is_power_of_two() {
        return find_circuit(alloc, labels, edges, start);
    }
    Ok(None)
}
