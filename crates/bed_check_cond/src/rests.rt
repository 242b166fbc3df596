//! The walk along the rest of a condition, with a list of its own in place of recursion.
ghost use Rattle.std.specs.Prelude.{◌≡◌, ◌∷◌, ◌++◌, [], ◌<◌, ◌≤◌, length, map, drop, slice_get, remove, Some, IfOk, OnOk};
ghost use Rattle.bed_deriv.specs.declared.rest.Task.TheVariants.{Closes};
ghost use Rattle.bed_deriv.specs.Derives.{facts_to_prove, rules};
ghost use Rattle.bed_deriv.specs.Walk.{walk, walk_all};
ghost use Rattle.bed_check_pure.specs.Faults.{AnswersWalk};
ghost use Rattle.bed_check_cond.specs.Points.{rest_of, rests_at};
ghost use Rattle.bed_check_cond.specs.Stack.{rests_walk, size, children_size, rests_size, waiting, AnswersOpened, AnswersTurn};

use crate::after::onward;
use crate::facts::children_walked;
use crate::point::{Ahead, Left, Point};
use bed_check_pure::{Fault, Verdict};
use bed_deriv::{Deriv, SymState};
use bed_lang::{Decls, List, Name};
use std::alloc::{AllocError, Global};

/// What is left below a node: the states from which its rest goes on, what lies ahead of them, and the
/// children that check them.
#[derive(Drop)]
pub(crate) struct Rests<'a> {
    pub(crate) states: List<SymState>,
    pub(crate) ahead: Ahead<'a>,
    pub(crate) children: &'a [Deriv],
}

/// What a turn at a node leaves: what is left of the node, and what is left below its next child, which comes
/// first, with the number of its first node.
#[derive(Drop)]
pub(crate) struct Turned<'a> {
    pub(crate) left: Rests<'a>,
    pub(crate) below: Rests<'a>,
    pub(crate) node: u32,
}

// The trees behind the first ones.
fn behind<'a>(children: &'a [Deriv], n: usize) -> &'a [Deriv]
    ensures { result.now ≡ drop n children.now }
{
    if n <= children.len() {
        &children[n..]
    } else {
        &[]
    }
}

// Checks the facts that a node leaves, in its state; its rests are what is left.
#[tactic(auto, using(crate::proofs::RestsLemmas::facts_then, crate::proofs::RestsLemmas::facts_refused))]
fn facts_walked<'a>(
    alloc: Global,
    decls: &Decls,
    function: &Name,
    s: &SymState,
    left: Left<'a>,
    children: &'a [Deriv],
    node: u32,
) -> Result<(Rests<'a>, u32), Verdict>
    ensures walk { AnswersOpened decls.now function.now result (walk_all (map (walk (rules decls.now function.now)) children.now) (facts_to_prove s.now left.entry.goals ++ map Closes (rests_at left.entry.ahead left.entry.states)) node) }
    ensures children { IfOk result (λ p. p.0.children.now ≡ drop (length left.entry.goals) children.now) }
{
    let Left {
        goals,
        states,
        ahead,
    } = left;
    match children_walked(alloc, decls, s, children, goals.as_slice(), node) {
        Err(verdict) => Err(verdict),
        Ok(last) => Ok((
            Rests {
                states,
                ahead,
                children: behind(children, goals.len()),
            },
            last,
        )),
    }
}

// Checks a node of this number for the rest from a point, and the facts that it leaves.
#[tactic(auto, using(crate::proofs::RestsLemmas::node_refused))]
fn opened<'a>(
    alloc: Global,
    decls: &Decls,
    function: &Name,
    at: &Point<'a>,
    d: &'a Deriv,
    node: u32,
) -> Result<(Rests<'a>, u32), Verdict>
    ensures walk { AnswersOpened decls.now function.now result (walk (rules decls.now function.now) d.now (Closes (rest_of at.now)) node) }
    ensures smaller { IfOk result (λ p. rests_size p.0 < size d.now) }
{
    let n = d.children.len();
    match onward(alloc, decls, function, at, d.rule, d.args.as_slice(), n) {
        Err(Fault::Count) => Err(Verdict::Reject { node, premise: 1 }),
        Err(Fault::Argument) => Err(Verdict::Reject { node, premise: 2 }),
        Err(Fault::Condition) => Err(Verdict::Reject { node, premise: 3 }),
        Err(Fault::Memory) => Err(Verdict::Memory),
        Ok(left) => {
            if node == u32::MAX {
                return Err(Verdict::Memory);
            }
            let children = d.children.as_slice();
            facts_walked(alloc, decls, function, &at.state, left, children, node + 1)
        }
    }
}

// The next turn at a node: None where nothing is left of it; else its next child is opened.
fn turn<'a>(
    alloc: Global,
    decls: &Decls,
    function: &Name,
    rests: Rests<'a>,
    node: u32,
) -> Result<Option<Turned<'a>>, Verdict>
    ensures { AnswersTurn decls.now function.now result rests.entry node }
{
    let Rests {
        mut states,
        ahead,
        children,
    } = rests;
    match children {
        [] => Ok(None),
        [child, more @ ..] => {
            if states.is_empty() {
                return Ok(None);
            }
            let state = states.remove(0);
            let point = Point { state, ahead };
            match opened(alloc, decls, function, &point, child, node) {
                Err(verdict) => Err(verdict),
                Ok((below, node)) => Ok(Some(Turned {
                    left: Rests {
                        states,
                        ahead,
                        children: more,
                    },
                    below,
                    node,
                })),
            }
        }
    }
}

// What is left of a node waits, if its children aren't all checked.
fn wait<'a>(nodes: &mut List<Rests<'a>>, rests: Rests<'a>) -> Result<(), AllocError>
    ensures { OnOk result (nodes.new ≡ nodes.old ++ waiting rests.entry) }
{
    match rests.children {
        [] => Ok(()),
        _ => nodes.push(rests),
    }
}

// What a turn leaves waits.
fn wait_both<'a>(nodes: &mut List<Rests<'a>>, turned: Turned<'a>) -> Result<(), AllocError>
    ensures { OnOk result (nodes.new ≡ (nodes.old ++ waiting turned.entry.left) ++ waiting turned.entry.below) }
{
    let Turned { left, below, .. } = turned;
    wait(nodes, left)?;
    wait(nodes, below)
}

// Checks all that is left below a node, and gives the number after its last one.
#[tactic(auto, using(crate::proofs::TurnLemmas::spent, crate::proofs::TurnLemmas::refused))]
fn walk_left<'a>(
    alloc: Global,
    decls: &Decls,
    function: &Name,
    root: Rests<'a>,
    first: u32,
) -> Result<u32, Verdict>
    ensures { AnswersWalk result (rests_walk decls.now function.now root.entry first) }
{
    let mut node = first;
    let mut nodes = List::new(alloc);
    if let Err(_) = nodes.push(root) {
        return Err(Verdict::Memory);
    }
    'turns: loop {
        let Some(rests) = nodes.pop() else {
            return Ok(node);
        };
        if let Some(turned) = turn(alloc, decls, function, rests, node)? {
            node = turned.node;
            if let Err(_) = wait_both(&mut nodes, turned) {
                return Err(Verdict::Memory);
            }
        }
    }
}

/// Checks a tree for the rest from a point, its root having number 1, and gives the number after its last
/// node.
///
/// # Errors
/// `Reject` exactly where some node is no instance of its rule: the first in preorder, with its first failing
/// premise. `Memory` for want of memory, and where the tree has 4294967295 nodes or more.
pub(crate) fn rest_walked<'a>(
    alloc: Global,
    decls: &Decls,
    function: &Name,
    at: &Point<'a>,
    d: &'a Deriv,
) -> Result<u32, Verdict>
    ensures { AnswersWalk result (walk (rules decls.now function.now) d.now (Closes (rest_of at.now)) 1) }
{
    match opened(alloc, decls, function, at, d, 1) {
        Err(verdict) => Err(verdict),
        Ok((root, last)) => walk_left(alloc, decls, function, root, last),
    }
}
