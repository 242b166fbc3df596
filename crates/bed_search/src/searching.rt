//! The search of the rest of a condition.
ghost use Rattle.std.specs.Prelude.{◌≡◌, ◌∷◌, ◌<◌, true, None, IfOk};
ghost use Rattle.bed_deriv.specs.Checks.{has_room, have_room};
ghost use Rattle.bed_deriv.specs.Steps.{rest_states};
ghost use Rattle.bed_search.specs.Given.{given_by};
ghost use Rattle.bed_search.specs.Procedure.{ClosesBy, IsNode};
ghost use Rattle.bed_search.specs.Answers.{AnswersTree};
ghost use Rattle.bed_search.specs.Layers.{Opens, AnswersTrees};

use crate::ahead::Todo;
use crate::given::{copied, given, gives_behind};
use crate::layers::{Falsity, Layers, Step};
use crate::tree::Measured;
use crate::trees::{greater, never, over};
use bed_deriv::{Deriv, Rest};
use bed_lang::{Arg, List, Name};
use std::alloc::{AllocError, Global};

// Trees for rests in order, behind those that are there, with the number of their nodes and their greatest
// nesting.
#[cycle(search)]
fn children<L: Layers>(
    alloc: Global,
    layers: &L,
    todo: &[Todo],
    gives: &[(Name, Arg)],
    rests: &[Rest],
    nodes: u32,
    nesting: u32,
    trees: &mut List<Deriv>,
) -> Result<Option<(u32, u32)>, AllocError>
    requires room { have_room (rest_states rests.now) ≡ true }
    ensures { IfOk result (λ o. AnswersTrees (ClosesBy (L.ways layers.now) todo.now gives.now) rests.now trees.old trees.new nodes nesting o) }
{
    let mut left = rests;
    let mut sum = 0;
    let mut deepest = 0;
    while let [rest, more @ ..] = left {
        match search(alloc, layers, todo, gives, rest, nodes - sum, nesting)? {
            None => return Ok(None),
            Some(found) => {
                let Measured {
                    tree,
                    nodes: n,
                    nesting: k,
                } = found;
                trees.push(tree)?;
                sum += n;
                deepest = greater(deepest, k);
            }
        }
        left = more;
    }
    Ok(Some((sum, deepest)))
}

// The node of a step, its rests searched.
#[cycle(search)]
fn finished<L: Layers>(
    alloc: Global,
    layers: &L,
    more: &[Todo],
    gives: &[(Name, Arg)],
    rest: &Rest,
    step: Step,
    nodes: u32,
    nesting: u32,
) -> Result<Option<Measured>, AllocError>
    requires { Opens (L.ways layers.now) rest.now step }
    ensures { IfOk result (λ o. AnswersTree (λ r t. IsNode (L.ways layers.now) (ClosesBy (L.ways layers.now) more.now gives.now) r (step.rule, step.args) t) o rest.now nodes nesting) }
{
    let Step {
        rule,
        args,
        proofs: mut trees,
        nodes: own,
        nesting: deep,
        rests,
    } = step;
    if own >= nodes || deep >= nesting {
        return Ok(None);
    }
    match children(
        alloc,
        layers,
        more,
        gives,
        rests.as_slice(),
        nodes - 1 - own,
        nesting - 1,
        &mut trees,
    )? {
        None => Ok(None),
        Some((sum, deepest)) => {
            Ok(over(
                rule,
                args,
                trees,
                (own + sum, greater(deep, deepest)),
                nodes,
                nesting,
            ))
        }
    }
}

// The next thing is done, which is no hint `give`, in a state that isn't plainly false.
#[cycle(search)]
fn stepped<L: Layers>(
    alloc: Global,
    layers: &L,
    x: &Todo,
    more: &[Todo],
    gives: &[(Name, Arg)],
    rest: &Rest,
    nodes: u32,
    nesting: u32,
) -> Result<Option<Measured>, AllocError>
    requires room { has_room rest.now.state ≡ true }
    requires live { (L.ways layers.now).is_false rest.now.state → ⊥ }
    requires makes { given_by x.now ≡ None }
    requires some_nodes { 0 < nodes }
    requires some_nesting { 0 < nesting }
    ensures { IfOk result (λ o. AnswersTree (ClosesBy (L.ways layers.now) (x.now ∷ more.now) gives.now) o rest.now nodes nesting) }
{
    match layers.step(alloc, x, gives, rest, nodes - 1, nesting - 1)? {
        None => Ok(None),
        Some(step) => finished(
            alloc,
            layers,
            more,
            gives_behind(x, rest, gives),
            rest,
            step,
            nodes,
            nesting,
        ),
    }
}

// The next things are done in a state that isn't plainly false: hints `give`, and then one step.
#[cycle(search)]
fn live<L: Layers>(
    alloc: Global,
    layers: &L,
    todo: &[Todo],
    gives: &[(Name, Arg)],
    rest: &Rest,
    nodes: u32,
    nesting: u32,
) -> Result<Option<Measured>, AllocError>
    requires room { has_room rest.now.state ≡ true }
    requires live { (L.ways layers.now).is_false rest.now.state → ⊥ }
    requires some_nodes { 0 < nodes }
    requires some_nesting { 0 < nesting }
    ensures { IfOk result (λ o. AnswersTree (ClosesBy (L.ways layers.now) todo.now gives.now) o rest.now nodes nesting) }
{
    let mut all = copied(alloc, gives)?;
    let mut left = todo;
    while let [x, more @ ..] = left {
        match given(alloc, x, &rest.state)? {
            None => {
                return stepped(alloc, layers, x, more, all.as_slice(), rest, nodes, nesting);
            }
            Some(give) => all.push(give)?,
        }
        left = more;
    }
    Ok(None)
}

/// Searches a tree that closes the rest of a condition by the procedure, where these things are to be done and
/// these names are given, of at most so many nodes and so deep a nesting. `None` where there is no tree, or
/// where one that closes it so is larger.
///
/// # Errors
/// `AllocError` for want of memory.
#[cycle(search)]
pub fn search<L: Layers>(
    alloc: Global,
    layers: &L,
    todo: &[Todo],
    gives: &[(Name, Arg)],
    rest: &Rest,
    nodes: u32,
    nesting: u32,
) -> Result<Option<Measured>, AllocError>
    requires room { has_room rest.now.state ≡ true }
    ensures { IfOk result (λ o. AnswersTree (ClosesBy (L.ways layers.now) todo.now gives.now) o rest.now nodes nesting) }
{
    if todo.len() == 0 || nodes == 0 || nesting == 0 {
        return Ok(None);
    }
    match layers.refute(alloc, &rest.state, nodes - 1, nesting - 1)? {
        Falsity::Shown(proof) => never(alloc, proof, nodes, nesting),
        Falsity::TooLarge => Ok(None),
        Falsity::Not => live(alloc, layers, todo, gives, rest, nodes, nesting),
    }
}
