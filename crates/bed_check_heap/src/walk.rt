//! The first children of a node, which prove facts in its own state.
ghost use Rattle.std.specs.Prelude.{◌≡◌, IfOk};
ghost use Rattle.bed_deriv.specs.Checks.{sequent};
ghost use Rattle.bed_deriv.specs.Walk.{walk};
ghost use Rattle.bed_check_pure.specs.Answers.{goal_table};
ghost use Rattle.bed_check_pure.specs.Faults.{AnswersWalk};
ghost use Rattle.bed_deriv.specs.Nodes.{children_walked};

use bed_check_pure::{Verdict, check_sequent};
use bed_deriv::{Deriv, Sequent, SymState};
use bed_lang::{Decls, Pure};
use std::alloc::{AllocError, Global};

fn sequent(alloc: Global, s: &SymState, goal: &Pure) -> Result<Sequent, AllocError>
    ensures { IfOk result (λ q. q ≡ sequent s.now goal.now) }
{
    let state = s.copy(alloc)?;
    let goal = goal.copy(alloc)?;
    Ok(Sequent { state, goal })
}

fn child_walked(
    alloc: Global,
    decls: &Decls,
    s: &SymState,
    goal: &Pure,
    child: &Deriv,
    node: u32,
) -> Result<u32, Verdict>
    ensures { AnswersWalk result (walk (goal_table decls.now) child.now (sequent s.now goal.now) node) }
{
    match sequent(alloc, s, goal) {
        Err(_) => Err(Verdict::Memory),
        Ok(q) => check_sequent(alloc, decls, &q, child, node),
    }
}

/// Checks that the first children prove these goals in this state, in order, and gives the number after
/// their last node; the first child has number `node`.
///
/// # Errors
/// `Reject` exactly where one of them is refused: the first node in preorder that is no instance of its
/// rule, with its first failing premise. `Memory` for want of memory, and where there are
/// 4294967295 nodes or more.
pub fn children_walked(
    alloc: Global,
    decls: &Decls,
    s: &SymState,
    children: &[Deriv],
    goals: &[Pure],
    node: u32,
) -> Result<u32, Verdict>
    ensures { AnswersWalk result (children_walked (goal_table decls.now) s.now children.now goals.now node) }
{
    let mut at = node;
    let mut rest = goals;
    for child in children {
        match rest {
            [] => return Ok(at),
            [goal, more @ ..] => {
                at = child_walked(alloc, decls, s, goal, child, at)?;
                rest = more;
            }
        }
    }
    Ok(at)
}
