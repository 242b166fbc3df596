//! What a node leaves of the rest of a condition.
ghost use Rattle.std.specs.Prelude.{◌≡◌, ◌∷◌, [], drop, Ok, IfOk};
ghost use Rattle.bed_deriv.specs.Checks.{with_room};
ghost use Rattle.bed_deriv.specs.Steps.{act, call, step, finish, onward_states, onward_of};
ghost use Rattle.bed_check_cond.specs.Points.{rest_of, gone_on, onward_left, AnswersBy};
ghost use Rattle.bed_check_cond.specs.Answered.{changed, onward_at};
ghost use Rattle.bed_check_heap.specs.Steps.{state_table};

use crate::actions::act;
use crate::calls::{CallSite, call};
use crate::ends::finish;
use crate::point::{Ahead, Aim, Left, Moved, Point};
use bed_check_heap::state_rule;
use bed_check_pure::Fault;
use bed_deriv::{DArg, Remainder, Rule, SymState};
use bed_lang::{Action, Decls, Goal, List, Name};
use std::alloc::{AllocError, Global};

fn one_state(alloc: Global, state: SymState) -> Result<List<SymState>, AllocError>
    ensures { IfOk result (λ r. r ≡ state ∷ []) }
{
    let mut states = List::new(alloc);
    states.push(state)?;
    Ok(states)
}

// What a step leaves, with what lies ahead of it then, where its state has room.
fn in_room<'a>(alloc: Global, moved: Moved, ahead: Ahead<'a>) -> Result<Left<'a>, Fault>
    ensures { AnswersBy onward_left result (with_room onward_states (Ok (gone_on moved ahead.entry))) }
{
    let Moved { goals, state } = moved;
    if !state.has_room() {
        return Err(Fault::Condition);
    }
    match one_state(alloc, state) {
        Err(_) => Err(Fault::Memory),
        Ok(states) => Ok(Left {
            goals,
            states,
            ahead,
        }),
    }
}

// The next action.
fn step_action<'a>(
    alloc: Global,
    at: &Point<'a>,
    action: &Action,
    more: &'a [Action],
    args: &[DArg],
    n: usize,
) -> Result<Left<'a>, Fault>
    requires { more.now ≡ drop 1 at.now.ahead.actions.now }
    ensures { AnswersBy onward_left result (onward_of (act (rest_of at.now) action.now args.now n)) }
{
    let ahead = Ahead {
        actions: more,
        aim: at.ahead.aim,
    };
    match act(alloc, at, action, args, n) {
        Err(fault) => Err(fault),
        Ok(moved) => in_room(alloc, moved, ahead),
    }
}

// The call where the actions are used up.
fn step_call<'a>(
    alloc: Global,
    decls: &Decls,
    at: &Point<'a>,
    made: CallSite<'a>,
    args: &[DArg],
    n: usize,
) -> Result<Left<'a>, Fault>
    ensures { AnswersBy onward_left result (onward_of (call decls.now (rest_of at.now) made.entry.target.now made.entry.via.now made.entry.operands.now made.entry.into.now made.entry.after.now args.now n)) }
{
    let ahead = Ahead {
        actions: &[],
        aim: Aim::Behind(made.after),
    };
    match call(alloc, decls, at, &made, args, n) {
        Err(fault) => Err(fault),
        Ok(moved) => in_room(alloc, moved, ahead),
    }
}

// The next action, or the call where the actions are used up.
fn step<'a>(
    alloc: Global,
    decls: &Decls,
    at: &Point<'a>,
    args: &[DArg],
    n: usize,
) -> Result<Left<'a>, Fault>
    ensures { AnswersBy onward_left result (onward_of (step decls.now (rest_of at.now) args.now n)) }
{
    match at.ahead.actions {
        [action, more @ ..] => step_action(alloc, at, action, more, args, n),
        [] => match at.ahead.aim {
            Aim::Whole(
                Goal::Calls {
                    target,
                    via,
                    args: operands,
                    into,
                    after,
                },
            ) => {
                let made = CallSite {
                    target,
                    via,
                    operands: operands.as_slice(),
                    into,
                    after,
                };
                step_call(alloc, decls, at, made, args, n)
            }
            _ => Err(Fault::Condition),
        },
    }
}

// The end of a path.
fn end<'a>(
    alloc: Global,
    decls: &Decls,
    function: &Name,
    at: &Point<'a>,
    args: &[DArg],
    n: usize,
) -> Result<Left<'a>, Fault>
    ensures { AnswersBy onward_left result (onward_of (finish decls.now function.now (rest_of at.now) args.now n)) }
{
    match finish(alloc, decls, function, at, args, n) {
        Err(fault) => Err(fault),
        Ok(goals) => Ok(Left {
            goals,
            states: List::new(alloc),
            ahead: at.ahead,
        }),
    }
}

// A rule that changes the state alone.
fn change<'a>(
    alloc: Global,
    decls: &Decls,
    at: &Point<'a>,
    rule: Rule,
    args: &[DArg],
    n: usize,
) -> Result<Left<'a>, Fault>
    ensures { AnswersBy onward_left result (changed (rest_of at.now) (state_table decls.now rule at.now.state args.now n)) }
{
    match state_rule(alloc, decls, rule, &at.state, args, n) {
        Err(fault) => Err(fault),
        Ok(Remainder { goals, states }) => Ok(Left {
            goals,
            states,
            ahead: at.ahead,
        }),
    }
}

/// What a node with this rule, these arguments and `n` children leaves of the rest of a condition at `at`: the facts
/// that its first children are to prove, and the states from which the others go on.
///
/// # Errors
/// The first premise of the rule that fails: `Count` for a wrong number of children, `Argument` for arguments that
/// are none of the rule's, `Condition` where the rule doesn't hold here. `Memory` for want of memory.
pub fn onward<'a>(
    alloc: Global,
    decls: &Decls,
    function: &Name,
    at: &Point<'a>,
    rule: Rule,
    args: &[DArg],
    n: usize,
) -> Result<Left<'a>, Fault>
    ensures exact { AnswersBy onward_left result (onward_at decls.now function.now rule (rest_of at.now) args.now n) }
{
    match rule {
        Rule::Step => step(alloc, decls, at, args, n),
        Rule::Finish => end(alloc, decls, function, at, args, n),
        _ => change(alloc, decls, at, rule, args, n),
    }
}
