//! What is to be done along a condition's path.
ghost use Rattle.std.specs.Prelude.{◌≡◌, ◌<◌, ◌++◌, ◌∷◌, [], IfOk, OnOk};
ghost use Rattle.bed_search.specs.Ahead.{hints_at, at_end, todo};
ghost use Rattle.bed_search.specs.declared.ahead.Todo.TheVariants.{Takes};

use bed_lang::{Cond, Goal, Hint, List, Placed};
use std::alloc::{AllocError, Global};

/// A thing to do.
#[derive(Drop)]
pub enum Todo {
    /// Take a hint.
    Takes(Hint),
    /// Make the next action, or the call.
    Makes,
    /// Close the end.
    Ends,
}

fn push_hint(alloc: Global, out: &mut List<Todo>, hint: &Hint) -> Result<(), AllocError>
    ensures { OnOk result (out.new ≡ out.old ++ Takes hint.now ∷ []) }
{
    let hint = hint.copy(alloc)?;
    out.push(Todo::Takes(hint))
}

// The hints that stand before the action of this number.
fn push_hints(
    alloc: Global,
    out: &mut List<Todo>,
    hints: &[Placed],
    n: usize,
) -> Result<(), AllocError>
    ensures { OnOk result (out.new ≡ out.old ++ hints_at hints.now n) }
{
    for placed in hints {
        if placed.before as usize == n {
            push_hint(alloc, out, &placed.hint)?;
        }
    }
    Ok(())
}

// What is to be done behind the last action and its hints.
fn push_end(
    alloc: Global,
    out: &mut List<Todo>,
    hints: &[Placed],
    n: usize,
    goal: &Goal,
) -> Result<(), AllocError>
    requires { n < 9223372036854775808 }
    ensures { OnOk result (out.new ≡ out.old ++ at_end hints.now n goal.now) }
{
    if let Goal::Calls { .. } = goal {
        out.push(Todo::Makes)?;
        push_hints(alloc, out, hints, n + 1)?;
    }
    out.push(Todo::Ends)
}

/// What is to be done along the path of a condition, in order.
///
/// # Errors
/// `AllocError` for want of memory.
pub fn to_do(alloc: Global, c: &Cond) -> Result<List<Todo>, AllocError>
    ensures { IfOk result (λ r. r ≡ todo c.now) }
{
    let hints = c.hints.as_slice();
    let actions = c.actions.as_slice();
    let mut out = List::new(alloc);
    for n in 0..actions.len() {
        push_hints(alloc, &mut out, hints, n)?;
        out.push(Todo::Makes)?;
    }
    push_hints(alloc, &mut out, hints, actions.len())?;
    push_end(alloc, &mut out, hints, actions.len(), &c.goal)?;
    Ok(out)
}
