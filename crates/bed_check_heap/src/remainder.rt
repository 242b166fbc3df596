//! What a node leaves: facts to be proved, and states to go on with.
ghost use Rattle.std.specs.Prelude.{◌≡◌, ◌∷◌, [], IfOk};
ghost use Rattle.bed_deriv.specs.Checks.{have_room, with_fact};
ghost use Rattle.bed_check_heap.specs.Parts.{goal_and};

use bed_deriv::{Remainder, SymState};
use bed_lang::{List, Pure, Word};
use std::alloc::{AllocError, Global};

/// Nothing to prove.
pub(crate) fn no_goals(alloc: Global) -> List<Pure>
    ensures { result ≡ [] }
{
    List::new(alloc)
}

/// A state to go on with, and nothing to prove.
pub(crate) fn only_state(alloc: Global, state: SymState) -> Result<Remainder, AllocError>
    ensures { IfOk result (λ m. m ≡ record { goals = []; states = state ∷ [] }) }
{
    let mut states = List::new(alloc);
    states.push(state)?;
    Ok(Remainder {
        goals: no_goals(alloc),
        states,
    })
}

/// One fact to prove, and a state to go on with.
pub(crate) fn goal_and_state(
    alloc: Global,
    goal: Pure,
    state: SymState,
) -> Result<Remainder, AllocError>
    ensures { IfOk result (λ m. m ≡ record { goals = goal ∷ []; states = state ∷ [] }) }
{
    let mut goals = List::new(alloc);
    goals.push(goal)?;
    let mut states = List::new(alloc);
    states.push(state)?;
    Ok(Remainder { goals, states })
}

/// These facts to prove, and a state to go on with.
pub(crate) fn goals_and_state(
    alloc: Global,
    goals: List<Pure>,
    state: SymState,
) -> Result<Remainder, AllocError>
    ensures { IfOk result (λ m. m ≡ record { goals = goals; states = state ∷ [] }) }
{
    let mut states = List::new(alloc);
    states.push(state)?;
    Ok(Remainder { goals, states })
}

/// That a word is this number, and a state to go on with.
pub(crate) fn equal_and_state(
    alloc: Global,
    word: &Word,
    number: u32,
    state: SymState,
) -> Result<Remainder, AllocError>
    ensures { IfOk result (λ m. m ≡ goal_and (Pure.Equal word.now (Word.Number number)) state) }
{
    let word = word.copy(alloc)?;
    goal_and_state(alloc, Pure::Equal(word, Word::Number(number)), state)
}

/// Two states to go on with, and nothing to prove.
pub(crate) fn two_states(
    alloc: Global,
    first: SymState,
    second: SymState,
) -> Result<Remainder, AllocError>
    ensures { IfOk result (λ m. m ≡ record { goals = []; states = first ∷ second ∷ [] }) }
{
    let mut states = List::new(alloc);
    states.push(first)?;
    states.push(second)?;
    Ok(Remainder {
        goals: no_goals(alloc),
        states,
    })
}

/// Whether each state has room.
pub(crate) fn states_have_room(states: &[SymState]) -> bool
    ensures { result ≡ have_room states.now }
{
    let mut rest = states;
    while let [state, more @ ..] = rest {
        if !state.has_room() {
            return false;
        }
        rest = more;
    }
    true
}
