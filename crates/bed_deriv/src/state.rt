//! States: what is known at a point of a path.
ghost use Rattle.std.specs.Prelude.{◌≡◌, ◌∷◌, ◌++◌, [], IfOk};
ghost use Rattle.bed_deriv.specs.Checks.{has_room, with_fact};

use bed_lang::{Atom, List, Name, Pure, Tree, Word};
use std::alloc::{AllocError, Global};

const LIMIT: u64 = 4_294_967_296;

/// What is known at a point of a path. Facts and atoms are numbered from 1.
#[derive(Drop)]
pub struct SymState {
    /// Each local with its term.
    pub locals: List<(Name, Word)>,
    /// Facts that are true.
    pub facts: List<Pure>,
    /// Atoms into which the memory is split, exactly.
    pub atoms: List<Atom>,
    /// The number of the next fresh variable: each one in the state has a smaller number.
    pub next: u32,
}

/// A fact to be proved in a state.
#[derive(Drop)]
pub struct Sequent {
    pub state: SymState,
    pub goal: Pure,
}

/// What a rule leaves of the rest of a condition: facts to be proved in the node's own state, and the
/// states from which the rest goes on.
#[derive(Drop)]
pub struct Remainder {
    pub goals: List<Pure>,
    pub states: List<SymState>,
}

impl SymState {
    /// A copy, equal to the original.
    ///
    /// # Errors
    /// `AllocError` for want of memory.
    pub fn copy(&self, alloc: Global) -> Result<SymState, AllocError>
        ensures { IfOk result (λ r. r ≡ self.now) }
    {
        Ok(SymState {
            locals: self.locals.copied(alloc)?,
            facts: self.facts.copied(alloc)?,
            atoms: self.atoms.copied(alloc)?,
            next: self.next,
        })
    }

    /// Whether the numbers of the next fresh variable, of the last fact and of the last atom are at most
    /// 4294967295.
    pub fn has_room(&self) -> bool
        ensures { result ≡ has_room self.now }
    {
        u64::from(self.next) < LIMIT
            && (self.facts.len() as u64) < LIMIT
            && (self.atoms.len() as u64) < LIMIT
    }

    /// The state with a further fact, at the end of the list.
    ///
    /// # Errors
    /// `AllocError` for want of memory.
    pub fn with_fact(&self, alloc: Global, fact: Pure) -> Result<SymState, AllocError>
        ensures { IfOk result (λ r. r ≡ with_fact self.now fact) }
    {
        let last = alone(alloc, fact)?;
        self.with_last(alloc, last)
    }

    // The state with these facts behind its own.
    fn with_last(&self, alloc: Global, last: List<Pure>) -> Result<SymState, AllocError>
        ensures { IfOk result (λ r. r ≡ record self.now { facts = self.now.facts ++ last }) }
    {
        let mut state = self.copy(alloc)?;
        state.facts.append(last)?;
        Ok(state)
    }
}

// A list of one fact. (A fact of its own that is alive where a call fails is dear to prove; a list isn't.)
fn alone(alloc: Global, fact: Pure) -> Result<List<Pure>, AllocError>
    ensures { IfOk result (λ r. r ≡ fact ∷ []) }
{
    let mut one = List::new(alloc);
    one.push(fact)?;
    Ok(one)
}
