//! A step of solving.

use bed_deriv::{DArg, Rule, SymState};
use bed_lang::{Arg, List, Var};

/// A step of solving: the fact that it takes, its node, what goals are read with from then on, and the
/// state that it leaves.
#[derive(Drop)]
pub struct Solved {
    /// The number of the fact, from 1.
    pub fact: u32,
    pub rule: Rule,
    pub args: List<DArg>,
    /// The variable that gave way, with its value; None where a fact was taken apart.
    pub reading: Option<(Var, Arg)>,
    pub state: SymState,
}
