//! What it is that a goal is plain in a state: the definitions of solving and of the trees that then close
//! a goal, with their laws.
#![tactic(auto)]

ghost use Rattle.std.specs.Prelude.{◌≡◌};
ghost use Rattle.bed_plain.specs.Trees.{node};

pub mod laws;
mod solved;

use bed_deriv::{DArg, Deriv, Rule};
use bed_lang::List;
pub use solved::Solved;

/// A node of a derivation: its rule with arguments, over the derivations of its children.
pub fn node(rule: Rule, args: List<DArg>, children: List<Deriv>) -> Deriv
    ensures { result ≡ node rule args children }
{
    Deriv {
        rule,
        args,
        children,
    }
}
