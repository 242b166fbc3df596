//! Nodes over trees whose sizes are known.
ghost use Rattle.std.specs.Prelude.{◌≡◌, ◌∷◌, [], map, max, IfOk};
ghost use Rattle.bed_deriv.specs.declared.derivation.Rule.TheVariants.{Never};
ghost use Rattle.bed_plain.specs.Trees.{node, total, greatest, nodes as nodes_of, nesting as nesting_of};
ghost use Rattle.bed_search.specs.Answers.{IsMeasured};
ghost use Rattle.bed_search.specs.Layers.{AnswersNode};

use crate::tree::Measured;
use bed_deriv::{DArg, Deriv, Rule};
use bed_lang::List;
use std::alloc::{AllocError, Global};

/// A node over trees that have so many nodes together and so deep a nesting, where it keeps to the bounds.
#[tactic(auto, using(crate::proofs::RefusedLaws::nodes_of_node, crate::proofs::RefusedLaws::nesting_of_node))]
pub(crate) fn over(
    rule: Rule,
    args: List<DArg>,
    children: List<Deriv>,
    below: (u32, u32),
    nodes: u32,
    nesting: u32,
) -> Option<Measured>
    requires counted { total (map nodes_of children) ≡ below.0 }
    requires measured { greatest (map nesting_of children) ≡ below.1 }
    ensures { AnswersNode result (node rule args children) nodes nesting }
{
    if below.0 >= nodes || below.1 >= nesting {
        return None;
    }
    Some(Measured {
        tree: Deriv {
            rule,
            args,
            children,
        },
        nodes: below.0 + 1,
        nesting: below.1 + 1,
    })
}

/// The node `never` over a tree that derives `1 = 0`.
pub(crate) fn never(
    alloc: Global,
    proof: Measured,
    nodes: u32,
    nesting: u32,
) -> Result<Option<Measured>, AllocError>
    requires { IsMeasured proof }
    ensures { IfOk result (λ o. AnswersNode o (node Never [] (proof.tree ∷ [])) nodes nesting) }
{
    let Measured {
        tree,
        nodes: n,
        nesting: k,
    } = proof;
    let args = List::new(alloc);
    let mut children = List::new(alloc);
    children.push(tree)?;
    Ok(over(Rule::Never, args, children, (n, k), nodes, nesting))
}

/// The greater of two numbers.
pub(crate) fn greater(a: u32, b: u32) -> u32
    ensures { result ≡ max a b }
{
    if a <= b { b } else { a }
}
