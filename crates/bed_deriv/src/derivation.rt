//! Derivations: trees of rules with their arguments.
ghost use Rattle.std.specs.Prelude.{◌≡◌, IfOk};

use bed_lang::{Arg, List, Name, Pure, Word};
use std::alloc::{AllocError, Global};

/// The rules. `Hyp` to `Label` prove a fact in a state, `Claim` to `Shape` change the state of the rest
/// of a condition, `Step` goes along its path, and `Finish` closes it.
#[derive(Clone, Copy, PartialEq, Eq)]
pub enum Rule {
    Hyp,
    Norm,
    Comb,
    Solve,
    Uncons,
    Chain,
    Order,
    Cut,
    Carry,
    Split,
    Absurd,
    Void,
    Member,
    Lacks,
    Part,
    One,
    Distinct,
    Bound,
    Label,
    Claim,
    When,
    Never,
    Unfold,
    Fold,
    Append,
    Divide,
    Merge,
    Shape,
    Step,
    Finish,
}

/// An edge of a chain: the value of one word is at most that of another plus a weight. The number is that
/// of a fact `a < b`, `a <= b` or `a = b`, from 1.
#[derive(Drop)]
pub enum Edge {
    /// From a to b, with -1 for `<` and 0 else.
    F(u32),
    /// From b to a with 0, for `=`.
    G(u32),
    /// From a to b with -c, where b - a is a constant c above 0, for `<` and `<=`.
    X(u32),
    /// From b to a with c, likewise.
    Y(u32),
    /// From a + 1 to a with 1, for `<`.
    P(u32),
    /// From a to a + 1 with -1, for `<`.
    Q(u32),
    /// From b to b - 1 with 1, for `<`.
    R(u32),
    /// From b - 1 to b with -1, for `<`.
    S(u32),
    /// From a constant m to this number n, with m - n.
    K(u32),
    /// From 0 to this word with 0.
    Z(Word),
    /// From anything to 4294967295 with 0.
    H,
}

/// An argument of a node.
#[derive(Drop)]
pub enum DArg {
    /// A number: of a fact, an atom, a piece or a case, or a word.
    Number(u32),
    /// A word or a sequence.
    Arg(Arg),
    /// A fact.
    Pure(Pure),
    /// A name: of a predicate, or of a logical variable.
    Name(Name),
    /// An edge of a chain.
    Edge(Edge),
}

/// A derivation: a rule with its arguments, and the derivations of what it leaves to prove.
#[derive(Drop)]
pub struct Deriv {
    pub rule: Rule,
    pub args: List<DArg>,
    pub children: List<Deriv>,
}

impl Edge {
    /// A copy, equal to the original.
    ///
    /// # Errors
    /// `AllocError` for want of memory.
    pub fn copy(&self, alloc: Global) -> Result<Edge, AllocError>
        ensures { IfOk result (λ r. r ≡ self.now) }
    {
        match self {
            Edge::F(i) => Ok(Edge::F(*i)),
            Edge::G(i) => Ok(Edge::G(*i)),
            Edge::X(i) => Ok(Edge::X(*i)),
            Edge::Y(i) => Ok(Edge::Y(*i)),
            Edge::P(i) => Ok(Edge::P(*i)),
            Edge::Q(i) => Ok(Edge::Q(*i)),
            Edge::R(i) => Ok(Edge::R(*i)),
            Edge::S(i) => Ok(Edge::S(*i)),
            Edge::K(n) => Ok(Edge::K(*n)),
            Edge::Z(e) => Ok(Edge::Z(e.copy(alloc)?)),
            Edge::H => Ok(Edge::H),
        }
    }
}

impl DArg {
    /// A copy, equal to the original.
    ///
    /// # Errors
    /// `AllocError` for want of memory.
    pub fn copy(&self, alloc: Global) -> Result<DArg, AllocError>
        ensures { IfOk result (λ r. r ≡ self.now) }
    {
        match self {
            DArg::Number(n) => Ok(DArg::Number(*n)),
            DArg::Arg(a) => Ok(DArg::Arg(a.copy(alloc)?)),
            DArg::Pure(p) => Ok(DArg::Pure(p.copy(alloc)?)),
            DArg::Name(x) => Ok(DArg::Name(x.copy(alloc)?)),
            DArg::Edge(e) => Ok(DArg::Edge(e.copy(alloc)?)),
        }
    }
}
