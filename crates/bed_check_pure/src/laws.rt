//! Laws of the checker of facts: each rule for a fact is sound. Wherever the goals that a node leaves to
//! its children follow from their states, its own goal follows from its state: for all values, every
//! memory, and all code maps and addresses that fit the declared labels. Each function here does nothing:
//! its contract is a law.
ghost use Rattle.bed_check_pure.specs.Laws.{HypIsSound, NormIsSound, CombIsSound, SolveIsSound, UnconsIsSound, ChainIsSound, OrderIsSound, CutIsSound, CarryIsSound, SplitIsSound, AbsurdIsSound, VoidIsSound, MemberIsSound, LacksIsSound, PartIsSound, OneIsSound, DistinctIsSound, BoundIsSound, LabelIsSound};

/// Rules that take a fact from the state, prove it by its normal form or by cases, or read it off the
/// atoms.
pub fn facts()
    ensures hyp { HypIsSound }
    ensures norm { NormIsSound }
    ensures order { OrderIsSound }
    ensures cut { CutIsSound }
    ensures carry { CarryIsSound }
    ensures split { SplitIsSound }
    ensures absurd { AbsurdIsSound }
    ensures distinct { DistinctIsSound }
    ensures bound { BoundIsSound }
{}

/// Rules that calculate: sums of equations, an equation solved for a variable, and chains of comparisons.
pub fn words()
    ensures comb { CombIsSound }
    ensures solve { SolveIsSound }
    ensures chain { ChainIsSound }
{}

/// Rules on sequences and what is in them.
pub fn lists()
    ensures uncons { UnconsIsSound }
    ensures void { VoidIsSound }
    ensures member { MemberIsSound }
    ensures lacks { LacksIsSound }
    ensures part { PartIsSound }
    ensures one { OneIsSound }
{}

/// The rule on the code at a label.
pub fn labels()
    ensures { LabelIsSound }
{}
