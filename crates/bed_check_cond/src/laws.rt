//! Laws of derivations of whole conditions. Each function here does nothing: its contract is a law.
ghost use Rattle.bed_check_cond.specs.Paths.{DerivedIsValid, FinishCloses, StepCloses};
ghost use Rattle.bed_check_cond.specs.States.{RulesGrow, StepsGrow};

/// The two rules that go along a condition's path: where the facts of a node's children are proved and what
/// it goes on with is closed, so is the rest that it stands for.
pub fn paths()
    ensures step { StepCloses }
    ensures finish { FinishCloses }
{}

/// The states that a rule leaves, and those that an accepted node goes on with, are known where the node's own
/// is, with the same locals and no smaller number for the next fresh variable: so nodes follow one another.
pub fn states()
    ensures rules { RulesGrow }
    ensures steps { StepsGrow }
{}

/// A condition that has a derivation by the thirty rules is valid.
pub fn conditions()
    ensures { DerivedIsValid }
{}
