//! Laws of the definitions. Each function here does nothing: its contract is a law, for every memory,
//! assertion and program.

ghost use Rattle.bed_sat.specs.Laws.{PartsCommute, PartsAssociate, PartsCancel, DeeperIsTrue, PartIsRead, CellIsStored, SlotIsStored, SlotIsRead, RowSplits, RowsJoin, BlocksAreSmall, ScopeDecides, PlacesAreAside, SignaturesAreAside, SubstitutionAgrees, InstancesAgree, RunsBegin, TurnsKeepStates, StepsAreUnique, ReturnsAreSound, ReturnsAreSoundFromAll, ExportedAreAmongAll};
ghost use Rattle.bed_sat.specs.DeclarationLaws.{MoreIsDeclared, FewAreEnough, ConditionsStayValid, ModulesAreExtended, StartsAreKnown, ValidAmongAll};
ghost use Rattle.bed_sat.specs.ConditionLaws.{ListLoopsAreWritten, CodeIsSame, PathsAreSame, PathsEnd, PathsGoOn, ReturnsOweOne, NegationsDecide, OperandsAreTerms};

/// Disjoint parts: their order and their grouping don't matter, and a rest is unique.
pub fn parts()
    ensures commute { PartsCommute }
    ensures associate { PartsAssociate }
    ensures cancel { PartsCancel }
{}

/// Words in memory: what a part has is read from the whole, and a store to a part keeps the others.
pub fn words()
    ensures read { PartIsRead }
    ensures stored { CellIsStored }
{}

/// Words in a row, as frames and blocks have them: their words are read and stored in place, rows
/// split and join, and none has more than 2^30 words.
pub fn rows()
    ensures read { SlotIsRead }
    ensures stored { SlotIsStored }
    ensures split { RowSplits }
    ensures join { RowsJoin }
    ensures small { BlocksAreSmall }
{}

/// The truth of an assertion: it stays at more depth of unfolding, and depends on the variables in its
/// scope alone, and on no place in a text. Nor does it matter where a signature stands.
pub fn truth()
    ensures deeper { DeeperIsTrue }
    ensures scope { ScopeDecides }
    ensures places { PlacesAreAside }
    ensures signatures { SignaturesAreAside }
{}

/// Declarations: an assertion holds under those of one module exactly where it holds under those of all
/// that are linked, and a condition of the module that is valid under its own declarations is valid under
/// those of all. That needs what the linker and the rules of names see to: all together declare no name in
/// two ways, and the module names no predicate that it doesn't declare.
pub fn declarations()
    ensures more { MoreIsDeclared }
    ensures few { FewAreEnough }
    ensures conditions { ConditionsStayValid }
    ensures modules { ModulesAreExtended }
    ensures starts { StartsAreKnown }
    ensures among_all { ValidAmongAll }
{}

/// Substitution: terms in place of variables do what setting the variables to their values does, for
/// one variable in a word, and for all variables at once in the terms of an assertion.
pub fn substitution()
    ensures word { SubstitutionAgrees }
    ensures terms { InstancesAgree }
{}

/// Runs: their beginnings are runs, each turn leads from a state to a state, and a step has one result.
pub fn runs()
    ensures beginnings { RunsBegin }
    ensures states { TurnsKeepStates }
    ensures unique { StepsAreUnique }
{}

/// Code of functions that only return a number or an argument, with the signature that says so, is
/// sound beside every outside, from its exported functions and from all. Code that is sound from all its
/// functions is so from the exported ones.
pub fn returns()
    ensures sound { ReturnsAreSound }
    ensures from_all { ReturnsAreSoundFromAll }
    ensures exported { ExportedAreAmongAll }
{}

/// The conditions of a text: in a body that is written out no `find` and no `walk` is left, and it has
/// the same code, and a path makes the same of it; no path goes on after statements that can't fall
/// through, and one does after those that do, where no statement follows one that can't; and a function of
/// one `return` owes one condition. The negation of a test is true exactly where the test is false, and the
/// words of operands are those of terms.
pub fn conditions()
    ensures written { ListLoopsAreWritten }
    ensures code { CodeIsSame }
    ensures same_paths { PathsAreSame }
    ensures paths { PathsEnd }
    ensures live_paths { PathsGoOn }
    ensures returns { ReturnsOweOne }
    ensures negations { NegationsDecide }
    ensures operands { OperandsAreTerms }
{}
