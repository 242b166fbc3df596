//! Examples of the definitions. Each function here does nothing: its contract is an example.

ghost use Rattle.bed_sat.specs.Examples.{BlockExample, ForgottenExample, SegmentExample, NowhereExample, WrapExample, SevenExample, TwoFunctionsExample, EightExample, LooseExample, NoFunctionsExample};
ghost use Rattle.bed_sat.specs.SoundExamples.{SpinningExample, WrongInvariantExample, StartersCellExample, StrayExample, UndefinedExample, OverwritingExample, JumpingExample, CallingExample, DishonestExample, UnmetCallExample, TailCallExample, CountingLinkExample, ImportingLinkExample, TwoModulesLinkExample};
ghost use Rattle.bed_sat.specs.BodyExamples.{WrongAfterExample, NoCellExample, DroppedCellExample, CellStaysExample, UnknownTargetExample, StoringExample, ByteExample, UnmappedStoreExample, LiveBodiesExample};
ghost use Rattle.bed_sat.specs.ConditionExamples.{CountingExample, JoiningExample, CountingIsValidExample, CallIsValidExample, ForgottenCellExample, UnmappedLoadExample, WrappingSumExample};
ghost use Rattle.bed_sat.specs.ListLoopExamples.{FindingExample, WalkingExample};

/// Assertions on small memories: a block and a list segment hold on exactly their bytes, an assertion
/// that forgets a cell doesn't, a byte above 255 and a cell whose last byte has no address hold
/// nowhere, and a block may go on at address 0.
pub fn assertions()
    ensures block { BlockExample }
    ensures forgotten { ForgottenExample }
    ensures segment { SegmentExample }
    ensures nowhere { NowhereExample }
    ensures wraps { WrapExample }
{}

/// Small programs: one that returns what it says is sound and has a start, two functions of this kind
/// are sound too, and one that returns another number isn't. A program with an empty list of functions
/// is sound whatever its code. Some specifications of the outside are such that no answer meets them.
pub fn programs()
    ensures sound { SevenExample }
    ensures several { TwoFunctionsExample }
    ensures unsound { EightExample }
    ensures empty_list { NoFunctionsExample }
    ensures unanswered { LooseExample }
{}

/// Code of one jump: to itself, with a loop there, it is sound, and with a wrong invariant it isn't;
/// what the starter has meets no precondition and no invariant. Code is unsound by one clause each: it
/// leaves the code, comes to a byte that begins no instruction, loses a byte of the starter's, or comes
/// to a function whose precondition isn't met.
pub fn soundness()
    ensures spinning { SpinningExample }
    ensures wrong_invariant { WrongInvariantExample }
    ensures starters_cell { StartersCellExample }
    ensures stray { StrayExample }
    ensures undefined { UndefinedExample }
    ensures overwriting { OverwritingExample }
    ensures jumping { JumpingExample }
{}

/// Calls of the outside: code that calls an import and relies on what the caller keeps is sound, and
/// the call has an answer; a state that is no honest answer is no turn. A call whose precondition isn't
/// met isn't fine, nor is one whose return address isn't in the code.
pub fn outside()
    ensures calling { CallingExample }
    ensures dishonest { DishonestExample }
    ensures unmet_call { UnmetCallExample }
    ensures tail_call { TailCallExample }
{}

/// What stands where in the code of small modules: the function and the loop of the one that counts,
/// with the loop's locals and invariant, the import of one with a call, and all of two modules of which the
/// second imports a function of the first, and one of the outside.
pub fn links()
    ensures counting { CountingLinkExample }
    ensures importing { ImportingLinkExample }
    ensures two_modules { TwoModulesLinkExample }
{}

/// The conditions of small texts: of a loop that counts, of a `find` and of a `walk`, whole; and of a body
/// with a join and a call their places, the numbers of their actions and where their hints stand. A body of
/// which one part returns is live, and one with a statement behind a `return` isn't.
pub fn conditions()
    ensures counting { CountingExample }
    ensures joining { JoiningExample }
    ensures finding { FindingExample }
    ensures walking { WalkingExample }
    ensures live { LiveBodiesExample }
{}

/// Valid conditions: those of the loop that counts and those of a body with a call are; a condition
/// that forgets a cell, one that loads where there is none and one whose sum may wrap aren't.
pub fn validity()
    ensures counting { CountingIsValidExample }
    ensures calling { CallIsValidExample }
    ensures forgotten { ForgottenCellExample }
    ensures unmapped { UnmappedLoadExample }
    ensures wraps { WrappingSumExample }
{}

/// Conditions of bodies with a call: not valid are one whose answer isn't as `after` says, one whose
/// precondition needs a cell that isn't there, and one beside a cell of which `after` doesn't speak;
/// where it does, the call beside the cell is valid. A call of what isn't known to be code doesn't hold.
pub fn calls()
    ensures wrong_after { WrongAfterExample }
    ensures no_cell { NoCellExample }
    ensures dropped_cell { DroppedCellExample }
    ensures cell_stays { CellStaysExample }
    ensures unknown_target { UnknownTargetExample }
{}

/// Conditions of bodies with a store and a load: those of a word and of a byte are valid, and one with
/// a store where there is no cell isn't.
pub fn accesses()
    ensures word { StoringExample }
    ensures byte { ByteExample }
    ensures unmapped { UnmappedStoreExample }
{}
