//! What the definitions of the rules say, as laws and by examples.
ghost use Rattle.bed_names.specs.Laws.{RefusalIsFault, FaultsAreRefused, NoFaultGoesBefore, NoBareArgumentIsLeft, ResolvingKeepsSkeletons, SecondReturnIsDead, CallsNeedRoom};

/// What is refused is one of the faults, no fault goes before it, and where there is a fault
/// something is refused.
pub fn refusals()
    ensures is_fault { RefusalIsFault }
    ensures refused { FaultsAreRefused }
    ensures least { NoFaultGoesBefore }
{}

/// Two worked modules: a statement behind a `return`, and the room that a call needs.
pub fn examples()
    ensures dead { SecondReturnIsDead }
    ensures room { CallsNeedRoom }
{}

/// Where the names of a module are resolved, no bare argument is left, and nothing is changed that
/// code reads.
pub fn resolving()
    ensures no_bare_argument { NoBareArgumentIsLeft }
    ensures same_skeleton { ResolvingKeepsSkeletons }
{}
