//! Laws of linking. Each function here does nothing: its contract is a law, for all modules, given addresses and bases.
ghost use Rattle.bed_link.specs.Laws.{FunctionsStand, CodeFits, ImportsAreGiven, ImportsLieOutside};

/// Where linked modules stand: each function at the address of its name, all code within its greatest length and below 2^32, and
/// each import of the outside at the address that is given for it, outside the code.
pub fn standing()
    ensures functions { FunctionsStand }
    ensures code { CodeFits }
    ensures imports { ImportsAreGiven }
    ensures outside { ImportsLieOutside }
{}
