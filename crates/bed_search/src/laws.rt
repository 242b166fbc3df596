//! Laws of nodes. Each function here does nothing: its contract is a law.
ghost use Rattle.bed_search.specs.Laws.{CountsAgree};

/// What the children of a node stand for doesn't hang on their number, where that number passes: so trees may be
/// put in place of one another.
pub fn counts()
    ensures { CountsAgree }
{}
