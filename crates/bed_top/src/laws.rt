//! Laws of the definitions that the promises of the top call speak of. Each function here does nothing:
//! its contract is a law.

ghost use Rattle.bed_top.specs.Laws.{ResolvedHaveTheImage};

/// The image of modules with their names resolved is that of the modules as they were read: code reads
/// no argument of a predicate.
pub fn images()
    ensures { ResolvedHaveTheImage }
{}
