//! Laws of modules that keep the rules of names. Each function here does nothing: its contract is a law.
ghost use Rattle.bed_regular.specs.Regular.{ScopedAreRegular, RegularKeepLaws};

/// Each function of a module that keeps the rules of names is regular, once its arguments are resolved, and
/// the blocks of a regular function fit, are the code table's bytes, and keep both laws.
pub fn functions()
    ensures regular { ScopedAreRegular }
    ensures laws { RegularKeepLaws }
{
    bed_names::laws::refusals();
}
