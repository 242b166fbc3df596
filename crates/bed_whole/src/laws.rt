//! Laws of whole programs. Each function here does nothing: its contract is a law.
ghost use Rattle.bed_whole.specs.Programs.{ValidIsSound};

/// Code is sound, from all its functions and so from the exported ones, where it is that of modules whose
/// functions keep to the rules of names, which fit together and whose conditions are all valid under what
/// their own modules declare. Nothing is asked of the depth of calls, nor of who made the code.
pub fn programs()
    ensures { ValidIsSound }
{
    bed_sat::laws::conditions();
    bed_sat::laws::declarations();
}
