//! Laws of modules that keep the rules of names. Each function here does nothing: its contract is a law.
ghost use Rattle.bed_scoped.specs.Scoped.{ScopedAreNamed, ScopedIsSound};

/// Modules that break no rule of names are named as the linker's laws ask, once their arguments are resolved; and
/// so, where they can be linked and each of their conditions is valid under what its own module declares, their
/// code is sound, from all its functions.
pub fn modules()
    ensures named { ScopedAreNamed }
    ensures sound { ScopedIsSound }
{
    bed_sat::laws::conditions();
    bed_regular::laws::functions();
    bed_fitting::laws::fitting();
}
