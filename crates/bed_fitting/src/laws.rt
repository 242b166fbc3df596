//! Laws of linked modules. Each function here does nothing: its contract is a law.
ghost use Rattle.bed_fitting.specs.Fitting.{LinkableFit, LinkedIsSound};

/// Modules that keep to the rules of names and that the linker accepts fit together, and so their code is
/// sound, from all its functions, where each of their conditions is valid under what its own module declares.
pub fn fitting()
    ensures fit { LinkableFit }
    ensures sound { LinkedIsSound }
{
    bed_link::laws::standing();
    bed_whole::laws::programs();
}
