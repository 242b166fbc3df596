//! Laws of plain goals. The function here does nothing: its contract is a law.
ghost use Rattle.bed_plain.specs.Laws.{PlainTreesAreAccepted, ChainsAreTrue};

/// A tree that closes a plain goal derives it: each of its nodes is an instance of its rule, whatever
/// number its root has. A chain that closes a goal is true of every solution of the constraints that the
/// facts make; so where a solution isn't as the goal says, no chain closes it.
pub fn plain_goals()
    ensures accepted { PlainTreesAreAccepted }
    ensures chains { ChainsAreTrue }
{}
