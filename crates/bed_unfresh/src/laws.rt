//! Laws of modules that stand in a text. The function here does nothing: its contract is a law.
ghost use Rattle.bed_unfresh.specs.Unfresh.{TextsAreUnfresh, ResolvedAreUnfresh, DeclarationsAreUnfresh, ConditionsAreUnfresh};

/// A module that is read from a text names no fresh variable: the grammar has none. It stays so once its
/// arguments are resolved; and what such a module declares and owes names none. So the checker of conditions
/// may be asked of them.
pub fn texts()
    ensures texts { TextsAreUnfresh }
    ensures resolved { ResolvedAreUnfresh }
    ensures declarations { DeclarationsAreUnfresh }
    ensures conditions { ConditionsAreUnfresh }
{
    bed_sat::laws::conditions();
}
