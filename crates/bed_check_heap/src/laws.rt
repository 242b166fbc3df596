//! Laws of the checker of the rest of a condition. Each function here does nothing: its contract is a law.

ghost use Rattle.bed_check_heap.specs.Laws.{ClaimKeeps, WhenKeeps, NeverKeeps, UnfoldKeeps, FoldKeeps, AppendKeeps, DivideKeeps, MergeKeeps, ShapeKeeps, StepsLead, MatchesMeet};

/// Rules for facts: where a rule's premises hold, the facts of its first children are true and its state
/// holds, some state that it goes on with holds on the same memory.
pub fn facts()
    ensures claim { ClaimKeeps }
    ensures when { WhenKeeps }
    ensures never { NeverKeeps }
{}

/// The same of rules for predicates: an atom gives way to one of its cases, with values for its binders'
/// fresh variables; atoms that match a case give way to the predicate's; two list segments become one.
pub fn predicates()
    ensures unfold { UnfoldKeeps }
    ensures fold { FoldKeeps }
    ensures append { AppendKeeps }
{}

/// The same of rules that give a part of memory another shape; a new fresh variable has the content that
/// is there.
pub fn parts()
    ensures divide { DivideKeeps }
    ensures merge { MergeKeeps }
    ensures shape { ShapeKeeps }
{}

/// What an accepted node and an accepted match mean: one of the states that the node goes on with holds
/// wherever its own does, and the atoms that the match takes meet its goal.
pub fn nodes()
    ensures steps { StepsLead }
    ensures matches { MatchesMeet }
{}
