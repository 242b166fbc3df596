//! Laws of code that is blocks laid out. Each function here does nothing: its contract is a law.

ghost use Rattle.bed_layout.specs.Laws.{KeptIsSoundFromAll, KeptIsSound, WrittenIsSoundFromAll, PiecesAreCode};
ghost use Rattle.bed_layout.specs.Bodies.{BodiesKeep};

/// Code is sound, from all its functions and so from the exported ones, where it is functions laid out
/// one right after the other whose blocks fit and keep their specifications. Nothing is asked of the
/// macros that made the blocks, and nothing of the depth of calls; a call by a stored address is one
/// like any other. So it is where the blocks are those of statements whose conditions hold.
pub fn sound()
    ensures from_all { KeptIsSoundFromAll }
    ensures from_exported { KeptIsSound }
    ensures of_statements { WrittenIsSoundFromAll }
{}

/// The blocks of a function keep its specification where those of its body keep the first law and the
/// body's conditions hold: its first block saves the return address, and at a return the postcondition is met
/// under the values with which the function was entered.
pub fn bodies()
    ensures { BodiesKeep }
{}

/// The code is the bytes of its functions in order, as `Layer::fill` gives them, where functions have the
/// addresses at which they stand.
pub fn pieces()
    ensures { PiecesAreCode }
{}
