//! Laws of the definitions. Each function here does nothing: its contract is a law.

ghost use Rattle.std.specs.Prelude.{ℕ, List};
ghost use Rattle.bed_il.specs.Laws.{SizesAreLengths, BytesOfInstructions, BytesOfJumps};

/// The bytes of blocks: those of each instruction and jump, and how many there are.
pub fn bytes()
    ensures instructions { (functions : List ℕ → ℕ) (places : ℕ → ℕ) → BytesOfInstructions functions places }
    ensures jumps { (places : ℕ → ℕ) (at : ℕ) → BytesOfJumps places at }
    ensures sizes { SizesAreLengths }
{}
