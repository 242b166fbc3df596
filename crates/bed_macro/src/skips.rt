//! No statement.

ghost use Rattle.std.specs.Prelude.{◌≡◌, ◌↔◌, ◌+◌, ◌∷◌, [], true, refl};
ghost use Rattle.bed_lang.specs.declared.condition.Decls.{Decls};
ghost use Rattle.bed_laws.specs.Activations.{FunctionSite};
ghost use Rattle.bed_laws.specs.StatementBlocks.{empty_block};
ghost use Rattle.bed_laws.proofs.TestLaws.{one_span, no_heads};
ghost use Rattle.bed_laws.proofs.StatementLaws.{empty_law};
ghost use Rattle.bed_laws.proofs.LayLaws.{empty_lays};

use crate::macros::Macro;
use crate::paths::Path;
use crate::sites::Site;
use bed_il::{Block, Jump};
use bed_lang::{Cond, List};
use std::alloc::{AllocError, Global};

/// No statement. It has a block all the same, without instructions, since control comes to a label.
#[derive(Drop)]
pub struct Skip {}

impl Skip {
    /// No statement.
    pub fn new() -> Skip
        ensures stands { ⟦<Skip as Macro>⟧.stands result ≡ [] }
        ensures count { ⟦<Skip as Macro>⟧.count result ≡ 1 }
        ensures comes { ⟦<Skip as Macro>⟧.comes result ≡ true }
        ensures code { ⟦<Skip as Macro>⟧.code result ≡ (λ locals label next. empty_block label next ∷ []) }
        ensures heads { ⟦<Skip as Macro>⟧.heads result ≡ (λ label. []) }
        ensures fits { (d : Decls) (c : FunctionSite) → ⟦<Skip as Macro>⟧.fits result d c ↔ Unit {0} }
    {
        Skip {}
    }
}

impl Macro for Skip {
    ghost stands = { λ m. [] };

    ghost count = { λ m. 1 };

    ghost code = { λ m locals first next. empty_block first next ∷ [] };

    ghost heads = { λ m first. [] };

    ghost comes = { λ m. true };

    ghost fits = { λ m d c. Unit {0} };

    ghost spans = { λ m locals first next. one_span (empty_block first next) [] (λ x is. no_heads x is) };

    ghost numbered = { λ m locals first next. refl };

    ghost falling = { λ m d c f. refl };

    ghost ends = { λ m d c f p. refl };

    ghost keeps = { λ m w c f distinct places first next out from. empty_law w c places first next out from };

    ghost lays = { λ m d c f first next out. empty_lays c.site.locals first next };

    fn falls(&self) -> bool {
        true
    }

    fn labels(&self) -> u32 {
        1
    }

    fn blocks(
        &self,
        alloc: Global,
        _site: &Site,
        first: u32,
        next: u32,
        out: &mut List<Block>,
    ) -> Result<(), AllocError> {
        out.push(Block {
            label: first,
            insts: List::new(alloc),
            jump: Jump::Fall(next),
        })
    }

    fn conditions(
        &self,
        alloc: Global,
        _site: &Site,
        from: &Path,
        _out: &mut List<Cond>,
    ) -> Result<Option<Path>, AllocError> {
        Ok(Some(from.copy(alloc)?))
    }
}
