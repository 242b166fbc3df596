//! `hint h`.

ghost use Rattle.std.specs.Prelude.{◌≡◌, ◌↔◌, ◌+◌, ◌∷◌, [], true, refl};
ghost use Rattle.bed_lang.specs.declared.condition.Decls.{Decls};
ghost use Rattle.bed_lang.specs.declared.statement.StmtKind.{Hint as HintKind};
ghost use Rattle.bed_laws.specs.Activations.{FunctionSite};
ghost use Rattle.bed_laws.specs.StatementBlocks.{empty_block};
ghost use Rattle.bed_macro_data.specs.Kinds.{statement};
ghost use Rattle.bed_macro_data.specs.StatementLaws.{spans_one, hint_ends, hint_keeps, hint_lay, hint_falls};

use crate::instructions::push_row;
use bed_il::Block;
use bed_lang::{Cond, Hint, List};
use bed_macro::{Macro, Path, Site};
use std::alloc::{AllocError, Global};

/// A step of the proof for the search; it has no code, but a block of its own, since control comes to
/// a label.
#[derive(Drop)]
pub struct Hinted {
    hint: Hint,
}

impl Hinted {
    /// `hint h`.
    pub fn new(hint: Hint) -> Hinted
        ensures stands { ⟦<Hinted as Macro>⟧.stands result ≡ statement 0 (HintKind hint) ∷ [] }
        ensures count { ⟦<Hinted as Macro>⟧.count result ≡ 1 }
        ensures comes { ⟦<Hinted as Macro>⟧.comes result ≡ true }
        ensures code { ⟦<Hinted as Macro>⟧.code result ≡ (λ locals label next. empty_block label next ∷ []) }
        ensures heads { ⟦<Hinted as Macro>⟧.heads result ≡ (λ label. []) }
        ensures fits { (d : Decls) (c : FunctionSite) → ⟦<Hinted as Macro>⟧.fits result d c ↔ Unit {0} }
    {
        Hinted { hint }
    }
}

impl Macro for Hinted {
    ghost stands = { λ m. statement 0 (HintKind m.hint) ∷ [] };

    ghost count = { λ m. 1 };

    ghost code = { λ m locals first next. empty_block first next ∷ [] };

    ghost heads = { λ m first. [] };

    ghost comes = { λ m. true };

    ghost fits = { λ m d c. Unit {0} };

    ghost spans = { λ m locals first next. spans_one (empty_block first next) };

    ghost numbered = { λ m locals first next. refl };

    ghost falling = { λ m d c f. hint_falls 0 m.hint };

    ghost ends = { λ m d c f. hint_ends 0 m.hint c.site };

    ghost keeps = { λ m w c f distinct places first next out. hint_keeps 0 m.hint w c places first next out };

    ghost lays = { λ m d c f first next out. hint_lay 0 m.hint c.site.locals first next };

    fn falls(&self) -> bool {
        true
    }

    fn labels(&self) -> u32 {
        1
    }

    fn blocks(
        &self,
        alloc: Global,
        _site: &Site,
        first: u32,
        next: u32,
        out: &mut List<Block>,
    ) -> Result<(), AllocError> {
        push_row(first, List::new(alloc), next, out)
    }

    fn conditions(
        &self,
        alloc: Global,
        _site: &Site,
        from: &Path,
        _out: &mut List<Cond>,
    ) -> Result<Option<Path>, AllocError> {
        Ok(Some(from.with_hint(alloc, &self.hint)?))
    }
}
