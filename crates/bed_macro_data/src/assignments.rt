//! `x <- a`.

ghost use Rattle.std.specs.Prelude.{◌≡◌, ◌↔◌, ◌+◌, ◌∷◌, [], IsSome, IfOk, true, refl};
ghost use Rattle.bed_lang.specs.declared.condition.Decls.{Decls};
ghost use Rattle.bed_lang.specs.declared.statement.StmtKind.{Assign as AssignKind};
ghost use Rattle.bed_laws.specs.Activations.{FunctionSite, IsAmong};
ghost use Rattle.bed_laws.specs.StatementBlocks.{IsKnown, assign_block};
ghost use Rattle.bed_macro.specs.Sites.{function_of, locals_in};
ghost use Rattle.bed_macro_data.specs.Kinds.{statement};
ghost use Rattle.bed_macro_data.specs.StatementLaws.{spans_one, assign_ends, assign_keeps, assign_lay, assign_falls};

use crate::instructions::{fetched, push_keep, push_row};
use bed_il::{Block, Inst};
use bed_lang::{Action, Cond, List, Name, Operand, both};
use bed_macro::{Macro, Path, Site};
use std::alloc::{AllocError, Global};

/// A local becomes an operand.
#[derive(Drop)]
pub struct Assign {
    into: Name,
    a: Operand,
}

impl Assign {
    /// `into <- a`.
    pub fn new(into: Name, a: Operand) -> Assign
        ensures stands { ⟦<Assign as Macro>⟧.stands result ≡ statement 0 (AssignKind into a) ∷ [] }
        ensures count { ⟦<Assign as Macro>⟧.count result ≡ 1 }
        ensures comes { ⟦<Assign as Macro>⟧.comes result ≡ true }
        ensures code { ⟦<Assign as Macro>⟧.code result ≡ (λ locals label next. assign_block locals into a label next ∷ []) }
        ensures heads { ⟦<Assign as Macro>⟧.heads result ≡ (λ label. []) }
        ensures fits { (d : Decls) (c : FunctionSite) → ⟦<Assign as Macro>⟧.fits result d c ↔ (IsAmong c.site.locals into.bytes × IsKnown c.site.locals a) }
    {
        Assign { into, a }
    }
}

// The instructions.
fn row(alloc: Global, site: &Site, into: &Name, a: &Operand) -> Result<List<Inst>, AllocError>
    requires { IsSome (function_of site.now) }
    ensures { IfOk result (λ r. r ≡ (assign_block (locals_in site.now) into.now a.now 0 0).insts) }
{
    let mut insts = fetched(alloc, site, a)?;
    push_keep(site, into, &mut insts)?;
    Ok(insts)
}

impl Macro for Assign {
    ghost stands = { λ m. statement 0 (AssignKind m.into m.a) ∷ [] };

    ghost count = { λ m. 1 };

    ghost code = { λ m locals first next. assign_block locals m.into m.a first next ∷ [] };

    ghost heads = { λ m first. [] };

    ghost comes = { λ m. true };

    ghost fits = { λ m d c. IsAmong c.site.locals m.into.bytes × IsKnown c.site.locals m.a };

    ghost spans = { λ m locals first next. spans_one (assign_block locals m.into m.a first next) };

    ghost numbered = { λ m locals first next. refl };

    ghost falling = { λ m d c f. assign_falls 0 m.into m.a };

    ghost ends = { λ m d c f. assign_ends 0 m.into m.a c.site };

    ghost keeps = { λ m w c f distinct places first next out. assign_keeps 0 m.into m.a w c f distinct places first next out };

    ghost lays = { λ m d c f first next out. assign_lay 0 m.into m.a c.site.locals first next };

    fn falls(&self) -> bool {
        true
    }

    fn labels(&self) -> u32 {
        1
    }

    fn blocks(
        &self,
        alloc: Global,
        site: &Site,
        first: u32,
        next: u32,
        out: &mut List<Block>,
    ) -> Result<(), AllocError> {
        let insts = row(alloc, site, &self.into, &self.a)?;
        push_row(first, insts, next, out)
    }

    fn conditions(
        &self,
        alloc: Global,
        _site: &Site,
        from: &Path,
        _out: &mut List<Cond>,
    ) -> Result<Option<Path>, AllocError> {
        let (into, a) = both(alloc, &self.into, &self.a)?;
        Ok(Some(from.with(alloc, Action::Assign(into, a))?))
    }
}
