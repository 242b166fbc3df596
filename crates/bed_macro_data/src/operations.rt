//! `x <- a op b`.

ghost use Rattle.std.specs.Prelude.{◌≡◌, ◌↔◌, ◌+◌, ◌∷◌, [], IsSome, IfOk, true, refl};
ghost use Rattle.bed_lang.specs.declared.condition.Decls.{Decls};
ghost use Rattle.bed_lang.specs.declared.statement.StmtKind.{Compute as ComputeKind};
ghost use Rattle.bed_laws.specs.Activations.{FunctionSite, IsAmong};
ghost use Rattle.bed_laws.specs.StatementBlocks.{IsKnown, compute_block};
ghost use Rattle.bed_macro.specs.Sites.{function_of, locals_in};
ghost use Rattle.bed_macro_data.specs.Kinds.{statement};
ghost use Rattle.bed_macro_data.specs.StatementLaws.{spans_one, compute_ends, compute_keeps, compute_lay, compute_falls};

use crate::instructions::{push_kept, push_row};
use bed_il::{Block, Inst};
use bed_lang::{Action, Cond, List, Name, Op, Operand, three};
use bed_macro::{Macro, Path, Site};
use std::alloc::{AllocError, Global};

/// A local becomes the result of an operation.
#[derive(Drop)]
pub struct Compute {
    into: Name,
    op: Op,
    a: Operand,
    b: Operand,
}

impl Compute {
    /// `into <- a op b`.
    pub fn new(into: Name, op: Op, a: Operand, b: Operand) -> Compute
        ensures stands { ⟦<Compute as Macro>⟧.stands result ≡ statement 0 (ComputeKind into op a b) ∷ [] }
        ensures count { ⟦<Compute as Macro>⟧.count result ≡ 1 }
        ensures comes { ⟦<Compute as Macro>⟧.comes result ≡ true }
        ensures code { ⟦<Compute as Macro>⟧.code result ≡ (λ locals label next. compute_block locals into op a b label next ∷ []) }
        ensures heads { ⟦<Compute as Macro>⟧.heads result ≡ (λ label. []) }
        ensures fits { (d : Decls) (c : FunctionSite) → ⟦<Compute as Macro>⟧.fits result d c ↔ (IsAmong c.site.locals into.bytes × IsKnown c.site.locals a × IsKnown c.site.locals b) }
    {
        Compute { into, op, a, b }
    }
}

// The instructions.
fn row(
    alloc: Global,
    site: &Site,
    into: &Name,
    op: Op,
    a: &Operand,
    b: &Operand,
) -> Result<List<Inst>, AllocError>
    requires { IsSome (function_of site.now) }
    ensures { IfOk result (λ r. r ≡ (compute_block (locals_in site.now) into.now op a.now b.now 0 0).insts) }
{
    let mut insts = site.operands(alloc, a, b)?;
    push_kept(site, Inst::Apply(op), into, &mut insts)?;
    Ok(insts)
}

impl Macro for Compute {
    ghost stands = { λ m. statement 0 (ComputeKind m.into m.op m.a m.b) ∷ [] };

    ghost count = { λ m. 1 };

    ghost code = { λ m locals first next. compute_block locals m.into m.op m.a m.b first next ∷ [] };

    ghost heads = { λ m first. [] };

    ghost comes = { λ m. true };

    ghost fits = { λ m d c. IsAmong c.site.locals m.into.bytes × IsKnown c.site.locals m.a × IsKnown c.site.locals m.b };

    ghost spans = { λ m locals first next. spans_one (compute_block locals m.into m.op m.a m.b first next) };

    ghost numbered = { λ m locals first next. refl };

    ghost falling = { λ m d c f. compute_falls 0 m.into m.op m.a m.b };

    ghost ends = { λ m d c f. compute_ends 0 m.into m.op m.a m.b c.site };

    ghost keeps = { λ m w c f distinct places first next out. compute_keeps 0 m.into m.op m.a m.b w c f distinct places first next out };

    ghost lays = { λ m d c f first next out. compute_lay 0 m.into m.op m.a m.b c.site.locals first next };

    fn falls(&self) -> bool {
        true
    }

    fn labels(&self) -> u32 {
        1
    }

    fn blocks(
        &self,
        alloc: Global,
        site: &Site,
        first: u32,
        next: u32,
        out: &mut List<Block>,
    ) -> Result<(), AllocError> {
        let insts = row(alloc, site, &self.into, self.op, &self.a, &self.b)?;
        push_row(first, insts, next, out)
    }

    fn conditions(
        &self,
        alloc: Global,
        _site: &Site,
        from: &Path,
        _out: &mut List<Cond>,
    ) -> Result<Option<Path>, AllocError> {
        let (into, a, b) = three(alloc, &self.into, &self.a, &self.b)?;
        Ok(Some(from.with(alloc, Action::Compute(into, self.op, a, b))?))
    }
}
