//! `return a`.

ghost use Rattle.std.specs.Prelude.{◌≡◌, ◌↔◌, ◌+◌, ◌++◌, ◌∷◌, [], IsSome, IfOk, OnOk, OnErr, false, refl};
ghost use Rattle.bed_lang.specs.declared.condition.Decls.{Decls};
ghost use Rattle.bed_lang.specs.declared.statement.StmtKind.{Return as ReturnKind};
ghost use Rattle.bed_laws.specs.Activations.{FunctionSite};
ghost use Rattle.bed_laws.specs.StatementBlocks.{IsKnown, return_block};
ghost use Rattle.bed_macro.specs.Sites.{function_of, locals_in};
ghost use Rattle.bed_macro_data.specs.Kinds.{statement};
ghost use Rattle.bed_macro_data.specs.StatementLaws.{spans_one, return_ends, return_keeps, return_lay, return_falls};

use crate::instructions::fetched;
use bed_il::{Block, Inst, Jump};
use bed_lang::{Cond, Goal, List, Operand};
use bed_machine::Reg;
use bed_macro::{Macro, Path, Site, push_condition};
use std::alloc::{AllocError, Global};

/// The function answers with an operand.
#[derive(Drop)]
pub struct Return {
    at: u32,
    a: Operand,
}

impl Return {
    /// `return a`; its condition has the place `at`.
    pub fn new(at: u32, a: Operand) -> Return
        ensures stands { ⟦<Return as Macro>⟧.stands result ≡ statement at (ReturnKind a) ∷ [] }
        ensures count { ⟦<Return as Macro>⟧.count result ≡ 1 }
        ensures comes { ⟦<Return as Macro>⟧.comes result ≡ false }
        ensures code { ⟦<Return as Macro>⟧.code result ≡ (λ locals label next. return_block locals a label ∷ []) }
        ensures heads { ⟦<Return as Macro>⟧.heads result ≡ (λ label. []) }
        ensures fits { (d : Decls) (c : FunctionSite) → ⟦<Return as Macro>⟧.fits result d c ↔ IsKnown c.site.locals a }
    {
        Return { at, a }
    }
}

// The instructions.
fn row(alloc: Global, site: &Site, a: &Operand) -> Result<List<Inst>, AllocError>
    requires { IsSome (function_of site.now) }
    ensures { IfOk result (λ r. r ≡ (return_block (locals_in site.now) a.now 0).insts) }
{
    let mut insts = fetched(alloc, site, a)?;
    insts.push(Inst::SetAnswer)?;
    insts.push(Inst::TakeReturn)?;
    Ok(insts)
}

impl Macro for Return {
    ghost stands = { λ m. statement m.at (ReturnKind m.a) ∷ [] };

    ghost count = { λ m. 1 };

    ghost code = { λ m locals first next. return_block locals m.a first ∷ [] };

    ghost heads = { λ m first. [] };

    ghost comes = { λ m. false };

    ghost fits = { λ m d c. IsKnown c.site.locals m.a };

    ghost spans = { λ m locals first next. spans_one (return_block locals m.a first) };

    ghost numbered = { λ m locals first next. refl };

    ghost falling = { λ m d c f. return_falls m.at m.a };

    ghost ends = { λ m d c f. return_ends m.at m.a c.site };

    ghost keeps = { λ m w c f distinct places first next out. return_keeps m.at m.a w c f places first next };

    ghost lays = { λ m d c f first next out. return_lay m.at m.a c.site.locals first next };

    fn falls(&self) -> bool {
        false
    }

    fn labels(&self) -> u32 {
        1
    }

    fn blocks(
        &self,
        alloc: Global,
        site: &Site,
        first: u32,
        _next: u32,
        out: &mut List<Block>,
    ) -> Result<(), AllocError> {
        let insts = row(alloc, site, &self.a)?;
        out.push(Block {
            label: first,
            insts,
            jump: Jump::Register(Reg::Esi),
        })
    }

    fn conditions(
        &self,
        alloc: Global,
        site: &Site,
        from: &Path,
        out: &mut List<Cond>,
    ) -> Result<Option<Path>, AllocError> {
        let goal = Goal::Returns(self.a.copy(alloc)?);
        push_condition(alloc, site, self.at, goal, from, out)?;
        Ok(None)
    }
}
