//! `[a + k] <- b` and `byte [a + k] <- b`.

ghost use Rattle.std.specs.Prelude.{◌≡◌, ◌↔◌, ◌+◌, ◌∷◌, [], IsSome, IfOk, if◌then◌else◌, true, refl};
ghost use Rattle.bed_lang.specs.declared.condition.Decls.{Decls};
ghost use Rattle.bed_laws.specs.Activations.{FunctionSite};
ghost use Rattle.bed_laws.specs.StatementBlocks.{IsKnown};
ghost use Rattle.bed_macro.specs.Sites.{function_of, locals_in};
ghost use Rattle.bed_macro_data.specs.Kinds.{statement, store_kind, store_action, store_block};
ghost use Rattle.bed_macro_data.specs.StatementLaws.{store_spans, store_ends, store_keeps, store_lay, store_falls};

use crate::instructions::push_row;
use bed_il::{Block, Inst};
use bed_lang::{Action, Cond, List, Operand, Place, both};
use bed_macro::{Macro, Path, Site};
use std::alloc::{AllocError, Global};

/// The word or the byte at a place becomes an operand.
#[derive(Drop)]
pub struct StoreTo {
    to: Place,
    a: Operand,
    byte: bool,
}

impl StoreTo {
    /// `[to] <- a`, or `byte [to] <- a` where `byte` is true.
    pub fn new(to: Place, a: Operand, byte: bool) -> StoreTo
        ensures stands { ⟦<StoreTo as Macro>⟧.stands result ≡ statement 0 (store_kind byte to a) ∷ [] }
        ensures count { ⟦<StoreTo as Macro>⟧.count result ≡ 1 }
        ensures comes { ⟦<StoreTo as Macro>⟧.comes result ≡ true }
        ensures code { ⟦<StoreTo as Macro>⟧.code result ≡ (λ locals label next. store_block locals byte to a label next ∷ []) }
        ensures heads { ⟦<StoreTo as Macro>⟧.heads result ≡ (λ label. []) }
        ensures fits { (d : Decls) (c : FunctionSite) → ⟦<StoreTo as Macro>⟧.fits result d c ↔ (IsKnown c.site.locals to.base × IsKnown c.site.locals a) }
    {
        StoreTo { to, a, byte }
    }
}

// The instruction that stores.
fn store(byte: bool, disp: u32) -> Inst
    ensures { result ≡ (if byte then Inst.StoreByte disp else Inst.StoreWord disp) }
{
    if byte {
        Inst::StoreByte { disp }
    } else {
        Inst::StoreWord { disp }
    }
}

// The instructions.
fn row(
    alloc: Global,
    site: &Site,
    to: &Place,
    a: &Operand,
    byte: bool,
) -> Result<List<Inst>, AllocError>
    requires { IsSome (function_of site.now) }
    ensures { IfOk result (λ r. r ≡ (store_block (locals_in site.now) byte to.now a.now 0 0).insts) }
{
    let mut insts = site.operands(alloc, &to.base, a)?;
    insts.push(store(byte, to.disp))?;
    Ok(insts)
}

// The action.
fn action(byte: bool, to: Place, a: Operand) -> Action
    ensures { result ≡ store_action byte to a }
{
    if byte {
        Action::StoreByte(to, a)
    } else {
        Action::Store(to, a)
    }
}

impl Macro for StoreTo {
    ghost stands = { λ m. statement 0 (store_kind m.byte m.to m.a) ∷ [] };

    ghost count = { λ m. 1 };

    ghost code = { λ m locals first next. store_block locals m.byte m.to m.a first next ∷ [] };

    ghost heads = { λ m first. [] };

    ghost comes = { λ m. true };

    ghost fits = { λ m d c. IsKnown c.site.locals m.to.base × IsKnown c.site.locals m.a };

    ghost spans = { λ m locals first next. store_spans m.byte m.to m.a locals first next };

    ghost numbered = { λ m locals first next. refl };

    ghost falling = { λ m d c f. store_falls 0 m.byte m.to m.a };

    ghost ends = { λ m d c f. store_ends 0 m.byte m.to m.a c.site };

    ghost keeps = { λ m w c f distinct places first next out. store_keeps 0 m.byte m.to m.a w c f places first next out };

    ghost lays = { λ m d c f first next out. store_lay 0 m.byte m.to m.a c.site.locals first next };

    fn falls(&self) -> bool {
        true
    }

    fn labels(&self) -> u32 {
        1
    }

    fn blocks(
        &self,
        alloc: Global,
        site: &Site,
        first: u32,
        next: u32,
        out: &mut List<Block>,
    ) -> Result<(), AllocError> {
        let insts = row(alloc, site, &self.to, &self.a, self.byte)?;
        push_row(first, insts, next, out)
    }

    fn conditions(
        &self,
        alloc: Global,
        _site: &Site,
        from: &Path,
        _out: &mut List<Cond>,
    ) -> Result<Option<Path>, AllocError> {
        let (place, a) = both(alloc, &self.to, &self.a)?;
        Ok(Some(from.with(alloc, action(self.byte, place, a))?))
    }
}
