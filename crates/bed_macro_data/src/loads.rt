//! `x <- [a + k]` and `x <- byte [a + k]`.

ghost use Rattle.std.specs.Prelude.{◌≡◌, ◌↔◌, ◌+◌, ◌∷◌, [], IsSome, IfOk, if◌then◌else◌, true, refl};
ghost use Rattle.bed_lang.specs.declared.condition.Decls.{Decls};
ghost use Rattle.bed_laws.specs.Activations.{FunctionSite, IsAmong};
ghost use Rattle.bed_laws.specs.StatementBlocks.{IsKnown};
ghost use Rattle.bed_macro.specs.Sites.{function_of, locals_in};
ghost use Rattle.bed_macro_data.specs.Kinds.{statement, load_kind, load_action, load_block};
ghost use Rattle.bed_macro_data.specs.StatementLaws.{load_spans, load_ends, load_keeps, load_lay, load_falls};

use crate::instructions::{fetched, push_kept, push_row};
use bed_il::{Block, Inst};
use bed_lang::{Action, Cond, List, Name, Place, both};
use bed_macro::{Macro, Path, Site};
use std::alloc::{AllocError, Global};

/// A local becomes the word or the byte at a place.
#[derive(Drop)]
pub struct LoadFrom {
    into: Name,
    from: Place,
    byte: bool,
}

impl LoadFrom {
    /// `into <- [from]`, or `into <- byte [from]` where `byte` is true.
    pub fn new(into: Name, from: Place, byte: bool) -> LoadFrom
        ensures stands { ⟦<LoadFrom as Macro>⟧.stands result ≡ statement 0 (load_kind byte into from) ∷ [] }
        ensures count { ⟦<LoadFrom as Macro>⟧.count result ≡ 1 }
        ensures comes { ⟦<LoadFrom as Macro>⟧.comes result ≡ true }
        ensures code { ⟦<LoadFrom as Macro>⟧.code result ≡ (λ locals label next. load_block locals byte into from label next ∷ []) }
        ensures heads { ⟦<LoadFrom as Macro>⟧.heads result ≡ (λ label. []) }
        ensures fits { (d : Decls) (c : FunctionSite) → ⟦<LoadFrom as Macro>⟧.fits result d c ↔ (IsAmong c.site.locals into.bytes × IsKnown c.site.locals from.base) }
    {
        LoadFrom { into, from, byte }
    }
}

// The instruction that loads.
fn load(byte: bool, disp: u32) -> Inst
    ensures { result ≡ (if byte then Inst.LoadByte disp else Inst.LoadWord disp) }
{
    if byte {
        Inst::LoadByte { disp }
    } else {
        Inst::LoadWord { disp }
    }
}

// The instructions.
fn row(
    alloc: Global,
    site: &Site,
    into: &Name,
    from: &Place,
    byte: bool,
) -> Result<List<Inst>, AllocError>
    requires { IsSome (function_of site.now) }
    ensures { IfOk result (λ r. r ≡ (load_block (locals_in site.now) byte into.now from.now 0 0).insts) }
{
    let mut insts = fetched(alloc, site, &from.base)?;
    push_kept(site, load(byte, from.disp), into, &mut insts)?;
    Ok(insts)
}

// The action.
fn action(byte: bool, into: Name, from: Place) -> Action
    ensures { result ≡ load_action byte into from }
{
    if byte {
        Action::LoadByte(into, from)
    } else {
        Action::Load(into, from)
    }
}

impl Macro for LoadFrom {
    ghost stands = { λ m. statement 0 (load_kind m.byte m.into m.from) ∷ [] };

    ghost count = { λ m. 1 };

    ghost code = { λ m locals first next. load_block locals m.byte m.into m.from first next ∷ [] };

    ghost heads = { λ m first. [] };

    ghost comes = { λ m. true };

    ghost fits = { λ m d c. IsAmong c.site.locals m.into.bytes × IsKnown c.site.locals m.from.base };

    ghost spans = { λ m locals first next. load_spans m.byte m.into m.from locals first next };

    ghost numbered = { λ m locals first next. refl };

    ghost falling = { λ m d c f. load_falls 0 m.byte m.into m.from };

    ghost ends = { λ m d c f. load_ends 0 m.byte m.into m.from c.site };

    ghost keeps = { λ m w c f distinct places first next out. load_keeps 0 m.byte m.into m.from w c f distinct places first next out };

    ghost lays = { λ m d c f first next out. load_lay 0 m.byte m.into m.from c.site.locals first next };

    fn falls(&self) -> bool {
        true
    }

    fn labels(&self) -> u32 {
        1
    }

    fn blocks(
        &self,
        alloc: Global,
        site: &Site,
        first: u32,
        next: u32,
        out: &mut List<Block>,
    ) -> Result<(), AllocError> {
        let insts = row(alloc, site, &self.into, &self.from, self.byte)?;
        push_row(first, insts, next, out)
    }

    fn conditions(
        &self,
        alloc: Global,
        _site: &Site,
        from: &Path,
        _out: &mut List<Cond>,
    ) -> Result<Option<Path>, AllocError> {
        let (into, place) = both(alloc, &self.into, &self.from)?;
        Ok(Some(from.with(alloc, action(self.byte, into, place))?))
    }
}
