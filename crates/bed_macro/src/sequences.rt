//! Two macros, one after the other.

ghost use Rattle.std.specs.Prelude.{◌≡◌, ◌↔◌, ◌+◌, ◌<◌, ◌^◌, ◌++◌, true};
ghost use Rattle.std.proofs.Common.{◌∙◌};
ghost use Rattle.bed_lang.specs.declared.condition.Decls.{Decls};
ghost use Rattle.bed_laws.specs.Activations.{FunctionSite};
ghost use Rattle.bed_laws.proofs.MacroLaws.{just_after, outside_back, then_spans, then_numbered, then_keeps, then_lays};
ghost use Rattle.bed_laws.proofs.StatementsLaws.{then_falls};
ghost use Rattle.bed_macro.specs.EndLaws.{then_ends};

use crate::macros::Macro;
use crate::paths::Path;
use crate::sites::Site;
use bed_il::Block;
use bed_lang::{Cond, List};
use std::alloc::{AllocError, Global};

/// A macro and then another.
#[derive(Drop)]
pub struct Then<A: Macro, B: Macro> {
    first: A,
    second: B,
    ghost small: { A.count first + B.count second < 2 ^ 32 },
}

impl<A: Macro, B: Macro> Then<A, B> {
    /// The first and then the second.
    pub fn new(first: A, second: B) -> Then<A, B>
        requires { A.count first + B.count second < 2 ^ 32 }
        ensures stands { ⟦<Then<A, B> as Macro>⟧.stands result ≡ A.stands first ++ B.stands second }
        ensures count { ⟦<Then<A, B> as Macro>⟧.count result ≡ A.count first + B.count second }
        ensures comes { ⟦<Then<A, B> as Macro>⟧.comes result ≡ B.comes second }
        ensures code { ⟦<Then<A, B> as Macro>⟧.code result ≡ (λ locals label next. A.code first locals label (label + A.count first) ++ B.code second locals (label + A.count first) next) }
        ensures heads { ⟦<Then<A, B> as Macro>⟧.heads result ≡ (λ label. A.heads first label ++ B.heads second (label + A.count first)) }
        ensures fits { (d : Decls) (c : FunctionSite) → ⟦<Then<A, B> as Macro>⟧.fits result d c ↔ (A.fits first d c × B.fits second d c × (A.comes first ≡ true)) }
    {
        Then { first, second }
    }
}

impl<A: Macro, B: Macro> Macro for Then<A, B> {
    ghost stands = { λ m. A.stands m.first ++ B.stands m.second };

    ghost count = { λ m. A.count m.first + B.count m.second };

    ghost code = { λ m locals first next. A.code m.first locals first (first + A.count m.first) ++ B.code m.second locals (first + A.count m.first) next };

    ghost heads = { λ m first. A.heads m.first first ++ B.heads m.second (first + A.count m.first) };

    ghost comes = { λ m. B.comes m.second };

    ghost fits = { λ m d c. A.fits m.first d c × B.fits m.second d c × (A.comes m.first ≡ true) };

    ghost spans = { λ m locals first next. then_spans _ _ _ _ first (A.count m.first) (B.count m.second) (A.spans m.first locals first (first + A.count m.first)) (B.spans m.second locals (first + A.count m.first) next) };

    ghost numbered = { λ m locals first next. then_numbered _ _ (A.count m.first) (B.count m.second) (A.numbered m.first locals first (first + A.count m.first)) (B.numbered m.second locals (first + A.count m.first) next) };

    ghost falling = { λ m d c f. then_falls (A.stands m.first) (B.stands m.second) (A.falling m.first d c f.0 ∙ f.2) ∙ B.falling m.second d c f.1 };

    ghost ends = { λ m d c f. then_ends c.site (A.stands m.first) (B.stands m.second) (A.falling m.first d c f.0 ∙ f.2) (A.ends m.first d c f.0) (B.ends m.second d c f.1) };

    ghost keeps = { λ m w c f distinct places first next out.
        then_keeps w c places _ _ _ _ first (A.count m.first) (B.count m.second) next
        (A.spans m.first c.site.locals first (first + A.count m.first)) (B.spans m.second c.site.locals (first + A.count m.first) next) out (A.stands m.first) (B.stands m.second)
        (A.keeps m.first w c f.0 distinct places first (first + A.count m.first) (just_after first (A.count m.first)))
        (B.keeps m.second w c f.1 distinct places (first + A.count m.first) next (outside_back first (A.count m.first) (B.count m.second) next out)) };

    ghost lays = { λ m d c f first next out.
        then_lays c.site.locals _ _ _ _ first (A.count m.first) (B.count m.second) next
        (A.spans m.first c.site.locals first (first + A.count m.first)) (B.spans m.second c.site.locals (first + A.count m.first) next) (A.stands m.first) (B.stands m.second) (A.falling m.first d c f.0 ∙ f.2)
        (A.lays m.first d c f.0 first (first + A.count m.first) (just_after first (A.count m.first)))
        (B.lays m.second d c f.1 (first + A.count m.first) next (outside_back first (A.count m.first) (B.count m.second) next out)) };

    fn falls(&self) -> bool {
        self.second.falls()
    }

    fn labels(&self) -> u32 {
        self.first.labels() + self.second.labels()
    }

    fn blocks(
        &self,
        alloc: Global,
        site: &Site,
        first: u32,
        next: u32,
        out: &mut List<Block>,
    ) -> Result<(), AllocError> {
        let middle = first + self.first.labels();
        self.first.blocks(alloc, site, first, middle, out)?;
        self.second.blocks(alloc, site, middle, next, out)
    }

    fn conditions(
        &self,
        alloc: Global,
        site: &Site,
        from: &Path,
        out: &mut List<Cond>,
    ) -> Result<Option<Path>, AllocError> {
        match self.first.conditions(alloc, site, from, out)? {
            None => Ok(None),
            Some(path) => self.second.conditions(alloc, site, &path, out),
        }
    }
}
