//! `t <- x; x <- y; y <- t`.

ghost use Rattle.std.specs.Prelude.{◌≡◌, ◌≢◌, ◌↔◌, ◌+◌, ◌++◌, ◌∷◌, [], IsSome, IfOk, OnOk, OnErr, true, refl};
ghost use Rattle.bed_lang.specs.declared.word.Name.{Name};
ghost use Rattle.bed_lang.specs.declared.condition.Decls.{Decls};
ghost use Rattle.bed_laws.specs.Activations.{FunctionSite};
ghost use Rattle.bed_laws.specs.StatementBlocks.{assign_block};
ghost use Rattle.bed_sat.specs.Conditions.{then_action};
ghost use Rattle.bed_macro.specs.Sites.{function_of, locals_in};
ghost use Rattle.bed_macro.specs.Paths.{path_of};
ghost use Rattle.bed_swap.specs.Swaps.{AreLocals, swap_statements, swap_blocks};
ghost use Rattle.bed_swap.specs.SwapLaws.{swap_spans, swap_falls, swap_ends, swap_keeps, swap_lays};

use bed_il::{Block, Inst, Jump, Scratch};
use bed_lang::{Action, Cond, List, Name, Operand, both};
use bed_macro::{Macro, Path, Site};
use std::alloc::{AllocError, Global};

/// Two locals change their values, by way of a third.
#[derive(Drop)]
pub struct Swap {
    x: Name,
    y: Name,
    t: Name,
}

impl Swap {
    /// `t <- x; x <- y; y <- t`.
    pub fn new(x: Name, y: Name, t: Name) -> Swap
        requires x_and_y { x.bytes ≢ y.bytes }
        requires x_and_t { x.bytes ≢ t.bytes }
        requires y_and_t { y.bytes ≢ t.bytes }
        ensures stands { ⟦<Swap as Macro>⟧.stands result ≡ swap_statements x y t }
        ensures count { ⟦<Swap as Macro>⟧.count result ≡ 3 }
        ensures comes { ⟦<Swap as Macro>⟧.comes result ≡ true }
        ensures code { ⟦<Swap as Macro>⟧.code result ≡ (λ locals label next. swap_blocks x y t locals label next) }
        ensures heads { ⟦<Swap as Macro>⟧.heads result ≡ (λ label. []) }
        ensures fits { (d : Decls) (c : FunctionSite) → ⟦<Swap as Macro>⟧.fits result d c ↔ AreLocals x y t c.site.locals }
    {
        Swap { x, y, t }
    }
}

// The instructions of `into <- from`.
fn row(alloc: Global, site: &Site, into: &Name, from: &Operand) -> Result<List<Inst>, AllocError>
    requires { IsSome (function_of site.now) }
    ensures { IfOk result (λ r. r ≡ (assign_block (locals_in site.now) into.now from.now 0 0).insts) }
{
    let mut insts = List::new(alloc);
    site.fetch(alloc, Scratch::First, from, &mut insts)?;
    insts.push(Inst::Keep {
        disp: site.slot(into),
    })?;
    Ok(insts)
}

// Appends the block of `into <- from`.
fn push_block(
    alloc: Global,
    site: &Site,
    into: &Name,
    from: &Name,
    first: u32,
    next: u32,
    out: &mut List<Block>,
) -> Result<(), AllocError>
    requires { IsSome (function_of site.now) }
    ensures ok { OnOk result (out.new ≡ out.old ++ assign_block (locals_in site.now) into.now (Operand.Local from.now) first next ∷ []) }
    ensures err { OnErr result (out.new ≡ out.old) }
{
    let from = Operand::Local(from.copy(alloc)?);
    let insts = row(alloc, site, into, &from)?;
    out.push(Block {
        label: first,
        insts,
        jump: Jump::Fall(next),
    })
}

// The path behind `into <- from`.
fn behind(alloc: Global, path: &Path, into: &Name, from: &Name) -> Result<Path, AllocError>
    ensures { IfOk result (λ r. path_of r ≡ then_action (Action.Assign into.now (Operand.Local from.now)) (path_of path.now)) }
{
    let (into, from) = both(alloc, into, from)?;
    path.with(alloc, Action::Assign(into, Operand::Local(from)))
}

impl Macro for Swap {
    ghost stands = { λ m. swap_statements m.x m.y m.t };

    ghost count = { λ m. 3 };

    ghost code = { λ m locals first next. swap_blocks m.x m.y m.t locals first next };

    ghost heads = { λ m first. [] };

    ghost comes = { λ m. true };

    ghost fits = { λ m d c. AreLocals m.x m.y m.t c.site.locals };

    ghost spans = { λ m locals first next. swap_spans m.x m.y m.t locals first next };

    ghost numbered = { λ m locals first next. refl };

    ghost falling = { λ m d c f. swap_falls m.x m.y m.t };

    ghost ends = { λ m d c f. swap_ends m.x m.y m.t c.site };

    ghost keeps = { λ m w c f distinct places first next out. swap_keeps m.x m.y m.t w c f distinct places first next out };

    ghost lays = { λ m d c f first next out. swap_lays m.x m.y m.t c.site.locals first next };

    fn falls(&self) -> bool {
        true
    }

    fn labels(&self) -> u32 {
        3
    }

    fn blocks(
        &self,
        alloc: Global,
        site: &Site,
        first: u32,
        next: u32,
        out: &mut List<Block>,
    ) -> Result<(), AllocError> {
        let second = first + 1;
        let third = second + 1;
        push_block(alloc, site, &self.t, &self.x, first, second, out)?;
        push_block(alloc, site, &self.x, &self.y, second, third, out)?;
        push_block(alloc, site, &self.y, &self.t, third, next, out)
    }

    fn conditions(
        &self,
        alloc: Global,
        _site: &Site,
        from: &Path,
        _out: &mut List<Cond>,
    ) -> Result<Option<Path>, AllocError> {
        let path = behind(alloc, from, &self.t, &self.x)?;
        let path = behind(alloc, &path, &self.x, &self.y)?;
        Ok(Some(behind(alloc, &path, &self.y, &self.t)?))
    }
}
