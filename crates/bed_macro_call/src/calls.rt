//! `x <- call t(a, b) using hints after assertion`.

ghost use Rattle.std.specs.Prelude.{◌≡◌, ◌↔◌, ◌+◌, ◌++◌, ◌∷◌, [], IsSome, IfOk, OnOk, OnErr, true, refl};
ghost use Rattle.bed_lang.specs.declared.condition.Decls.{Decls};
ghost use Rattle.bed_laws.specs.Activations.{FunctionSite, IsAmong};
ghost use Rattle.bed_laws.specs.StatementBlocks.{IsKnown, leave_block, back_block, call_blocks};
ghost use Rattle.bed_laws.proofs.CallLaws.{AreKnown};
ghost use Rattle.bed_macro.specs.Sites.{function_of, locals_in};
ghost use Rattle.bed_macro_call.specs.Room.{HasRoom};
ghost use Rattle.bed_macro_call.specs.CallStatements.{call_statement, call_falls, call_spans, call_ends, call_keeps, call_lay};

use crate::instructions::{coming, leaving};
use bed_il::{Block, Jump};
use bed_lang::{Assertion, Cond, Goal, Hint, List, Name, Operand, both, three};
use bed_machine::Reg;
use bed_macro::{Macro, Path, Site, push_condition};
use std::alloc::{AllocError, Global};

/// A call of a function, by its name or through a local that holds its address.
#[derive(Drop)]
pub struct Call {
    at: u32,
    into: Name,
    target: Operand,
    via: Option<Name>,
    args: List<Operand>,
    hints: List<Hint>,
    after: Assertion,
}

impl Call {
    /// `into <- call target(args) using hints after assertion`; its condition has the place `at`.
    pub fn new(
        at: u32,
        into: Name,
        target: Operand,
        via: Option<Name>,
        args: List<Operand>,
        hints: List<Hint>,
        after: Assertion,
    ) -> Call
        ensures stands { ⟦<Call as Macro>⟧.stands result ≡ call_statement at 0 into target via args hints after ∷ [] }
        ensures count { ⟦<Call as Macro>⟧.count result ≡ 2 }
        ensures comes { ⟦<Call as Macro>⟧.comes result ≡ true }
        ensures code { ⟦<Call as Macro>⟧.code result ≡ (λ locals label next. call_blocks locals into target args label next) }
        ensures heads { ⟦<Call as Macro>⟧.heads result ≡ (λ label. []) }
        ensures fits { (d : Decls) (c : FunctionSite) → ⟦<Call as Macro>⟧.fits result d c ↔ (IsAmong c.site.locals into.bytes × IsKnown c.site.locals target × AreKnown c.site.locals args × HasRoom d c target via) }
    {
        Call {
            at,
            into,
            target,
            via,
            args,
            hints,
            after,
        }
    }

    // What the path to the call comes to.
    fn goal(&self, alloc: Global) -> Result<Goal, AllocError>
        ensures { IfOk result (λ r. r ≡ Goal.Calls self.now.target self.now.via self.now.args self.now.into self.now.after) }
    {
        let heads = three(alloc, &self.target, &self.via, &self.args)?;
        let (into, after) = both(alloc, &self.into, &self.after)?;
        let (target, via, args) = heads;
        Ok(Goal::Calls {
            target,
            via,
            args,
            into,
            after,
        })
    }
}

// Appends the block that leaves.
fn push_leaving(
    alloc: Global,
    site: &Site,
    target: &Operand,
    args: &List<Operand>,
    first: u32,
    back: u32,
    out: &mut List<Block>,
) -> Result<(), AllocError>
    requires function { IsSome (function_of site.now) }
    requires back { back ≡ first + 1 }
    ensures ok { OnOk result (out.new ≡ out.old ++ leave_block (locals_in site.now) target.now args.now first ∷ []) }
    ensures err { OnErr result (out.new ≡ out.old) }
{
    let insts = leaving(alloc, site, target, args, back)?;
    out.push(Block {
        label: first,
        insts,
        jump: Jump::Register(Reg::Edx),
    })
}

// Appends the block to which the call comes back.
fn push_coming(
    alloc: Global,
    site: &Site,
    into: &Name,
    back: u32,
    next: u32,
    out: &mut List<Block>,
) -> Result<(), AllocError>
    requires { IsSome (function_of site.now) }
    ensures ok { OnOk result (out.new ≡ out.old ++ back_block (locals_in site.now) into.now back next ∷ []) }
    ensures err { OnErr result (out.new ≡ out.old) }
{
    let insts = coming(alloc, site, into)?;
    out.push(Block {
        label: back,
        insts,
        jump: Jump::Fall(next),
    })
}

impl Macro for Call {
    ghost stands = { λ m. call_statement m.at 0 m.into m.target m.via m.args m.hints m.after ∷ [] };

    ghost count = { λ m. 2 };

    ghost code = { λ m locals first next. call_blocks locals m.into m.target m.args first next };

    ghost heads = { λ m first. [] };

    ghost comes = { λ m. true };

    ghost fits = { λ m d c. IsAmong c.site.locals m.into.bytes × IsKnown c.site.locals m.target × AreKnown c.site.locals m.args × HasRoom d c m.target m.via };

    ghost spans = { λ m locals first next. call_spans m.at 0 m.into m.target m.via m.args m.hints m.after locals first next };

    ghost numbered = { λ m locals first next. refl };

    ghost falling = { λ m d c f. call_falls m.at 0 m.into m.target m.via m.args m.hints m.after };

    ghost ends = { λ m d c f. call_ends m.at 0 m.into m.target m.via m.args m.hints m.after c.site };

    ghost keeps = { λ m w c f distinct places first next out. call_keeps m.at 0 m.into m.target m.via m.args m.hints m.after w c f distinct places first next out };

    ghost lays = { λ m d c f first next out. call_lay m.at 0 m.into m.target m.via m.args m.hints m.after c.site.locals first next };

    fn falls(&self) -> bool {
        true
    }

    fn labels(&self) -> u32 {
        2
    }

    fn blocks(
        &self,
        alloc: Global,
        site: &Site,
        first: u32,
        next: u32,
        out: &mut List<Block>,
    ) -> Result<(), AllocError> {
        push_leaving(alloc, site, &self.target, &self.args, first, first + 1, out)?;
        push_coming(alloc, site, &self.into, first + 1, next, out)
    }

    fn conditions(
        &self,
        alloc: Global,
        site: &Site,
        from: &Path,
        out: &mut List<Cond>,
    ) -> Result<Option<Path>, AllocError> {
        let path = from.with_using(alloc, &self.hints)?;
        let goal = self.goal(alloc)?;
        push_condition(alloc, site, self.at, goal, &path, out)?;
        Ok(Some(Path::starting(alloc, &self.after)?))
    }
}
