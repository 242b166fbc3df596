//! A loop over a macro.

ghost use Rattle.std.specs.Prelude.{◌≡◌, ◌↔◌, ◌+◌, ◌<◌, ◌^◌, ◌++◌, ◌∷◌, [], IsSome, IfOk, OnOk, OnErr, length, Some, option_map, true};
ghost use Rattle.bed_lang.specs.declared.condition.Decls.{Decls};
ghost use Rattle.bed_lang.specs.declared.statement.StmtKind.{While};
ghost use Rattle.bed_sat.specs.Conditions.{body_part, path_from, where_true, where_false, owed_up_to};
ghost use Rattle.bed_laws.specs.Activations.{FunctionSite};
ghost use Rattle.bed_laws.specs.Counts.{body_count};
ghost use Rattle.bed_laws.specs.StatementBlocks.{IsKnown, jump_count, loop_blocks};
ghost use Rattle.bed_laws.proofs.MacroLaws.{loop_spans, loop_numbered, loop_keeps, outside_body};
ghost use Rattle.bed_laws.proofs.ControlStatements.{body_end, loop_lay};
ghost use Rattle.bed_macro.specs.Sites.{function_of, site_in};
ghost use Rattle.bed_macro.specs.Paths.{path_of};
ghost use Rattle.bed_macro.specs.Lists.{Begins};
ghost use Rattle.bed_macro.specs.EndLaws.{loop_falls, loop_ends};

use crate::conditions::{meet, meet_at};
use crate::macros::Macro;
use crate::paths::Path;
use crate::sites::{Site, push_jump};
use bed_il::Block;
use bed_lang::{Assertion, Cond, List, Test};
use std::alloc::{AllocError, Global};

/// A macro again and again, as long as a test is true. Whenever the test is about to be made, the
/// invariant holds.
#[derive(Drop)]
pub struct Loop<B: Macro> {
    test: Test,
    place: u32,
    invariant: Assertion,
    body: B,
    ghost small: { 1 + B.count body + jump_count (B.comes body) < 2 ^ 32 },
}

impl<B: Macro> Loop<B> {
    /// The body as long as the test is true; the place is that of the loop's conditions.
    pub fn new(test: Test, place: u32, invariant: Assertion, body: B) -> Loop<B>
        requires { 1 + B.count body + jump_count (B.comes body) < 2 ^ 32 }
        ensures stands { ⟦<Loop<B> as Macro>⟧.stands result ≡ record { at = 0; kind = While test place invariant (B.stands body) } ∷ [] }
        ensures count { ⟦<Loop<B> as Macro>⟧.count result ≡ 1 + B.count body + jump_count (B.comes body) }
        ensures comes { ⟦<Loop<B> as Macro>⟧.comes result ≡ true }
        ensures code { ⟦<Loop<B> as Macro>⟧.code result ≡ (λ locals label next. loop_blocks (B.comes body) locals test (B.count body) label next (B.code body locals)) }
        ensures heads { ⟦<Loop<B> as Macro>⟧.heads result ≡ (λ label. record { label = label; invariant = invariant } ∷ B.heads body (label + 1)) }
        ensures fits { (d : Decls) (c : FunctionSite) → ⟦<Loop<B> as Macro>⟧.fits result d c ↔ (B.fits body d c × IsKnown c.site.locals test.left × IsKnown c.site.locals test.right) }
    {
        Loop {
            test,
            place,
            invariant,
            body,
        }
    }
}

// Appends what a body owes for a path, and that the invariant is met where control comes to its end.
fn once<M: Macro>(
    alloc: Global,
    site: &Site,
    place: u32,
    invariant: &Assertion,
    body: &M,
    path: &Path,
    out: &mut List<Cond>,
) -> Result<(), AllocError>
    requires function { IsSome (function_of site.now) }
    requires few { length path.now.actions + body_count (M.stands body.now) < 4294967295 }
    ensures ok { OnOk result (out.new ≡ out.old ++ owed_up_to (site_in site.now) place invariant.now (body_part (site_in site.now) (M.stands body.now)) (path_of path.now)) }
    ensures err { OnErr result (Begins out.new out.old) }
{
    let end = body.conditions(alloc, site, path, out)?;
    meet(alloc, site, place, invariant, &end, out)
}

// The path from the invariant into the body, and the one that goes on.
fn inside(alloc: Global, test: &Test, invariant: &Assertion) -> Result<Path, AllocError>
    ensures { IfOk result (λ r. path_of r ≡ where_true test.now (path_from invariant.now)) }
{
    let path = Path::starting(alloc, invariant)?;
    path.where_true(alloc, test)
}

fn beyond(alloc: Global, test: &Test, invariant: &Assertion) -> Result<Option<Path>, AllocError>
    ensures { IfOk result (λ r. option_map path_of r ≡ Some (where_false test.now (path_from invariant.now))) }
{
    let path = Path::starting(alloc, invariant)?;
    Ok(Some(path.where_false(alloc, test)?))
}

// Appends what the body owes for the path from the invariant into it.
fn around<M: Macro>(
    alloc: Global,
    site: &Site,
    test: &Test,
    place: u32,
    invariant: &Assertion,
    body: &M,
    out: &mut List<Cond>,
) -> Result<(), AllocError>
    requires function { IsSome (function_of site.now) }
    requires few { 1 + body_count (M.stands body.now) < 4294967295 }
    ensures ok { OnOk result (out.new ≡ out.old ++ owed_up_to (site_in site.now) place invariant.now (body_part (site_in site.now) (M.stands body.now)) (where_true test.now (path_from invariant.now))) }
    ensures err { OnErr result (Begins out.new out.old) }
{
    let path = inside(alloc, test, invariant)?;
    once(alloc, site, place, invariant, body, &path, out)
}

impl<B: Macro> Macro for Loop<B> {
    ghost stands = { λ m. record { at = 0; kind = While m.test m.place m.invariant (B.stands m.body) } ∷ [] };

    ghost count = { λ m. 1 + B.count m.body + jump_count (B.comes m.body) };

    ghost code = { λ m locals first next. loop_blocks (B.comes m.body) locals m.test (B.count m.body) first next (B.code m.body locals) };

    ghost heads = { λ m first. record { label = first; invariant = m.invariant } ∷ B.heads m.body (first + 1) };

    ghost comes = { λ m. true };

    ghost fits = { λ m d c. B.fits m.body d c × IsKnown c.site.locals m.test.left × IsKnown c.site.locals m.test.right };

    ghost spans = { λ m locals first next.
        let f = B.comes m.body in
        let n = B.count m.body in
        loop_spans locals m.test m.invariant f (B.code m.body locals (first + 1) (body_end f (first + 1 + n) next)) (B.heads m.body (first + 1)) first n next
        (B.spans m.body locals (first + 1) (body_end f (first + 1 + n) next)) };

    ghost numbered = { λ m locals first next.
        let f = B.comes m.body in
        let n = B.count m.body in
        loop_numbered locals m.test m.invariant f (B.code m.body locals (first + 1) (body_end f (first + 1 + n) next)) (B.heads m.body (first + 1)) first n next
        (B.numbered m.body locals (first + 1) (body_end f (first + 1 + n) next)) };

    ghost falling = { λ m d c g. loop_falls 0 m.test m.place m.invariant (B.stands m.body) };

    ghost ends = { λ m d c g. loop_ends c.site 0 m.test m.place m.invariant (B.stands m.body) };

    ghost keeps = { λ m w c g distinct places first next out.
        let f = B.comes m.body in
        let n = B.count m.body in
        loop_keeps w c places m.test g.1 g.2 0 m.place m.invariant (B.stands m.body) f (B.falling m.body w.decls c g.0)
        (B.code m.body c.site.locals (first + 1) (body_end f (first + 1 + n) next)) (B.heads m.body (first + 1)) first n next
        (B.spans m.body c.site.locals (first + 1) (body_end f (first + 1 + n) next)) out
        (B.keeps m.body w c g.0 distinct places (first + 1) (body_end f (first + 1 + n) next) (outside_body f first n next out)) };

    ghost lays = { λ m d c g first next out.
        let f = B.comes m.body in
        let n = B.count m.body in
        loop_lay c.site.locals m.test 0 m.place m.invariant (B.stands m.body)
        (B.code m.body c.site.locals (first + 1) (body_end f (first + 1 + n) next)) (B.heads m.body (first + 1)) first n next
        (B.spans m.body c.site.locals (first + 1) (body_end f (first + 1 + n) next)) f (B.falling m.body d c g.0)
        (B.lays m.body d c g.0 (first + 1) (body_end f (first + 1 + n) next) (outside_body f first n next out)) };

    fn falls(&self) -> bool {
        true
    }

    fn labels(&self) -> u32 {
        1 + self.body.labels() + u32::from(self.body.falls())
    }

    fn blocks(
        &self,
        alloc: Global,
        site: &Site,
        first: u32,
        next: u32,
        out: &mut List<Block>,
    ) -> Result<(), AllocError> {
        let falls = self.body.falls();
        let back = first + 1 + self.body.labels();
        let end = if falls { back } else { next };
        site.push_test(alloc, &self.test, first, first + 1, next, out)?;
        self.body.blocks(alloc, site, first + 1, end, out)?;
        push_jump(alloc, falls, back, first, out)
    }

    fn conditions(
        &self,
        alloc: Global,
        site: &Site,
        from: &Path,
        out: &mut List<Cond>,
    ) -> Result<Option<Path>, AllocError> {
        meet_at(alloc, site, self.place, &self.invariant, from, out)?;
        around(
            alloc,
            site,
            &self.test,
            self.place,
            &self.invariant,
            &self.body,
            out,
        )?;
        beyond(alloc, &self.test, &self.invariant)
    }
}
