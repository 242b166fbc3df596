//! A choice of two macros by a test.

ghost use Rattle.std.specs.Prelude.{◌≡◌, ◌↔◌, ◌+◌, ◌<◌, ◌^◌, ◌++◌, ◌∷◌, ◌||◌, [], Some, None, IsSome, IfOk, OnOk, OnErr, if◌then◌else◌, length, option_map, refl};
ghost use Rattle.std.specs.Option.{option_or};
ghost use Rattle.bed_lang.specs.declared.condition.Decls.{Decls};
ghost use Rattle.bed_lang.specs.declared.statement.StmtKind.{If};
ghost use Rattle.bed_sat.specs.Conditions.{path_from, where_true, where_false, body_part};
ghost use Rattle.bed_laws.specs.Activations.{FunctionSite};
ghost use Rattle.bed_laws.specs.Counts.{body_count};
ghost use Rattle.bed_laws.specs.Statements.{IsJoined};
ghost use Rattle.bed_laws.specs.StatementBlocks.{IsKnown, jump_count, choice_blocks};
ghost use Rattle.bed_laws.proofs.MacroLaws.{choice_spans, choice_numbered, choice_keeps, just_after, outside_no};
ghost use Rattle.bed_laws.proofs.ControlStatements.{choice_lay};
ghost use Rattle.bed_macro.specs.Sites.{function_of, site_in};
ghost use Rattle.bed_macro.specs.Paths.{path_of};
ghost use Rattle.bed_macro.specs.Lists.{Begins};
ghost use Rattle.bed_macro.specs.Joins.{owed_with, joined as joined_paths};
ghost use Rattle.bed_macro.specs.EndLaws.{choice_falls, choice_ends};

use crate::conditions::meet;
use crate::macros::Macro;
use crate::paths::Path;
use crate::sites::{Site, push_jump};
use bed_il::Block;
use bed_lang::{Cond, Join, List, Test};
use std::alloc::{AllocError, Global};

/// One macro where a test is true, and another where it isn't.
#[derive(Drop)]
pub struct Choice<A: Macro, B: Macro> {
    test: Test,
    yes: A,
    no: B,
    join: Option<Join>,
    ghost small: { 1 + A.count yes + jump_count (A.comes yes) + B.count no < 2 ^ 32 },
}

impl<A: Macro, B: Macro> Choice<A, B> {
    /// `yes` where the test is true, else `no`. Where both come to their ends there is a join.
    pub fn new(test: Test, yes: A, no: B, join: Option<Join>) -> Choice<A, B>
        requires { 1 + A.count yes + jump_count (A.comes yes) + B.count no < 2 ^ 32 }
        ensures stands { ⟦<Choice<A, B> as Macro>⟧.stands result ≡ record { at = 0; kind = If test (A.stands yes) (B.stands no) join } ∷ [] }
        ensures count { ⟦<Choice<A, B> as Macro>⟧.count result ≡ 1 + A.count yes + jump_count (A.comes yes) + B.count no }
        ensures comes { ⟦<Choice<A, B> as Macro>⟧.comes result ≡ (A.comes yes || B.comes no) }
        ensures code { ⟦<Choice<A, B> as Macro>⟧.code result ≡ (λ locals label next. choice_blocks (A.comes yes) locals test (A.count yes) label next (A.code yes locals) (B.code no locals)) }
        ensures heads { ⟦<Choice<A, B> as Macro>⟧.heads result ≡ (λ label. A.heads yes (label + 1) ++ B.heads no (label + 1 + A.count yes + jump_count (A.comes yes))) }
        ensures fits { (d : Decls) (c : FunctionSite) → ⟦<Choice<A, B> as Macro>⟧.fits result d c ↔ (A.fits yes d c × B.fits no d c × IsKnown c.site.locals test.left × IsKnown c.site.locals test.right × IsJoined join (A.stands yes) (B.stands no)) }
    {
        Choice {
            test,
            yes,
            no,
            join,
        }
    }
}

// Appends what a body owes for a path, and with a join that it is met where control comes to the
// body's end.
fn through<M: Macro>(
    alloc: Global,
    site: &Site,
    body: &M,
    path: &Path,
    join: &Option<Join>,
    out: &mut List<Cond>,
) -> Result<Option<Path>, AllocError>
    requires function { IsSome (function_of site.now) }
    requires few { length path.now.actions + body_count (M.stands body.now) < 4294967295 }
    ensures owes { OnOk result (out.new ≡ out.old ++ owed_with (site_in site.now) join.now (body_part (site_in site.now) (M.stands body.now)) (path_of path.now)) }
    ensures goes_on { IfOk result (λ r. option_map path_of r ≡ (body_part (site_in site.now) (M.stands body.now)).goes_on (path_of path.now)) }
    ensures err { OnErr result (Begins out.new out.old) }
{
    let end = body.conditions(alloc, site, path, out)?;
    match join {
        None => Ok(end),
        Some(join) => {
            meet(alloc, site, join.place, &join.assertion, &end, out)?;
            Ok(end)
        }
    }
}

// The same for the path on which a test is true.
fn on_true<M: Macro>(
    alloc: Global,
    site: &Site,
    test: &Test,
    body: &M,
    from: &Path,
    join: &Option<Join>,
    out: &mut List<Cond>,
) -> Result<Option<Path>, AllocError>
    requires function { IsSome (function_of site.now) }
    requires few { length from.now.actions + 1 + body_count (M.stands body.now) < 4294967295 }
    ensures owes { OnOk result (out.new ≡ out.old ++ owed_with (site_in site.now) join.now (body_part (site_in site.now) (M.stands body.now)) (where_true test.now (path_of from.now))) }
    ensures goes_on { IfOk result (λ r. option_map path_of r ≡ (body_part (site_in site.now) (M.stands body.now)).goes_on (where_true test.now (path_of from.now))) }
    ensures err { OnErr result (Begins out.new out.old) }
{
    let path = from.where_true(alloc, test)?;
    through(alloc, site, body, &path, join, out)
}

// The same for the path on which it is false.
fn on_false<M: Macro>(
    alloc: Global,
    site: &Site,
    test: &Test,
    body: &M,
    from: &Path,
    join: &Option<Join>,
    out: &mut List<Cond>,
) -> Result<Option<Path>, AllocError>
    requires function { IsSome (function_of site.now) }
    requires few { length from.now.actions + 1 + body_count (M.stands body.now) < 4294967295 }
    ensures owes { OnOk result (out.new ≡ out.old ++ owed_with (site_in site.now) join.now (body_part (site_in site.now) (M.stands body.now)) (where_false test.now (path_of from.now))) }
    ensures goes_on { IfOk result (λ r. option_map path_of r ≡ (body_part (site_in site.now) (M.stands body.now)).goes_on (where_false test.now (path_of from.now))) }
    ensures err { OnErr result (Begins out.new out.old) }
{
    let path = from.where_false(alloc, test)?;
    through(alloc, site, body, &path, join, out)
}

// The first path, or the second where there is no first.
fn either(yes: Option<Path>, no: Option<Path>) -> Option<Path>
    ensures { option_map path_of result ≡ option_or (option_map path_of yes) (option_map path_of no) }
{
    match yes {
        Some(path) => Some(path),
        None => no,
    }
}

// The path from a join, if a path comes to it.
fn behind(alloc: Global, join: &Join, some: bool) -> Result<Option<Path>, AllocError>
    ensures { IfOk result (λ r. option_map path_of r ≡ (if some then Some (path_from join.now.assertion) else None)) }
{
    if some {
        Ok(Some(Path::starting(alloc, &join.assertion)?))
    } else {
        Ok(None)
    }
}

// The path that goes on behind both bodies.
fn joined(
    alloc: Global,
    join: &Option<Join>,
    yes: Option<Path>,
    no: Option<Path>,
) -> Result<Option<Path>, AllocError>
    ensures { IfOk result (λ r. option_map path_of r ≡ joined_paths join.now (option_map path_of yes) (option_map path_of no)) }
{
    match join {
        None => Ok(either(yes, no)),
        Some(join) => behind(alloc, join, yes.is_some() || no.is_some()),
    }
}

impl<A: Macro, B: Macro> Macro for Choice<A, B> {
    ghost stands = { λ m. record { at = 0; kind = If m.test (A.stands m.yes) (B.stands m.no) m.join } ∷ [] };

    ghost count = { λ m. 1 + A.count m.yes + jump_count (A.comes m.yes) + B.count m.no };

    ghost code = { λ m locals first next. choice_blocks (A.comes m.yes) locals m.test (A.count m.yes) first next (A.code m.yes locals) (B.code m.no locals) };

    ghost heads = { λ m first. A.heads m.yes (first + 1) ++ B.heads m.no (first + 1 + A.count m.yes + jump_count (A.comes m.yes)) };

    ghost comes = { λ m. A.comes m.yes || B.comes m.no };

    ghost fits = { λ m d c. A.fits m.yes d c × B.fits m.no d c × IsKnown c.site.locals m.test.left × IsKnown c.site.locals m.test.right × IsJoined m.join (A.stands m.yes) (B.stands m.no) };

    ghost spans = { λ m locals first next.
        let f = A.comes m.yes in
        let n = A.count m.yes in
        choice_spans locals m.test f (A.code m.yes locals (first + 1) (first + 1 + n)) (B.code m.no locals (first + 1 + n + jump_count f) next) (A.heads m.yes (first + 1)) (B.heads m.no (first + 1 + n + jump_count f)) first n (B.count m.no) next
        (A.spans m.yes locals (first + 1) (first + 1 + n)) (B.spans m.no locals (first + 1 + n + jump_count f) next) };

    ghost numbered = { λ m locals first next.
        let f = A.comes m.yes in
        let n = A.count m.yes in
        choice_numbered locals m.test f (A.code m.yes locals (first + 1) (first + 1 + n)) (B.code m.no locals (first + 1 + n + jump_count f) next) (A.heads m.yes (first + 1)) (B.heads m.no (first + 1 + n + jump_count f)) first n (B.count m.no) next
        (A.numbered m.yes locals (first + 1) (first + 1 + n)) (B.numbered m.no locals (first + 1 + n + jump_count f) next) };

    ghost falling = { λ m d c g. choice_falls 0 m.test (A.stands m.yes) (B.stands m.no) m.join (A.comes m.yes) (B.comes m.no) (A.falling m.yes d c g.0) (B.falling m.no d c g.1) };

    ghost ends = { λ m d c g. choice_ends c.site 0 m.test (A.stands m.yes) (B.stands m.no) m.join (A.ends m.yes d c g.0) (B.ends m.no d c g.1) };

    ghost keeps = { λ m w c g distinct places first next out.
        let f = A.comes m.yes in
        let n = A.count m.yes in
        choice_keeps w c places m.test g.2 g.3 0 (A.stands m.yes) (B.stands m.no) m.join f (A.falling m.yes w.decls c g.0) g.4
        (A.code m.yes c.site.locals (first + 1) (first + 1 + n)) (B.code m.no c.site.locals (first + 1 + n + jump_count f) next) (A.heads m.yes (first + 1)) (B.heads m.no (first + 1 + n + jump_count f)) first n (B.count m.no) next
        (A.spans m.yes c.site.locals (first + 1) (first + 1 + n)) (B.spans m.no c.site.locals (first + 1 + n + jump_count f) next) out
        (A.keeps m.yes w c g.0 distinct places (first + 1) (first + 1 + n) (just_after (first + 1) n))
        (B.keeps m.no w c g.1 distinct places (first + 1 + n + jump_count f) next (outside_no f first n (B.count m.no) next out)) };

    ghost lays = { λ m d c g first next out.
        let f = A.comes m.yes in
        let n = A.count m.yes in
        choice_lay c.site.locals m.test 0 (A.stands m.yes) (B.stands m.no) m.join
        (A.code m.yes c.site.locals (first + 1) (first + 1 + n)) (B.code m.no c.site.locals (first + 1 + n + jump_count f) next) (A.heads m.yes (first + 1)) (B.heads m.no (first + 1 + n + jump_count f)) first n (B.count m.no) next
        (A.spans m.yes c.site.locals (first + 1) (first + 1 + n)) f (A.falling m.yes d c g.0) (B.spans m.no c.site.locals (first + 1 + n + jump_count f) next)
        (A.lays m.yes d c g.0 (first + 1) (first + 1 + n) (just_after (first + 1) n))
        (B.lays m.no d c g.1 (first + 1 + n + jump_count f) next (outside_no f first n (B.count m.no) next out)) };

    fn falls(&self) -> bool {
        self.yes.falls() || self.no.falls()
    }

    fn labels(&self) -> u32 {
        1 + self.yes.labels() + u32::from(self.yes.falls()) + self.no.labels()
    }

    fn blocks(
        &self,
        alloc: Global,
        site: &Site,
        first: u32,
        next: u32,
        out: &mut List<Block>,
    ) -> Result<(), AllocError> {
        let falls = self.yes.falls();
        let end = first + 1 + self.yes.labels();
        let other = end + u32::from(falls);
        site.push_test(alloc, &self.test, first, first + 1, other, out)?;
        self.yes.blocks(alloc, site, first + 1, end, out)?;
        push_jump(alloc, falls, end, next, out)?;
        self.no.blocks(alloc, site, other, next, out)
    }

    fn conditions(
        &self,
        alloc: Global,
        site: &Site,
        from: &Path,
        out: &mut List<Cond>,
    ) -> Result<Option<Path>, AllocError> {
        let yes = on_true(alloc, site, &self.test, &self.yes, from, &self.join, out)?;
        let no = on_false(alloc, site, &self.test, &self.no, from, &self.join, out)?;
        joined(alloc, &self.join, yes, no)
    }
}
