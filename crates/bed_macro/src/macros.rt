//! The trait of macros, with their two laws.

ghost use Rattle.std.specs.Prelude.{◌≡◌, ◌<◌, ◌≤◌, ◌+◌, ◌++◌, ◌⊎◌, ℕ, Bool, List, IsSome, IfOk, OnOk, OnErr, length, option_map};
ghost use Rattle.bed_lang.specs.declared.word.Name.{Name};
ghost use Rattle.bed_lang.specs.declared.statement.Stmt.{Stmt};
ghost use Rattle.bed_lang.specs.declared.condition.Decls.{Decls};
ghost use Rattle.bed_table.specs.Code.{body_piece};
ghost use Rattle.bed_il.specs.declared.blocks.Block.{Block};
ghost use Rattle.bed_sat.specs.Assertions.{World};
ghost use Rattle.bed_sat.specs.Conditions.{body_part};
ghost use Rattle.bed_laws.specs.Activations.{FunctionSite, AreDistinct};
ghost use Rattle.bed_laws.specs.Keeps.{LoopHead};
ghost use Rattle.bed_laws.specs.Spans.{Spans};
ghost use Rattle.bed_laws.specs.Statements.{KeepStatements, LayStatements};
ghost use Rattle.bed_laws.specs.Counts.{body_count};
ghost use Rattle.bed_macro.specs.Sites.{function_of, locals_in, site_in};
ghost use Rattle.bed_macro.specs.Paths.{path_of};
ghost use Rattle.bed_macro.specs.Lists.{Begins};
ghost use Rattle.bed_macro.specs.Ends.{GoOnWhereTheyFall};

use crate::paths::Path;
use crate::sites::Site;
use bed_il::Block;
use bed_lang::{Cond, List};
use std::alloc::{AllocError, Global};

/// What stands for some statements: it gives their blocks and their conditions.
pub trait Macro: Drop {
    /// The statements.
    ghost stands: { Self → List Stmt };

    /// How many labels its blocks have.
    ghost count: { Self → ℕ };

    /// Its blocks, in a function with these locals, from a first label on; control goes on at another.
    ghost code: { Self → List Name → ℕ → ℕ → List Block };

    /// The heads of its loops, from a first label on.
    ghost heads: { Self → ℕ → List LoopHead };

    /// Whether control may come to its end.
    ghost comes: { Self → Bool };

    /// Where the macro may stand: what its laws ask of a function, and of what the module declares.
    ghost fits: { Self → Decls → FunctionSite → Type 0 };

    /// Whether control may come to its end.
    fn falls(&self) -> bool
        ensures { result ≡ comes self.now };

    /// How many labels its blocks have.
    fn labels(&self) -> u32
        ensures { result ≡ count self.now };

    /// Appends its blocks, with labels from `first` on; control goes on at `next`, which isn't one of
    /// them.
    ///
    /// # Errors
    /// `AllocError` for want of memory. The list then begins with what it held.
    fn blocks(
        &self,
        alloc: Global,
        site: &Site,
        first: u32,
        next: u32,
        out: &mut List<Block>,
    ) -> Result<(), AllocError>
        requires function { IsSome (function_of site.now) }
        requires labels { first + count self.now ≤ 4294967295 }
        requires next { (next < first) ⊎ (first + count self.now ≤ next) }
        ensures ok { OnOk result (out.new ≡ out.old ++ code self.now (locals_in site.now) first next) }
        ensures err { OnErr result (Begins out.new out.old) };

    /// Appends the conditions that its statements owe for a path that comes to it, and gives the path
    /// that goes on. Where the macro fits, there is none exactly where control can't come to its end.
    ///
    /// # Errors
    /// `AllocError` for want of memory. The list then begins with what it held.
    fn conditions(
        &self,
        alloc: Global,
        site: &Site,
        from: &Path,
        out: &mut List<Cond>,
    ) -> Result<Option<Path>, AllocError>
        requires function { IsSome (function_of site.now) }
        requires few { length from.now.actions + body_count (stands self.now) < 4294967295 }
        ensures owes { OnOk result (out.new ≡ out.old ++ (body_part (site_in site.now) (stands self.now)).owes (path_of from.now)) }
        ensures goes_on { IfOk result (λ r. option_map path_of r ≡ (body_part (site_in site.now) (stands self.now)).goes_on (path_of from.now)) }
        ensures err { OnErr result (Begins out.new out.old) };

    /// Its labels are from the first on, and as many as it has blocks.
    ghost spans: { (m : Self) (locals : List Name) (first next : ℕ) → Spans (code m locals first next) (heads m first) first (first + count m) };

    ghost numbered: { (m : Self) (locals : List Name) (first next : ℕ) → length (code m locals first next) ≡ count m };

    /// Where it fits, control comes to the end of its statements exactly where it comes to its own.
    ghost falling: { (m : Self) (d : Decls) (c : FunctionSite) → fits m d c → (body_piece (stands m)).falls ≡ comes m };

    /// Where it fits, a path leaves it exactly where control comes to its end.
    ghost ends: { (m : Self) (d : Decls) (c : FunctionSite) → fits m d c → GoOnWhereTheyFall c.site (stands m) };

    /// The first law: where its conditions hold, and no action of the path that it gives can fail, no
    /// action of the path that comes can fail, and its blocks keep their specifications.
    ghost keeps: { (m : Self) (w : World) (c : FunctionSite) → fits m w.decls c → AreDistinct c.site.locals → (places : ℕ → ℕ) (first next : ℕ) → (next < first) ⊎ (first + count m ≤ next)
        → KeepStatements w c places (code m c.site.locals first next) (heads m first) first next (stands m) };

    /// The second law: its blocks, laid out, are the code table's bytes of its statements, the heads of
    /// its loops have the table's addresses, and its blocks fit.
    ghost lays: { (m : Self) (d : Decls) (c : FunctionSite) → fits m d c → (first next : ℕ) → (next < first) ⊎ (first + count m ≤ next)
        → LayStatements c.site.locals (code m c.site.locals first next) (heads m first) first next (stands m) };
}
