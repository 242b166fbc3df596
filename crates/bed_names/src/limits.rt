//! The limits of the language that the rules of names rest on.
ghost use Rattle.std.specs.Prelude.{◌≤◌, ◌↔◌, IsTrue, All, length};
ghost use Rattle.bed_names.specs.Limits.{KeepsLimits};

use bed_lang::{Function, Module, Signature};

fn small_signatures(items: &[Signature]) -> bool
    ensures { IsTrue result ↔ All (λ s. (length s.params ≤ 60) × (s.reserve ≤ 4096)) items.now }
{
    items
        .iter()
        .all(|s| s.params.len() <= 60 && s.reserve <= 4096)
}

fn small_functions(items: &[Function]) -> bool
    ensures { IsTrue result ↔ All (λ f. length f.locals ≤ 60) items.now }
{
    items.iter().all(|f| f.locals.len() <= 60)
}

/// Whether a module keeps the limits by which frames and locals are counted in 32 bits.
pub(crate) fn keeps_limits(m: &Module) -> bool
    ensures { IsTrue result ↔ KeepsLimits m.now }
{
    small_signatures(m.signatures.as_slice()) && small_functions(m.functions.as_slice())
}
