//! Conditions at the end of a path.

ghost use Rattle.std.specs.Prelude.{◌≡◌, ◌++◌, [], ◌∷◌, IsSome, IfOk, OnOk, OnErr, option_map};
ghost use Rattle.bed_sat.specs.Conditions.{condition as condition_of, met};
ghost use Rattle.bed_macro.specs.Sites.{function_of, site_in};
ghost use Rattle.bed_macro.specs.Paths.{path_of};

use crate::paths::Path;
use crate::sites::{Site, params_of};
use bed_lang::{Assertion, Cond, Goal, List, Name};
use std::alloc::{AllocError, Global};

// Appends names.
fn push_names(alloc: Global, names: &[Name], out: &mut List<Name>) -> Result<(), AllocError>
    ensures { OnOk result (out.new ≡ out.old ++ names.now) }
{
    for name in names {
        out.push(name.copy(alloc)?)?;
    }
    Ok(())
}

// The locals of a function, the arguments first.
fn locals(alloc: Global, params: &[Name], locals: &[Name]) -> Result<List<Name>, AllocError>
    ensures { IfOk result (λ r. r ≡ params.now ++ locals.now) }
{
    let mut out = List::new(alloc);
    push_names(alloc, params, &mut out)?;
    push_names(alloc, locals, &mut out)?;
    Ok(out)
}

// The names by which a condition says where it stands.
#[derive(Drop)]
struct Standing {
    module: Name,
    function: Name,
    locals: List<Name>,
}

fn names(alloc: Global, site: &Site) -> Result<Standing, AllocError>
    requires { IsSome (function_of site.now) }
    ensures module { IfOk result (λ r. r.«module» ≡ (site_in site.now).«module») }
    ensures function { IfOk result (λ r. r.function ≡ (site_in site.now).function) }
    ensures locals { IfOk result (λ r. r.locals ≡ (site_in site.now).locals) }
{
    let function = site.function();
    let params = params_of(site.module().signatures.as_slice(), &function.signature);
    let locals = locals(alloc, params, function.locals.as_slice())?;
    let module = site.module().name.copy(alloc)?;
    let function = function.name.copy(alloc)?;
    Ok(Standing {
        module,
        function,
        locals,
    })
}

// The names, and a copy of the path.
fn standing_on(alloc: Global, site: &Site, path: &Path) -> Result<(Standing, Path), AllocError>
    requires { IsSome (function_of site.now) }
    ensures module { IfOk result (λ r. r.0.«module» ≡ (site_in site.now).«module») }
    ensures function { IfOk result (λ r. r.0.function ≡ (site_in site.now).function) }
    ensures locals { IfOk result (λ r. r.0.locals ≡ (site_in site.now).locals) }
    ensures path { IfOk result (λ r. r.1 ≡ path.now) }
{
    let names = names(alloc, site)?;
    let path = path.copy(alloc)?;
    Ok((names, path))
}

/// The condition of a path that comes to a goal at a place.
///
/// # Errors
/// `AllocError` for want of memory.
pub fn condition(
    alloc: Global,
    site: &Site,
    at: u32,
    goal: Goal,
    path: &Path,
) -> Result<Cond, AllocError>
    requires { IsSome (function_of site.now) }
    ensures { IfOk result (λ r. r ≡ condition_of (site_in site.now) at goal (path_of path.now)) }
{
    match standing_on(alloc, site, path) {
        Err(e) => Err(e),
        Ok((names, path)) => Ok(Cond {
            module: names.module,
            function: names.function,
            at,
            locals: names.locals,
            entry: path.entry,
            start: path.start,
            actions: path.actions,
            goal,
            hints: path.hints,
        }),
    }
}

/// Appends the condition of a path that comes to a goal at a place.
///
/// # Errors
/// `AllocError` for want of memory.
pub fn push_condition(
    alloc: Global,
    site: &Site,
    at: u32,
    goal: Goal,
    path: &Path,
    out: &mut List<Cond>,
) -> Result<(), AllocError>
    requires { IsSome (function_of site.now) }
    ensures ok { OnOk result (out.new ≡ out.old ++ condition_of (site_in site.now) at goal (path_of path.now) ∷ []) }
    ensures err { OnErr result (out.new ≡ out.old) }
{
    let condition = condition(alloc, site, at, goal, path)?;
    out.push(condition)
}

/// Appends the condition that an assertion is met at the end of a path.
///
/// # Errors
/// `AllocError` for want of memory.
pub fn meet_at(
    alloc: Global,
    site: &Site,
    place: u32,
    assertion: &Assertion,
    path: &Path,
    out: &mut List<Cond>,
) -> Result<(), AllocError>
    requires { IsSome (function_of site.now) }
    ensures ok { OnOk result (out.new ≡ out.old ++ condition_of (site_in site.now) place (Goal.Meets assertion.now) (path_of path.now) ∷ []) }
    ensures err { OnErr result (out.new ≡ out.old) }
{
    let goal = Goal::Meets(assertion.copy(alloc)?);
    push_condition(alloc, site, place, goal, path, out)
}

/// Appends the condition that an assertion is met at the end of a path, if there is one.
///
/// # Errors
/// `AllocError` for want of memory.
pub fn meet(
    alloc: Global,
    site: &Site,
    place: u32,
    assertion: &Assertion,
    path: &Option<Path>,
    out: &mut List<Cond>,
) -> Result<(), AllocError>
    requires { IsSome (function_of site.now) }
    ensures ok { OnOk result (out.new ≡ out.old ++ met (site_in site.now) place assertion.now (option_map path_of path.now)) }
    ensures err { OnErr result (out.new ≡ out.old) }
{
    match path {
        None => Ok(()),
        Some(path) => meet_at(alloc, site, place, assertion, path, out),
    }
}
