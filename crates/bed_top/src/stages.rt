//! The stages of the work on the texts of a link.
ghost use Rattle.std.specs.Prelude.{◌≡◌, ◌+◌, ◌<◌, ◌≤◌, ◌^◌, ℕ, List, [], ◌∷◌, length, map, true, None, IfOk, if◌then◌else◌};
ghost use Rattle.bed_lang.specs.declared.module.Module.{Module};
ghost use Rattle.bed_words.specs.declared.command.Job.{Job};
ghost use Rattle.bed_names.specs.Resolved.{resolved};
ghost use Rattle.bed_top.specs.Causes.{function_count, word_at};
ghost use Rattle.bed_top.specs.Chains.{front, linking};
ghost use Rattle.bed_top.specs.Gives.{as_one, as_read, as_scoped, modules_of, texts_of, Gives};
ghost use Rattle.bed_top.specs.Outcomes.{AreCut};
ghost use Rattle.bed_top.specs.Returns.{broken_condition, module_is_built};
ghost use Rattle.bed_top.specs.Stages.{By};
ghost use Rattle.bed_top.specs.Views.{view, source, View};
ghost use Rattle.bed_top.specs.Work.{built_of, counted_of, judged_of, lengths_of, scoped_of, IsRead};

use crate::line::Line;
use crate::modules::{have_more_functions, read_modules, refuse_names, refuse_text, scope_modules};
use crate::plan::{Stop, refuse_limit, refuse_unbuilt};
use crate::returns::{broken, is_built};
use crate::status::Status;
use crate::texts::has_long;
use bed_lang::{Module, Which};
use bed_names::Scoped;
use bed_words::Job;
use std::alloc::Global;

/// The most functions of the modules of a command.
const MOST_FUNCTIONS: usize = 1024;

/// The name of a module file, by its number from 0.
pub(crate) fn file_name(job: &Job, number: usize) -> &[u8]
    ensures { result.now ≡ word_at job.now.modules number }
{
    match job.modules.as_slice().get(number) {
        Some(name) => name.as_slice(),
        None => &[],
    }
}

/// The text of a file, by its number.
fn nth_text(texts: &[Vec<u8>], file: u32) -> &[u8]
    ensures { result.now ≡ word_at (texts_of texts.now) file }
{
    match texts.get(file as usize) {
        Some(text) => text,
        None => &[],
    }
}

/// Refuses texts of which one is too long.
fn lengths(texts: &[Vec<u8>]) -> Result<(), Stop>
    ensures { (words : List (List ℕ)) → (job : Job) → Gives (By lengths_of) (λ _. job) (view words (texts_of texts.now)) job result }
{
    if has_long(texts) {
        return Err(refuse_limit(Which::Text));
    }
    Ok(())
}

/// Reads the modules of the texts.
fn reader(alloc: Global, job: &Job, texts: &[Vec<u8>]) -> Result<Vec<Module>, Stop>
    requires few { length texts.now < 2 ^ 32 }
    requires cut { AreCut (texts_of texts.now) }
    ensures gives { (words : List (List ℕ)) → Gives IsRead (as_read job.now) (view words (texts_of texts.now)) job.now result }
    ensures each { IfOk result (λ ms. length ms.items ≡ length texts.now) }
{
    let mut modules = Vec::new(alloc);
    match read_modules(alloc, 0, texts, &mut modules) {
        Ok(()) => Ok(modules),
        Err((file, error)) => {
            let called = file_name(job, file as usize);
            Err(refuse_text(alloc, file, called, nth_text(texts, file), error))
        }
    }
}

/// Refuses modules that have too many functions.
fn counted(modules: Vec<Module>) -> Result<Vec<Module>, Stop>
    ensures gives { (v : View) → (job : Job) → Gives (By counted_of) (as_read job) v (source job modules.items) result }
    ensures few { IfOk result (λ ms. function_count ms.items ≤ 1024) }
    ensures same { IfOk result (λ ms. ms.items ≡ modules.items) }
{
    if have_more_functions(&modules, MOST_FUNCTIONS) {
        return Err(refuse_limit(Which::Functions));
    }
    Ok(modules)
}

/// Judges the names of modules.
fn scoped(
    alloc: Global,
    job: &Job,
    texts: &[Vec<u8>],
    modules: Vec<Module>,
) -> Result<Vec<Scoped>, Stop>
    requires few { length modules.items < 2 ^ 32 }
    requires cut { AreCut (texts_of texts.now) }
    ensures gives { (words : List (List ℕ)) → Gives (By scoped_of) (as_scoped job.now) (view words (texts_of texts.now)) (source job.now modules.items) result }
    ensures resolved { IfOk result (λ s. modules_of s.items ≡ map resolved modules.items) }
{
    let mut scoped = Vec::new(alloc);
    let mut rest = modules.into_iter();
    match scope_modules(alloc, 0, &mut rest, &mut scoped) {
        Ok(()) => Ok(scoped),
        Err((file, error)) => {
            let called = file_name(job, file as usize);
            Err(refuse_names(alloc, file, called, nth_text(texts, file), error))
        }
    }
}

/// The scoped modules of the texts.
fn front_part(alloc: Global, job: &Job, texts: &[Vec<u8>]) -> Result<Vec<Scoped>, Stop>
    requires some { 1 ≤ length texts.now }
    requires few { length texts.now < 2 ^ 32 }
    requires cut { AreCut (texts_of texts.now) }
    ensures gives { (words : List (List ℕ)) → Gives front (as_scoped job.now) (view words (texts_of texts.now)) job.now result }
    ensures some { IfOk result (λ s. 1 ≤ length s.items) }
    ensures few { IfOk result (λ s. function_count (modules_of s.items) ≤ 1024) }
{
    lengths(texts)?;
    let modules = reader(alloc, job, texts)?;
    let few = counted(modules)?;
    scoped(alloc, job, texts, few)
}

/// The number of the first of several modules that isn't built: each after the first one isn't.
fn unbuilt_number(first: &Module) -> usize
    ensures { result ≡ (if module_is_built first.now then 1 else 0) }
{
    if is_built(first) { 1 } else { 0 }
}

/// The only module, where it is built.
fn built_only(alloc: Global, job: &Job, tried: &Module) -> Result<Module, Stop>
    ensures gives { (v : View) → Gives (By built_of) (as_one job.now) v (as_one job.now tried.now) result }
    ensures built { IfOk result (λ m. module_is_built m ≡ true) }
    ensures same { IfOk result (λ m. m ≡ tried.now) }
{
    if is_built(tried) {
        match tried.copy(alloc) {
            Ok(module) => Ok(module),
            Err(_) => Err(Stop::Memory),
        }
    } else {
        Err(refuse_unbuilt(alloc, file_name(job, 0)))
    }
}

/// The one module, where there is one and it is built.
fn built(alloc: Global, job: &Job, scoped: Vec<Scoped>) -> Result<Module, Stop>
    requires some { 1 ≤ length scoped.items }
    ensures gives { (v : View) → Gives (By built_of) (as_one job.now) v (as_scoped job.now scoped) result }
    ensures built { IfOk result (λ m. module_is_built m ≡ true) }
    ensures only { IfOk result (λ m. modules_of scoped.items ≡ m ∷ []) }
{
    match scoped.as_slice() {
        [only] => {
            let tried = only.module();
            built_only(alloc, job, tried)
        }
        [first, _, ..] => {
            let head = first.module();
            let number = unbuilt_number(head);
            Err(refuse_unbuilt(alloc, file_name(job, number)))
        }
        [] => unreachable!(),
    }
}

/// Judges the conditions of a built module.
fn judged(linked: Module) -> Result<Module, Stop>
    requires few { length linked.functions ≤ 1024 }
    ensures gives { (v : View) → (job : Job) → Gives (By judged_of) (as_one job) v (as_one job linked) result }
    ensures kept { IfOk result (λ m. broken_condition m ≡ None) }
    ensures same { IfOk result (λ m. m ≡ linked) }
{
    match broken(&linked) {
        Some(condition) => Err(Stop::Refused {
            status: Status::No {
                condition,
                rejected: None,
            },
            line: Line::Condition(condition),
        }),
        None => Ok(linked),
    }
}

/// The module of a link whose conditions hold.
pub(crate) fn linking_part(alloc: Global, job: &Job, texts: &[Vec<u8>]) -> Result<Module, Stop>
    requires some { 1 ≤ length texts.now }
    requires few { length texts.now < 2 ^ 32 }
    requires cut { AreCut (texts_of texts.now) }
    ensures gives { (words : List (List ℕ)) → Gives linking (as_one job.now) (view words (texts_of texts.now)) job.now result }
    ensures built { IfOk result (λ m. module_is_built m ≡ true) }
    ensures kept { IfOk result (λ m. broken_condition m ≡ None) }
    ensures few { IfOk result (λ m. length m.functions ≤ 1024) }
{
    let scoped = front_part(alloc, job, texts)?;
    let linked = built(alloc, job, scoped)?;
    judged(linked)
}
