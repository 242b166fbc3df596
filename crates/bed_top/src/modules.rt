//! The modules of texts, and their names.
ghost use Rattle.std.specs.Prelude.{◌≡◌, ◌++◌, ◌+◌, ◌<◌, ◌≤◌, ◌^◌, ℕ, List, length, map, nat_lt, Option, None, Some, OnOk, IfErr};
ghost use Rattle.std.specs.Vec.Iter.{into_iter_items};
ghost use Rattle.bed_lang.specs.declared.module.Module.{Module};
ghost use Rattle.bed_names.specs.Resolved.{resolved};
ghost use Rattle.bed_names.specs.declared.error.NameError.TheVariants as name;
ghost use Rattle.bed_top.specs.Causes.{first_misnamed, function_count, AreModules};
ghost use Rattle.bed_top.specs.Gives.{modules_of, texts_of, IsStop};
ghost use Rattle.bed_top.specs.Outcomes.{AreCut, IsRefusedFrom};
ghost use Rattle.bed_top.specs.Work.{misnamed, names_refusal, rule_of, syntax_refusal, unread};

use crate::line::Line;
use crate::place::place;
use crate::plan::{Stop, refuse_limit};
use crate::status::{NameKind, Status, SyntaxKind};
use bed_lang::{List, Module};
use bed_names::{NameError, Scoped, scope};
use bed_read::{ReadError, read_module};
use std::alloc::Global;
use std::vec::IntoIter;

fn refuse_syntax(
    alloc: Global,
    file: u32,
    called: &[u8],
    kind: SyntaxKind,
    place: (u32, u32),
) -> Stop
    ensures { IsStop (syntax_refusal file called.now kind place) result }
{
    let (line, column) = place;
    match List::from_slice(alloc, called) {
        Ok(called) => Stop::Refused {
            status: Status::Syntax {
                file,
                line,
                column,
                kind,
            },
            line: Line::Syntax {
                file: called,
                line,
                column,
                kind,
            },
        },
        Err(_) => Stop::Memory,
    }
}

fn refuse_name(alloc: Global, file: u32, called: &[u8], kind: NameKind, place: (u32, u32)) -> Stop
    ensures { IsStop (names_refusal file called.now kind place) result }
{
    let (line, column) = place;
    match List::from_slice(alloc, called) {
        Ok(called) => Stop::Refused {
            status: Status::Names {
                file,
                line,
                column,
                kind,
            },
            line: Line::Names {
                file: called,
                line,
                column,
                kind,
            },
        },
        Err(_) => Stop::Memory,
    }
}

/// The refusal of a text of the file with this number and name.
pub(crate) fn refuse_text(
    alloc: Global,
    file: u32,
    called: &[u8],
    text: &[u8],
    error: ReadError,
) -> Stop
    requires { length text.now + 3 < 2 ^ 32 }
    ensures stop { IsStop (unread file called.now text.now error) result }
    ensures memory { error ≡ ReadError.Memory → result ≡ Stop.Memory }
{
    match error {
        ReadError::BadByte { at } => {
            refuse_syntax(alloc, file, called, SyntaxKind::Byte, place(text, at))
        }
        ReadError::Unexpected { at } => {
            refuse_syntax(alloc, file, called, SyntaxKind::Token, place(text, at))
        }
        ReadError::Number { at } => {
            refuse_syntax(alloc, file, called, SyntaxKind::Number, place(text, at))
        }
        ReadError::Limit { which, .. } => refuse_limit(which),
        ReadError::Memory => Stop::Memory,
    }
}

/// Where in a text a rule of names is broken, and the rule; nothing for want of memory.
fn broken_rule(error: NameError) -> Option<(u32, NameKind)>
    ensures { result ≡ rule_of error }
{
    match error {
        NameError::Unknown { at } => Some((at, NameKind::Unknown)),
        NameError::Twice { at } => Some((at, NameKind::Twice)),
        NameError::Sort { at } => Some((at, NameKind::Sort)),
        NameError::Arity { at } => Some((at, NameKind::Arity)),
        NameError::FallsOff { at } => Some((at, NameKind::FallsOff)),
        NameError::MissingJoin { at } => Some((at, NameKind::MissingJoin)),
        NameError::Dead { at } => Some((at, NameKind::Dead)),
        NameError::StackRoom { at, needs, has } => Some((at, NameKind::StackRoom { needs, has })),
        NameError::Memory => None,
    }
}

/// The refusal of the names of the file with this number and name.
pub(crate) fn refuse_names(
    alloc: Global,
    file: u32,
    called: &[u8],
    text: &[u8],
    error: NameError,
) -> Stop
    requires { length text.now + 3 < 2 ^ 32 }
    ensures stop { IsStop (misnamed file called.now text.now error) result }
    ensures memory { error ≡ NameError.Memory → result ≡ Stop.Memory }
{
    match broken_rule(error) {
        Some((at, kind)) => refuse_name(alloc, file, called, kind, place(text, at)),
        None => Stop::Memory,
    }
}

#[tactic(auto, using(crate::proofs::ReadLemmas::cut_rest))]
/// Reads these texts, of which the first is that of the file with this number, and appends their
/// modules; or gives the number of the first that is no module, and its refusal.
pub(crate) fn read_modules(
    alloc: Global,
    file: u32,
    texts: &[Vec<u8>],
    modules: &mut Vec<Module>,
) -> Result<(), (u32, ReadError)>
    requires few { file + length texts.now < 2 ^ 32 }
    requires cut { AreCut (texts_of texts.now) }
    ensures ok { OnOk result ((ms : List Module) × AreModules (texts_of texts.now) ms × (modules.new.items ≡ modules.old.items ++ ms)) }
    ensures refused { IfErr result (IsRefusedFrom file (texts_of texts.now)) }
{
    let [text, rest @ ..] = texts else {
        return Ok(());
    };
    match read_module(alloc, text) {
        Ok(module) => {
            if modules.push(module).is_err() {
                return Err((file, ReadError::Memory));
            }
            read_modules(alloc, file + 1, rest, modules)
        }
        Err(error) => Err((file, error)),
    }
}

/// Whether the modules have more functions together than this.
pub(crate) fn have_more_functions(modules: &[Module], most: usize) -> bool
    ensures { result ≡ nat_lt most (function_count modules.now) }
{
    let [module, rest @ ..] = modules else {
        return false;
    };
    let count = module.functions.len();
    count > most || have_more_functions(rest, most - count)
}

/// Scopes these modules, of which the first is that of the file with this number, and appends
/// them; or gives the number of the first that breaks a rule of names, and its refusal.
pub(crate) fn scope_modules(
    alloc: Global,
    file: u32,
    modules: &mut IntoIter<Module>,
    scoped: &mut Vec<Scoped>,
) -> Result<(), (u32, NameError)>
    requires few { file + length (into_iter_items modules.old) < 2 ^ 32 }
    ensures ok { OnOk result ((first_misnamed file (into_iter_items modules.old) ≡ None) × (modules_of scoped.new.items ≡ modules_of scoped.old.items ++ map resolved (into_iter_items modules.old))) }
    ensures refused { IfErr result (λ e. (e.1 ≡ name.Memory → ⊥) → first_misnamed file (into_iter_items modules.old) ≡ Some e) }
{
    let Some(module) = modules.next() else {
        return Ok(());
    };
    match scope(alloc, module) {
        Ok(module) => {
            if scoped.push(module).is_err() {
                return Err((file, NameError::Memory));
            }
            scope_modules(alloc, file + 1, modules, scoped)
        }
        Err(error) => Err((file, error)),
    }
}
