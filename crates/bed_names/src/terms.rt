//! The faults of terms, arguments and assertions.
#![tactic(auto, using(crate::proofs::NotedLemmas::noted_append))]

ghost use Rattle.std.specs.Prelude.{◌≡◌, Some};
ghost use Rattle.bed_lang.specs.declared.word.Sort.TheVariants as sorts;
ghost use Rattle.bed_names.specs.Faults.{noted};
ghost use Rattle.bed_names.specs.Terms.{sort_faults, name_faults, variable_faults, word_faults_if, label_faults, signature_name_faults, word_faults, seq_faults};

use crate::error::NameError;
use crate::found::{note, note_if};
use crate::visible::Scope;
use bed_lang::{Name, Seq, Sort, Var, Word};

// A term of this sort stands where one of the other sort is asked for.
fn is_other_sort(asked: Option<Sort>, own: Sort) -> bool
    ensures { result ≡ Rattle.bed_names.specs.Terms.is_other_sort asked own }
{
    match asked {
        None => false,
        Some(asked) => asked != own,
    }
}

pub(crate) fn sort(
    found: Option<NameError>,
    asked: Option<Sort>,
    own: Sort,
    at: u32,
) -> Option<NameError>
    ensures { result ≡ noted found (sort_faults asked own at) }
{
    note_if(found, is_other_sort(asked, own), NameError::Sort { at })
}

fn word_if(
    found: Option<NameError>,
    asked: Option<Sort>,
    is_known: bool,
    at: u32,
) -> Option<NameError>
    ensures { result ≡ noted found (word_faults_if asked is_known at) }
{
    if is_known {
        sort(found, asked, Sort::Word, at)
    } else {
        note(found, NameError::Unknown { at })
    }
}

/// What is left of what was found and the faults of a name that stands for a variable.
pub(crate) fn name(
    scope: &Scope,
    found: Option<NameError>,
    asked: Option<Sort>,
    x: &Name,
) -> Option<NameError>
    ensures { result ≡ noted found (name_faults scope.now asked x.now) }
{
    match scope.sort_of(x) {
        None => note(found, NameError::Unknown { at: x.at }),
        Some(own) => sort(found, asked, own, x.at),
    }
}

pub(crate) fn variable(
    scope: &Scope,
    found: Option<NameError>,
    asked: Option<Sort>,
    x: &Var,
) -> Option<NameError>
    ensures { result ≡ noted found (variable_faults scope.now asked x.now) }
{
    match x {
        Var::Named(x) => name(scope, found, asked, x),
        Var::Old(x) => word_if(found, asked, scope.has_old(x), x.at),
        Var::Answer(at) => word_if(found, asked, scope.has_answer(), *at),
        Var::Fresh(_) => found,
        Var::Hole => found,
    }
}

pub(crate) fn label(scope: &Scope, found: Option<NameError>, f: &Name) -> Option<NameError>
    ensures { result ≡ noted found (label_faults scope.now f.now) }
{
    note_if(
        found,
        scope.label(f).is_none(),
        NameError::Unknown { at: f.at },
    )
}

pub(crate) fn signature_name(scope: &Scope, found: Option<NameError>, x: &Name) -> Option<NameError>
    ensures { result ≡ noted found (signature_name_faults scope.now x.now) }
{
    note_if(
        found,
        scope.signature(x).is_none(),
        NameError::Unknown { at: x.at },
    )
}

pub(crate) fn word(scope: &Scope, found: Option<NameError>, w: &Word) -> Option<NameError>
    ensures { result ≡ noted found (word_faults scope.now w.now) }
{
    match w {
        Word::Number(_) => found,
        Word::Var(x) => variable(scope, found, Some(Sort::Word), x),
        Word::Label(f) => label(scope, found, f),
        Word::Add(a, b) => word(scope, word(scope, found, a.get()), b.get()),
        Word::Sub(a, b) => word(scope, word(scope, found, a.get()), b.get()),
        Word::Times(_, a) => word(scope, found, a.get()),
    }
}

pub(crate) fn seq(scope: &Scope, found: Option<NameError>, s: &Seq) -> Option<NameError>
    ensures { result ≡ noted found (seq_faults scope.now s.now) }
{
    match s {
        Seq::Var(x) => variable(scope, found, Some(Sort::Seq), x),
        Seq::Nil => found,
        Seq::Cons(a, s) => seq(scope, word(scope, found, a.get()), s.get()),
        Seq::App(s, t) => seq(scope, seq(scope, found, s.get()), t.get()),
    }
}
