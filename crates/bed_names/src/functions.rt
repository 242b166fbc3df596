//! The faults of signatures, predicates, imports and functions.
#![tactic(auto, using(crate::proofs::NotedLemmas::noted_append))]

ghost use Rattle.std.specs.Prelude.{◌≡◌, ◌<◌, ◌++◌, [], false, length};
ghost use Rattle.std.specs.Option.{option_copied};
ghost use Rattle.bed_names.specs.Names.{words};
ghost use Rattle.bed_names.specs.Faults.{noted};
ghost use Rattle.bed_names.specs.Terms.{twice_faults, bind_names, assertion_faults, signature_name_faults};
ghost use Rattle.bed_names.specs.Modules.{plain, signature_names, signature_faults, cases_faults, predicate_faults, import_faults, params_of, logical_of, area_of, locals_room_faults, function_visible, inside, faults_under, function_faults};
ghost use Rattle.bed_names.specs.Statements.{body_falls, body_faults};

use crate::assertions::assertion;
use crate::declared::Declared;
use crate::error::NameError;
use crate::found::note_if;
use crate::inside::Inside;
use crate::statements::{Judged, body};
use crate::terms::signature_name;
use crate::twice::{binders, names};
use crate::visible::Outer;
use bed_lang::{Assertion, Bind, Function, Import, Name, Predicate, Signature};

// Names that are declared where these parameters and logical variables are in scope.
fn names_behind(
    declared: &Declared,
    found: Option<NameError>,
    params: &[Name],
    logical: &[Bind],
    more: &[Name],
) -> Option<NameError>
    ensures { result ≡ noted found (twice_faults (words params.now ++ logical.now) more.now) }
{
    names(
        &Outer::of_signature(declared, params, logical, false).inner(),
        found,
        more,
    )
}

// Variables that are declared where these parameters are in scope.
fn binders_behind(
    declared: &Declared,
    found: Option<NameError>,
    params: &[Name],
    more: &[Bind],
) -> Option<NameError>
    ensures { result ≡ noted found (twice_faults (words params.now) (bind_names more.now)) }
{
    binders(
        &Outer::of_signature(declared, params, &[], false).inner(),
        found,
        more,
    )
}

/// What the precondition or the postcondition sees.
pub(crate) fn outer_of<'a>(declared: &'a Declared<'a>, s: &'a Signature, answer: bool) -> Outer<'a>
    ensures { result ≡ plain declared.now (signature_names s.now) answer }
{
    Outer::of_signature(declared, s.params.as_slice(), s.logical.as_slice(), answer)
}

// The precondition or the postcondition.
fn condition(
    declared: &Declared,
    found: Option<NameError>,
    s: &Signature,
    answer: bool,
    a: &Assertion,
) -> Option<NameError>
    ensures { result ≡ noted found (assertion_faults (plain declared.now (signature_names s.now) answer) a.now) }
{
    assertion(&outer_of(declared, s, answer), found, a)
}

/// What is left of what was found and the faults of a signature.
pub(crate) fn signature(
    declared: &Declared,
    found: Option<NameError>,
    s: &Signature,
) -> Option<NameError>
    ensures { result ≡ noted found (signature_faults declared.now s.now) }
{
    let found = names_behind(declared, found, &[], &[], s.params.as_slice());
    let found = binders_behind(declared, found, s.params.as_slice(), s.logical.as_slice());
    let found = condition(declared, found, s, false, &s.pre);
    condition(declared, found, s, true, &s.post)
}

fn cases(outer: &Outer, mut found: Option<NameError>, cases: &[Assertion]) -> Option<NameError>
    ensures { result ≡ noted found (cases_faults outer.now cases.now) }
{
    for a in cases {
        found = assertion(outer, found, a);
    }
    found
}

// The cases of a predicate with these parameters.
fn cases_of(
    declared: &Declared,
    found: Option<NameError>,
    params: &[Bind],
    list: &[Assertion],
) -> Option<NameError>
    ensures { result ≡ noted found (cases_faults (plain declared.now params.now false) list.now) }
{
    cases(&Outer::of_predicate(declared, params), found, list)
}

/// The same of a predicate.
pub(crate) fn predicate(
    declared: &Declared,
    found: Option<NameError>,
    p: &Predicate,
) -> Option<NameError>
    ensures { result ≡ noted found (predicate_faults declared.now p.now) }
{
    let found = binders_behind(declared, found, &[], p.params.as_slice());
    cases_of(declared, found, p.params.as_slice(), p.cases.as_slice())
}

// The signature that an import or a function names.
fn named_signature(declared: &Declared, found: Option<NameError>, x: &Name) -> Option<NameError>
    ensures { result ≡ noted found (signature_name_faults (plain declared.now [] false) x.now) }
{
    signature_name(
        &Outer::of_signature(declared, &[], &[], false).inner(),
        found,
        x,
    )
}

/// The same of an import.
pub(crate) fn import(declared: &Declared, found: Option<NameError>, i: &Import) -> Option<NameError>
    ensures { result ≡ noted found (import_faults declared.now i.now) }
{
    named_signature(declared, found, &i.signature)
}

fn params<'a>(s: Option<&'a Signature>) -> &'a [Name]
    ensures { result.now ≡ params_of (option_copied s.entry) }
{
    match s {
        None => &[],
        Some(s) => s.params.as_slice(),
    }
}

fn logical<'a>(s: Option<&'a Signature>) -> &'a [Bind]
    ensures { result.now ≡ logical_of (option_copied s.entry) }
{
    match s {
        None => &[],
        Some(s) => s.logical.as_slice(),
    }
}

// The words of a call area.
fn area(s: Option<&Signature>, locals: &[Name]) -> Option<u32>
    requires { length locals.now < 4294967296 }
    ensures { result ≡ area_of (option_copied s.entry) locals.now }
{
    match s {
        None => None,
        Some(s) => Some(s.reserve.saturating_sub(locals.len() as u32)),
    }
}

// The locals find room.
fn locals_room(found: Option<NameError>, s: Option<&Signature>, f: &Function) -> Option<NameError>
    requires { length f.now.locals < 4294967296 }
    ensures { result ≡ noted found (locals_room_faults (option_copied s.entry) f.now) }
{
    match s {
        None => found,
        Some(s) => {
            let (needs, has) = (f.locals.len() as u32, s.reserve);
            let at = f.name.at;
            note_if(found, has < needs, NameError::StackRoom { at, needs, has })
        }
    }
}

// The locals are no names of the signature.
fn locals_twice(
    declared: &Declared,
    found: Option<NameError>,
    s: Option<&Signature>,
    f: &Function,
) -> Option<NameError>
    ensures { result ≡ noted found (twice_faults (words (params_of (option_copied s.entry)) ++ logical_of (option_copied s.entry)) f.now.locals) }
{
    names_behind(declared, found, params(s), logical(s), f.locals.as_slice())
}

/// What a function's assertions see.
pub(crate) fn outer_in<'a>(
    declared: &'a Declared<'a>,
    s: Option<&'a Signature>,
    f: &'a Function,
) -> Outer<'a>
    ensures { result ≡ function_visible declared.now (option_copied s.entry) f.now }
{
    Outer::of_function(declared, params(s), logical(s), f.locals.as_slice())
}

// What a function's statements see.
fn inside_of<'a>(outer: &'a Outer<'a>, s: Option<&'a Signature>, f: &'a Function) -> Inside<'a>
    requires { length f.now.locals < 4294967296 }
    ensures { result ≡ record {
      visible = outer.now;
      locals = params_of (option_copied s.entry) ++ f.now.locals;
      area = area_of (option_copied s.entry) f.now.locals;
    } }
{
    let locals = f.locals.as_slice();
    Inside::new(outer, params(s), locals, area(s, locals))
}

// The body of a function under its signature.
fn body_under(
    declared: &Declared,
    found: Option<NameError>,
    s: Option<&Signature>,
    f: &Function,
) -> Judged
    requires { length f.now.locals < 4294967296 }
    ensures falls { result.falls ≡ body_falls (inside declared.now (option_copied s.entry) f.now) f.now.body }
    ensures found { result.found ≡ noted found (body_faults (inside declared.now (option_copied s.entry) f.now) f.now.body) }
{
    let outer = outer_in(declared, s, f);
    body(&inside_of(&outer, s, f), found, f.body.as_slice())
}

// A function under its signature.
fn function_under(
    declared: &Declared,
    found: Option<NameError>,
    s: Option<&Signature>,
    f: &Function,
) -> Option<NameError>
    requires { length f.now.locals < 4294967296 }
    ensures { result ≡ noted found (faults_under declared.now (option_copied s.entry) f.now) }
{
    let found = locals_room(found, s, f);
    let found = locals_twice(declared, found, s, f);
    let judged = body_under(declared, found, s, f);
    note_if(
        judged.found,
        judged.falls,
        NameError::FallsOff { at: f.end },
    )
}

/// The same of a function.
pub(crate) fn function(
    declared: &Declared,
    found: Option<NameError>,
    f: &Function,
) -> Option<NameError>
    requires { length f.now.locals < 4294967296 }
    ensures { result ≡ noted found (function_faults declared.now f.now) }
{
    let found = named_signature(declared, found, &f.signature);
    function_under(declared, found, declared.signature(&f.signature), f)
}
