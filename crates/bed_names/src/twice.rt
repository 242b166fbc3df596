//! Names that are declared twice.
#![tactic(auto, using(crate::proofs::NotedLemmas::noted_append))]

ghost use Rattle.std.specs.Prelude.{◌≡◌, [], ◌∷◌, ◌||◌, is_some};
ghost use Rattle.bed_names.specs.Names.{is_among as is_among_names};
ghost use Rattle.bed_names.specs.Faults.{noted};
ghost use Rattle.bed_names.specs.Terms.{twice_faults, bind_names};

use crate::error::NameError;
use crate::found::note_if;
use crate::visible::{Scope, is_among, is_same};
use bed_lang::{Bind, Name};

/// What is left of what was found and the faults of a list of names that are declared in a scope.
pub(crate) fn names(
    scope: &Scope,
    mut found: Option<NameError>,
    names: &[Name],
) -> Option<NameError>
    ensures { result ≡ noted found (twice_faults scope.now.names names.now) }
{
    for (i, x) in names.iter().enumerate() {
        let is_known = scope.sort_of(x).is_some();
        let is_twice = is_known || is_among(&names[..i], x);
        found = note_if(found, is_twice, NameError::Twice { at: x.at });
    }
    found
}

/// The same of two names.
pub(crate) fn pair(
    scope: &Scope,
    found: Option<NameError>,
    first: &Name,
    second: &Name,
) -> Option<NameError>
    ensures { result ≡ noted found (twice_faults scope.now.names (first.now ∷ second.now ∷ [])) }
{
    let found = note_if(
        found,
        scope.sort_of(first).is_some(),
        NameError::Twice { at: first.at },
    );
    let is_twice = scope.sort_of(second).is_some() || is_same(second, first);
    note_if(found, is_twice, NameError::Twice { at: second.at })
}

// Whether one of the binders has this name.
fn is_bound(binders: &[Bind], x: &Name) -> bool
    ensures { result ≡ is_among_names (bind_names binders.now) x.now }
{
    for b in binders {
        if x.bytes.as_slice() == b.name.bytes.as_slice() {
            return true;
        }
    }
    false
}

/// The same of a list of variables.
pub(crate) fn binders(
    scope: &Scope,
    mut found: Option<NameError>,
    binders: &[Bind],
) -> Option<NameError>
    ensures { result ≡ noted found (twice_faults scope.now.names (bind_names binders.now)) }
{
    for (i, b) in binders.iter().enumerate() {
        let is_known = scope.sort_of(&b.name).is_some();
        let is_twice = is_known || is_bound(&binders[..i], &b.name);
        found = note_if(found, is_twice, NameError::Twice { at: b.name.at });
    }
    found
}
