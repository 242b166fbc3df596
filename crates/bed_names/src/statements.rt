//! The faults of statements.
#![tactic(auto, using(crate::proofs::NotedLemmas::noted_append))]

ghost use Rattle.std.specs.Prelude.{◌≡◌, ◌++◌, ◌&&◌, ◌||◌, not, map, true};
ghost use Rattle.bed_names.specs.Faults.{noted};
ghost use Rattle.bed_names.specs.Statements.{join_faults, judged_kind, body_falls, body_faults};

use crate::assertions::{assertion, hint};
use crate::error::NameError;
use crate::found::note_if;
use crate::inside::{Inside, assign, call, compute, find, operand, store, test, walk};
use crate::visible::Outer;
use bed_lang::{Join, Stmt, StmtKind};

/// Whether a list of statements falls through, and what is left of what was found and its faults.
#[derive(Drop)]
pub(crate) struct Judged {
    pub(crate) falls: bool,
    pub(crate) found: Option<NameError>,
}

// The end of an `if`, of which bodies fall through or don't.
fn join(
    outer: &Outer,
    found: Option<NameError>,
    at: u32,
    yes_falls: bool,
    no_falls: bool,
    join: &Option<Join>,
) -> Option<NameError>
    ensures { result ≡ noted found (join_faults outer.now at yes_falls no_falls join.now) }
{
    match join {
        None => note_if(found, yes_falls && no_falls, NameError::MissingJoin { at }),
        Some(j) => {
            let is_dead = !(yes_falls || no_falls);
            let found = note_if(found, is_dead, NameError::Dead { at: j.place });
            assertion(outer, found, &j.assertion)
        }
    }
}

/// A statement at a place.
#[cycle(judge)]
pub(crate) fn kind(inside: &Inside, found: Option<NameError>, at: u32, kind: &StmtKind) -> Judged
    ensures falls { result.falls ≡ (judged_kind inside.now kind.now at).falls }
    ensures found { result.found ≡ noted found (judged_kind inside.now kind.now at).faults }
{
    match kind {
        StmtKind::Assign(x, a) => straight(assign(inside, found, x, a)),
        StmtKind::Compute(x, _, a, b) => straight(compute(inside, found, x, a, b)),
        StmtKind::Load(x, p) => straight(assign(inside, found, x, &p.base)),
        StmtKind::LoadByte(x, p) => straight(assign(inside, found, x, &p.base)),
        StmtKind::Store(p, a) => straight(store(inside, found, p, a)),
        StmtKind::StoreByte(p, a) => straight(store(inside, found, p, a)),
        StmtKind::Call {
            place,
            into,
            target,
            via,
            args,
            hints,
            after,
        } => {
            let (args, hints) = (args.as_slice(), hints.as_slice());
            straight(call(inside, found, *place, into, target, via, args, hints, after))
        }
        StmtKind::If {
            test: t,
            yes,
            no,
            join: j,
        } => {
            let (ys, ns) = (yes.as_slice(), no.as_slice());
            let tested = test(inside, found, t);
            let yes = body(inside, tested, ys);
            let no = body(inside, yes.found, ns);
            let found = join(inside.outer(), no.found, at, yes.falls, no.falls, j);
            Judged {
                falls: yes.falls || no.falls,
                found,
            }
        }
        StmtKind::While {
            test: t,
            invariant,
            body: b,
            ..
        } => {
            let found = assertion(inside.outer(), test(inside, found, t), invariant);
            straight(body(inside, found, b.as_slice()).found)
        }
        StmtKind::Return(a) => Judged {
            falls: false,
            found: operand(inside, found, a),
        },
        StmtKind::Hint(h) => straight(hint(&inside.outer().inner(), found, h)),
        StmtKind::Find {
            node,
            value,
            key,
            list,
            seq,
            seen,
            rest,
            keep,
            body: b,
        } => {
            let found = find(inside, found, node, value, key, list, seq, seen, rest, keep);
            let b = body(inside, found, b.as_slice());
            straight(note_if(b.found, b.falls, NameError::MissingJoin { at }))
        }
        StmtKind::Walk {
            node,
            value,
            list,
            seq,
            seen,
            rest,
            keep,
            body: b,
        } => {
            let found = walk(inside, found, node, value, list, seq, seen, rest, keep);
            let b = body(inside, found, b.as_slice());
            straight(note_if(b.found, !b.falls, NameError::Dead { at }))
        }
    }
}

// A statement that falls through.
fn straight(found: Option<NameError>) -> Judged
    ensures { result ≡ record { falls = true; found = found } }
{
    Judged { falls: true, found }
}

/// A list of statements.
#[cycle(judge)]
pub(crate) fn body(inside: &Inside, found: Option<NameError>, body: &[Stmt]) -> Judged
    ensures falls { result.falls ≡ body_falls inside.now body.now }
    ensures found { result.found ≡ noted found (body_faults inside.now body.now) }
{
    let mut falls = true;
    let mut found = found;
    for s in body {
        found = note_if(found, !falls, NameError::Dead { at: s.at });
        let judged = kind(inside, found, s.at, &s.kind);
        falls = judged.falls;
        found = judged.found;
    }
    Judged { falls, found }
}
