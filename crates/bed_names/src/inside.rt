//! What the statements of a function see, and the faults of the parts of a statement.
#![tactic(auto, using(crate::proofs::NotedLemmas::noted_append))]

ghost use Rattle.std.specs.Prelude.{◌≡◌, ◌++◌, ◌<◌, [], ◌∷◌, ◌||◌, IfSome};
ghost use Rattle.std.specs.Option.{option_copied};
ghost use Rattle.bed_names.specs.Names.{is_among as is_among_names};
ghost use Rattle.bed_names.specs.Faults.{noted};
ghost use Rattle.bed_names.specs.Terms.{seq_faults};
ghost use Rattle.bed_names.specs.Statements.{frame, callee as callee_of, room_faults, callee_faults, is_local as is_the_local, operand_place as place_of_operand, local_faults, operand_faults, operands_faults, test_faults, via_faults, call_head_faults, call_faults, keep_faults, other_local_faults, key_faults, list_keep_faults, find_faults, walk_faults, assign_faults, compute_faults, move_faults};

use crate::assertions::{assertion, hints, kept};
use crate::error::NameError;
use crate::found::note_if;
use crate::terms::{label, seq, signature_name};
use crate::twice::pair;
use crate::visible::{Outer, is_among, is_same};
use bed_lang::{Assertion, Hint, Name, Operand, Place, Seq, Signature, Test};
use std::marker::Model;

/// What the statements of a function see.
#[derive(Drop)]
pub(crate) struct Inside<'a> {
    outer: &'a Outer<'a>,
    // The arguments and the other locals.
    params: &'a [Name],
    locals: &'a [Name],
    // The words of the call area, where the function's signature is known.
    area: Option<u32>,
}

impl<'a> Model for Inside<'a> {
    ghost use Rattle.std.specs.Prelude.{◌++◌};
    ghost use Rattle.std.specs.Coded.{codes};
    ghost use Rattle.bed_lang.specs.contracts.word.Word as word_contract;
    ghost use Rattle.bed_lang.specs.contracts.word.Seq as seq_contract;
    ghost use Rattle.bed_names.specs.Statements.{Surroundings};

    ghost Value = { Surroundings };

    ghost coded = { Prim.hlevel (codes, word_contract.the_row.coded, seq_contract.the_row.coded) };

    ghost view = { λ i. record { visible = i.outer.now; locals = i.params.now ++ i.locals.now; area = i.area } };
}

impl<'a> Inside<'a> {
    /// What a function's statements see, with these arguments and further locals, and with a call
    /// area of so many words.
    pub(crate) fn new(
        outer: &'a Outer<'a>,
        params: &'a [Name],
        locals: &'a [Name],
        area: Option<u32>,
    ) -> Inside<'a>
        ensures { result ≡ record { visible = outer.now; locals = params.now ++ locals.now; area = area } }
    {
        Inside {
            outer,
            params,
            locals,
            area,
        }
    }

    /// What its assertions see.
    pub(crate) fn outer(&self) -> &'a Outer<'a>
        ensures { result.now ≡ self.now.visible }
    {
        self.outer
    }

    fn has_local(&self, x: &Name) -> bool
        ensures { result ≡ is_among_names self.now.locals x.now }
    {
        is_among(self.params, x) || is_among(self.locals, x)
    }

    fn area(&self) -> Option<u32>
        ensures { result ≡ self.now.area }
    {
        self.area
    }
}

fn local(inside: &Inside, found: Option<NameError>, x: &Name) -> Option<NameError>
    ensures { result ≡ noted found (local_faults inside.now x.now) }
{
    note_if(found, !inside.has_local(x), NameError::Unknown { at: x.at })
}

/// What is left of what was found and the faults of an operand.
pub(crate) fn operand(inside: &Inside, found: Option<NameError>, a: &Operand) -> Option<NameError>
    ensures { result ≡ noted found (operand_faults inside.now a.now) }
{
    match a {
        Operand::Number(_) => found,
        Operand::Local(x) => local(inside, found, x),
        Operand::Label(f) => label(&inside.outer().inner(), found, f),
    }
}

fn operands(inside: &Inside, mut found: Option<NameError>, args: &[Operand]) -> Option<NameError>
    ensures { result ≡ noted found (operands_faults inside.now args.now) }
{
    for a in args {
        found = operand(inside, found, a);
    }
    found
}

/// The same of a test.
pub(crate) fn test(inside: &Inside, found: Option<NameError>, t: &Test) -> Option<NameError>
    ensures { result ≡ noted found (test_faults inside.now t.now) }
{
    operand(inside, operand(inside, found, &t.left), &t.right)
}

/// The same of an assignment to a local.
pub(crate) fn assign(
    inside: &Inside,
    found: Option<NameError>,
    x: &Name,
    a: &Operand,
) -> Option<NameError>
    ensures { result ≡ noted found (assign_faults inside.now x.now a.now) }
{
    operand(inside, local(inside, found, x), a)
}

/// The same of an assignment of an operation on two operands.
pub(crate) fn compute(
    inside: &Inside,
    found: Option<NameError>,
    x: &Name,
    a: &Operand,
    b: &Operand,
) -> Option<NameError>
    ensures { result ≡ noted found (compute_faults inside.now x.now a.now b.now) }
{
    operand(inside, assign(inside, found, x, a), b)
}

/// The same of a store at a place.
pub(crate) fn store(
    inside: &Inside,
    found: Option<NameError>,
    p: &Place,
    a: &Operand,
) -> Option<NameError>
    ensures { result ≡ noted found (move_faults inside.now p.now a.now) }
{
    operand(inside, operand(inside, found, &p.base), a)
}

// The signature of a callee.
fn callee<'a>(outer: &Outer<'a>, target: &Operand, via: &Option<Name>) -> Option<&'a Signature>
    ensures is { option_copied result ≡ callee_of outer.now.decls target.now via.now }
    ensures fits { IfSome result (λ s. frame s.now < 4294967296) }
{
    match via {
        Some(x) => outer.signature(x),
        None => match target {
            Operand::Label(f) => outer.signature(outer.label(f)?),
            _ => None,
        },
    }
}

// A callee's frame fits the call area.
fn room(area: Option<u32>, found: Option<NameError>, needs: u32, at: u32) -> Option<NameError>
    ensures { result ≡ noted found (room_faults area needs at) }
{
    match area {
        None => found,
        Some(has) => note_if(found, has < needs, NameError::StackRoom { at, needs, has }),
    }
}

fn call_room(
    area: Option<u32>,
    found: Option<NameError>,
    callee: Option<&Signature>,
    args: &[Operand],
    at: u32,
) -> Option<NameError>
    requires { IfSome callee (λ s. frame s.now < 4294967296) }
    ensures { result ≡ noted found (callee_faults area (option_copied callee.entry) args.now at) }
{
    match callee {
        None => found,
        Some(s) => {
            let is_other_number = s.params.len() != args.len();
            let needs = 1 + s.params.len() as u32 + s.reserve;
            let found = note_if(found, is_other_number, NameError::Arity { at });
            room(area, found, needs, at)
        }
    }
}

fn via_signature(inside: &Inside, found: Option<NameError>, via: &Option<Name>) -> Option<NameError>
    ensures { result ≡ noted found (via_faults inside.now via.now) }
{
    match via {
        None => found,
        Some(x) => signature_name(&inside.outer().inner(), found, x),
    }
}

// A call without its hints and its assertion.
fn call_head(
    inside: &Inside,
    found: Option<NameError>,
    at: u32,
    into: &Name,
    target: &Operand,
    via: &Option<Name>,
    args: &[Operand],
) -> Option<NameError>
    ensures { result ≡ noted found (call_head_faults inside.now at into.now target.now via.now args.now) }
{
    let found = local(inside, found, into);
    let callee = callee(inside.outer(), target, via);
    let found = call_room(inside.area(), found, callee, args, at);
    let found = operand(inside, found, target);
    let found = via_signature(inside, found, via);
    operands(inside, found, args)
}

/// The same of a call.
pub(crate) fn call(
    inside: &Inside,
    found: Option<NameError>,
    at: u32,
    into: &Name,
    target: &Operand,
    via: &Option<Name>,
    args: &[Operand],
    used: &[Hint],
    after: &Assertion,
) -> Option<NameError>
    ensures { result ≡ noted found (call_faults inside.now at into.now target.now via.now args.now used.now after.now) }
{
    let found = call_head(inside, found, at, into, target, via, args);
    let found = hints(&inside.outer().inner(), found, used);
    assertion(inside.outer(), found, after)
}

fn is_local(a: &Operand, x: &Name) -> bool
    ensures { result ≡ is_the_local a.now x.now }
{
    match a {
        Operand::Local(y) => is_same(x, y),
        _ => false,
    }
}

fn operand_place(a: &Operand) -> u32
    ensures { result ≡ place_of_operand a.now }
{
    match a {
        Operand::Number(_) => 0,
        Operand::Local(x) => x.at,
        Operand::Label(f) => f.at,
    }
}

fn other_local(
    inside: &Inside,
    found: Option<NameError>,
    is_twice: bool,
    x: &Name,
) -> Option<NameError>
    ensures { result ≡ noted found (other_local_faults inside.now is_twice x.now) }
{
    local(
        inside,
        note_if(found, is_twice, NameError::Twice { at: x.at }),
        x,
    )
}

fn key_operand(
    inside: &Inside,
    found: Option<NameError>,
    is_twice: bool,
    a: &Operand,
) -> Option<NameError>
    ensures { result ≡ noted found (key_faults inside.now is_twice a.now) }
{
    let fault = NameError::Twice {
        at: operand_place(a),
    };
    operand(inside, note_if(found, is_twice, fault), a)
}

fn keep(
    inside: &Inside,
    found: Option<NameError>,
    seen: &Name,
    rest: &Name,
    a: &Assertion,
) -> Option<NameError>
    ensures { result ≡ noted found (keep_faults inside.now seen.now rest.now a.now) }
{
    let found = pair(&inside.outer().inner(), found, seen, rest);
    kept(inside.outer(), found, seen, rest, a)
}

fn list_seq(inside: &Inside, found: Option<NameError>, s: &Seq) -> Option<NameError>
    ensures { result ≡ noted found (seq_faults inside.now.visible s.now) }
{
    seq(&inside.outer().inner(), found, s)
}

fn list_keep(
    inside: &Inside,
    found: Option<NameError>,
    is_twice: bool,
    list: &Name,
    s: &Seq,
    seen: &Name,
    rest: &Name,
    a: &Assertion,
) -> Option<NameError>
    ensures { result ≡ noted found (list_keep_faults inside.now is_twice list.now s.now seen.now rest.now a.now) }
{
    let found = other_local(inside, found, is_twice, list);
    let found = list_seq(inside, found, s);
    keep(inside, found, seen, rest, a)
}

/// The same of a `find` without its body.
pub(crate) fn find(
    inside: &Inside,
    found: Option<NameError>,
    node: &Name,
    value: &Name,
    key: &Operand,
    list: &Name,
    s: &Seq,
    seen: &Name,
    rest: &Name,
    a: &Assertion,
) -> Option<NameError>
    ensures { result ≡ noted found (find_faults inside.now node.now value.now key.now list.now s.now seen.now rest.now a.now) }
{
    let found = local(inside, found, node);
    let found = other_local(inside, found, is_same(value, node), value);
    let found = key_operand(
        inside,
        found,
        is_local(key, node) || is_local(key, value),
        key,
    );
    let is_twice = is_same(list, node) || is_same(list, value) || is_local(key, list);
    list_keep(inside, found, is_twice, list, s, seen, rest, a)
}

/// The same of a `walk` without its body.
pub(crate) fn walk(
    inside: &Inside,
    found: Option<NameError>,
    node: &Name,
    value: &Name,
    list: &Name,
    s: &Seq,
    seen: &Name,
    rest: &Name,
    a: &Assertion,
) -> Option<NameError>
    ensures { result ≡ noted found (walk_faults inside.now node.now value.now list.now s.now seen.now rest.now a.now) }
{
    let found = local(inside, found, node);
    let found = other_local(inside, found, is_same(value, node), value);
    let is_twice = is_same(list, node) || is_same(list, value);
    list_keep(inside, found, is_twice, list, s, seen, rest, a)
}
