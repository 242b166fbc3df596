//! Statements without bare arguments.
ghost use Rattle.std.specs.Prelude.{◌≡◌, IfOk, map};
ghost use Rattle.bed_names.specs.Resolved.{resolved_hint, resolved_assertion, resolved_keep, resolved_join, resolved_kind, resolved_stmt};

use crate::resolving::terms::{assertion, hint, hints, kept};
use crate::visible::Outer;
use bed_lang::{Assertion, Hint, Join, List, Name, Operand, Seq, Stmt, StmtKind, Test, Tree, both};
use std::alloc::{AllocError, Global};

fn join(alloc: Global, outer: &Outer, join: &Option<Join>) -> Result<Option<Join>, AllocError>
    ensures { IfOk result (λ r. r ≡ resolved_join outer.now join.now) }
{
    match join {
        None => Ok(None),
        Some(j) => Ok(Some(Join {
            place: j.place,
            assertion: assertion(alloc, outer, &j.assertion)?,
        })),
    }
}

// Where a call's result goes, what it calls, and with which arguments.
fn called(
    alloc: Global,
    into: &Name,
    target: &Operand,
    via: &Option<Name>,
    args: &List<Operand>,
) -> Result<((Name, Operand), (Option<Name>, List<Operand>)), AllocError>
    ensures { IfOk result (λ r. r ≡ ((into.now, target.now), (via.now, args.now))) }
{
    let heads = both(alloc, into, target)?;
    let rest = both(alloc, via, args)?;
    Ok((heads, rest))
}

// The hints of a call, and what holds after it.
fn used_and_after(
    alloc: Global,
    outer: &Outer,
    used: &List<Hint>,
    after: &Assertion,
) -> Result<(List<Hint>, Assertion), AllocError>
    ensures used { IfOk result (λ r. r.0 ≡ map (resolved_hint outer.now) used.now) }
    ensures after { IfOk result (λ r. r.1 ≡ resolved_assertion outer.now after.now) }
{
    let hints = hints(alloc, outer, used.as_slice())?;
    let after = assertion(alloc, outer, after)?;
    Ok((hints, after))
}

fn resolve_call(
    alloc: Global,
    outer: &Outer,
    place: u32,
    into: &Name,
    target: &Operand,
    via: &Option<Name>,
    args: &List<Operand>,
    used: &List<Hint>,
    after: &Assertion,
) -> Result<StmtKind, AllocError>
    ensures { IfOk result (λ r. r ≡ StmtKind.Call place into.now target.now via.now args.now (map (resolved_hint outer.now) used.now) (resolved_assertion outer.now after.now)) }
{
    let heads = called(alloc, into, target, via, args)?;
    let (hints, after) = used_and_after(alloc, outer, used, after)?;
    let ((into, target), (via, args)) = heads;
    Ok(StmtKind::Call {
        place,
        into,
        target,
        via,
        args,
        hints,
        after,
    })
}

fn resolve_if(
    alloc: Global,
    outer: &Outer,
    test: &Test,
    yes: List<Stmt>,
    no: List<Stmt>,
    end: &Option<Join>,
) -> Result<StmtKind, AllocError>
    ensures { IfOk result (λ r. r ≡ StmtKind.If test.now yes no (resolved_join outer.now end.now)) }
{
    let join = join(alloc, outer, end)?;
    Ok(StmtKind::If {
        test: test.copy(alloc)?,
        yes,
        no,
        join,
    })
}

fn resolve_while(
    alloc: Global,
    outer: &Outer,
    test: &Test,
    place: u32,
    invariant: &Assertion,
    body: List<Stmt>,
) -> Result<StmtKind, AllocError>
    ensures { IfOk result (λ r. r ≡ StmtKind.While test.now place (resolved_assertion outer.now invariant.now) body) }
{
    let invariant = assertion(alloc, outer, invariant)?;
    Ok(StmtKind::While {
        test: test.copy(alloc)?,
        place,
        invariant,
        body,
    })
}

// The names of the elements seen and of the rest, and what is kept.
fn keep_of(
    alloc: Global,
    outer: &Outer,
    seen: &Name,
    rest: &Name,
    keep: &Assertion,
) -> Result<((Name, Name), Assertion), AllocError>
    ensures names { IfOk result (λ r. r.0 ≡ (seen.now, rest.now)) }
    ensures keep { IfOk result (λ r. r.1 ≡ resolved_keep outer.now seen.now rest.now keep.now) }
{
    let names = both(alloc, seen, rest)?;
    let keep = kept(alloc, outer, seen, rest, keep)?;
    Ok((names, keep))
}

// What `find` and `walk` go over: the list, its elements, and what is kept of them.
fn over(
    alloc: Global,
    outer: &Outer,
    list: &Name,
    seq: &Seq,
    seen: &Name,
    rest: &Name,
    keep: &Assertion,
) -> Result<((Name, Seq), ((Name, Name), Assertion)), AllocError>
    ensures list { IfOk result (λ r. r.0 ≡ (list.now, seq.now)) }
    ensures names { IfOk result (λ r. r.1.0 ≡ (seen.now, rest.now)) }
    ensures keep { IfOk result (λ r. r.1.1 ≡ resolved_keep outer.now seen.now rest.now keep.now) }
{
    let list = both(alloc, list, seq)?;
    let keep = keep_of(alloc, outer, seen, rest, keep)?;
    Ok((list, keep))
}

// The locals that a `find` sets, and what it looks for.
fn find_heads(
    alloc: Global,
    node: &Name,
    value: &Name,
    key: &Operand,
) -> Result<((Name, Name), Operand), AllocError>
    ensures { IfOk result (λ r. r ≡ ((node.now, value.now), key.now)) }
{
    let locals = both(alloc, node, value)?;
    let key = key.copy(alloc)?;
    Ok((locals, key))
}

fn resolve_find(
    alloc: Global,
    outer: &Outer,
    node: &Name,
    value: &Name,
    key: &Operand,
    list: &Name,
    seq: &Seq,
    seen: &Name,
    rest: &Name,
    keep: &Assertion,
    body: List<Stmt>,
) -> Result<StmtKind, AllocError>
    ensures { IfOk result (λ r. r ≡ StmtKind.Find node.now value.now key.now list.now seq.now seen.now rest.now (resolved_keep outer.now seen.now rest.now keep.now) body) }
{
    let heads = find_heads(alloc, node, value, key)?;
    let over = over(alloc, outer, list, seq, seen, rest, keep)?;
    let ((node, value), key) = heads;
    let ((list, seq), ((seen, rest), keep)) = over;
    Ok(StmtKind::Find {
        node,
        value,
        key,
        list,
        seq,
        seen,
        rest,
        keep,
        body,
    })
}

fn resolve_walk(
    alloc: Global,
    outer: &Outer,
    node: &Name,
    value: &Name,
    list: &Name,
    seq: &Seq,
    seen: &Name,
    rest: &Name,
    keep: &Assertion,
    body: List<Stmt>,
) -> Result<StmtKind, AllocError>
    ensures { IfOk result (λ r. r ≡ StmtKind.Walk node.now value.now list.now seq.now seen.now rest.now (resolved_keep outer.now seen.now rest.now keep.now) body) }
{
    let locals = both(alloc, node, value)?;
    let over = over(alloc, outer, list, seq, seen, rest, keep)?;
    let (node, value) = locals;
    let ((list, seq), ((seen, rest), keep)) = over;
    Ok(StmtKind::Walk {
        node,
        value,
        list,
        seq,
        seen,
        rest,
        keep,
        body,
    })
}

#[cycle(resolve)]
fn kind(alloc: Global, outer: &Outer, kind: &StmtKind) -> Result<StmtKind, AllocError>
    ensures { IfOk result (λ r. r ≡ resolved_kind outer.now kind.now) }
{
    match kind {
        StmtKind::Call {
            place,
            into,
            target,
            via,
            args,
            hints,
            after,
        } => resolve_call(alloc, outer, *place, into, target, via, args, hints, after),
        StmtKind::If {
            test,
            yes,
            no,
            join,
        } => {
            let yes = body(alloc, outer, yes.as_slice())?;
            let no = body(alloc, outer, no.as_slice())?;
            resolve_if(alloc, outer, test, yes, no, join)
        }
        StmtKind::While {
            test,
            place,
            invariant,
            body: b,
        } => {
            let b = body(alloc, outer, b.as_slice())?;
            resolve_while(alloc, outer, test, *place, invariant, b)
        }
        StmtKind::Hint(h) => Ok(StmtKind::Hint(hint(alloc, outer, h)?)),
        StmtKind::Find {
            node,
            value,
            key,
            list,
            seq,
            seen,
            rest,
            keep,
            body: b,
        } => {
            let b = body(alloc, outer, b.as_slice())?;
            resolve_find(
                alloc, outer, node, value, key, list, seq, seen, rest, keep, b,
            )
        }
        StmtKind::Walk {
            node,
            value,
            list,
            seq,
            seen,
            rest,
            keep,
            body: b,
        } => {
            let b = body(alloc, outer, b.as_slice())?;
            resolve_walk(alloc, outer, node, value, list, seq, seen, rest, keep, b)
        }
        StmtKind::Assign(..)
        | StmtKind::Compute(..)
        | StmtKind::Load(..)
        | StmtKind::LoadByte(..)
        | StmtKind::Store(..)
        | StmtKind::StoreByte(..)
        | StmtKind::Return(..) => kind.copy(alloc),
    }
}

/// The statements of a list without bare arguments.
#[cycle(resolve)]
pub(crate) fn body(alloc: Global, outer: &Outer, body: &[Stmt]) -> Result<List<Stmt>, AllocError>
    ensures { IfOk result (λ r. r ≡ map (resolved_stmt outer.now) body.now) }
{
    let mut out = List::new(alloc);
    for s in body {
        let kind = kind(alloc, outer, &s.kind)?;
        out.push(Stmt { at: s.at, kind })?;
    }
    Ok(out)
}
