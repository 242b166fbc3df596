//! Statements.
ghost use Rattle.std.specs.Prelude.{◌≡◌, ◌≤◌, ◌++◌, ◌∷◌, [], OnOk};
ghost use Rattle.bed_print.specs.Kinds.{assign_kinds, compute_kinds, load_kinds, load_byte_kinds, store_kinds, store_byte_kinds, fixed, operand_kinds, test_kinds, pair_kinds, via_kinds, target_kinds, call_kinds, list_kinds, over_kinds, join_kinds, hint_kinds, assertion_kinds, find_kinds, walk_kinds, body_kinds, else_kinds, stmt_kind_kinds};
ghost use Rattle.bed_read.specs.Classes.{ASSIGN, HINT, IF, INVARIANT, RETURN, SEMICOLON, WHILE};

use crate::class::{
    AFTER, AS, ASSIGN, BYTE, CALL, COMMA, ELSE, FIND, FOR, HINT, IF, IN, INVARIANT, JOIN, KEEP,
    LEFT_BRACE, LEFT_BRACKET, LEFT_PAREN, OF, RETURN, RIGHT_BRACE, RIGHT_BRACKET, RIGHT_PAREN,
    SEMICOLON, VIA, WALK, WHILE,
};
use crate::hint::push_using;
use crate::leaf::{push_fixed, push_name};
use crate::list::{Printed, push_parted};
use crate::operand::{push_op, push_operand, push_place, push_test};
use crate::sequence::push_seq;
use bed_lang::{Assertion, Hint, Join, List, Name, Op, Operand, Place, Seq, Stmt, StmtKind, Test};
use bed_lex::Kind;
use std::alloc::{AllocError, Global};

fn push_assign(
    alloc: Global,
    into: &Name,
    value: &Operand,
    out: &mut List<Kind>,
) -> Result<(), AllocError>
    ensures { OnOk result (out.new ≡ out.old ++ assign_kinds into.now value.now) }
{
    push_name(alloc, into, out)?;
    push_fixed(ASSIGN, out)?;
    push_operand(alloc, value, out)?;
    push_fixed(SEMICOLON, out)
}

fn push_compute(
    alloc: Global,
    into: &Name,
    op: Op,
    left: &Operand,
    right: &Operand,
    out: &mut List<Kind>,
) -> Result<(), AllocError>
    ensures { OnOk result (out.new ≡ out.old ++ compute_kinds into.now op left.now right.now) }
{
    push_name(alloc, into, out)?;
    push_fixed(ASSIGN, out)?;
    push_operand(alloc, left, out)?;
    push_op(op, out)?;
    push_operand(alloc, right, out)?;
    push_fixed(SEMICOLON, out)
}

fn push_load(
    alloc: Global,
    into: &Name,
    from: &Place,
    out: &mut List<Kind>,
) -> Result<(), AllocError>
    ensures { OnOk result (out.new ≡ out.old ++ load_kinds into.now from.now) }
{
    push_name(alloc, into, out)?;
    push_fixed(ASSIGN, out)?;
    push_fixed(LEFT_BRACKET, out)?;
    push_place(alloc, from, out)?;
    push_fixed(RIGHT_BRACKET, out)?;
    push_fixed(SEMICOLON, out)
}

fn push_load_byte(
    alloc: Global,
    into: &Name,
    from: &Place,
    out: &mut List<Kind>,
) -> Result<(), AllocError>
    ensures { OnOk result (out.new ≡ out.old ++ load_byte_kinds into.now from.now) }
{
    push_name(alloc, into, out)?;
    push_fixed(ASSIGN, out)?;
    push_fixed(BYTE, out)?;
    push_fixed(LEFT_BRACKET, out)?;
    push_place(alloc, from, out)?;
    push_fixed(RIGHT_BRACKET, out)?;
    push_fixed(SEMICOLON, out)
}

fn push_store(
    alloc: Global,
    to: &Place,
    value: &Operand,
    out: &mut List<Kind>,
) -> Result<(), AllocError>
    ensures { OnOk result (out.new ≡ out.old ++ store_kinds to.now value.now) }
{
    push_fixed(LEFT_BRACKET, out)?;
    push_place(alloc, to, out)?;
    push_fixed(RIGHT_BRACKET, out)?;
    push_fixed(ASSIGN, out)?;
    push_operand(alloc, value, out)?;
    push_fixed(SEMICOLON, out)
}

fn push_store_byte(
    alloc: Global,
    to: &Place,
    value: &Operand,
    out: &mut List<Kind>,
) -> Result<(), AllocError>
    ensures { OnOk result (out.new ≡ out.old ++ store_byte_kinds to.now value.now) }
{
    push_fixed(BYTE, out)?;
    push_store(alloc, to, value, out)
}

/// Appends the name of a signature after a target that is a local.
fn push_via(alloc: Global, via: &Option<Name>, out: &mut List<Kind>) -> Result<(), AllocError>
    ensures { OnOk result (out.new ≡ out.old ++ via_kinds via.now) }
{
    match via {
        None => Ok(()),
        Some(name) => {
            push_fixed(VIA, out)?;
            push_name(alloc, name, out)
        }
    }
}

/// Appends a call without its hints and assertion.
fn push_target(
    alloc: Global,
    target: &Operand,
    via: &Option<Name>,
    args: &List<Operand>,
    out: &mut List<Kind>,
) -> Result<(), AllocError>
    ensures { OnOk result (out.new ≡ out.old ++ target_kinds target.now via.now args.now) }
{
    push_fixed(CALL, out)?;
    push_operand(alloc, target, out)?;
    push_via(alloc, via, out)?;
    push_fixed(LEFT_PAREN, out)?;
    push_parted(alloc, COMMA, args.as_slice(), out)?;
    push_fixed(RIGHT_PAREN, out)
}

fn push_call(
    alloc: Global,
    target: &Operand,
    via: &Option<Name>,
    args: &List<Operand>,
    hints: &List<Hint>,
    after: &Assertion,
    out: &mut List<Kind>,
) -> Result<(), AllocError>
    ensures { OnOk result (out.new ≡ out.old ++ call_kinds target.now via.now args.now hints.now after.now) }
{
    push_target(alloc, target, via, args, out)?;
    push_using(alloc, hints.as_slice(), out)?;
    push_fixed(AFTER, out)?;
    after.print(alloc, out)
}

/// Appends a call with the local that takes its result.
fn push_called(
    alloc: Global,
    into: &Name,
    target: &Operand,
    via: &Option<Name>,
    args: &List<Operand>,
    hints: &List<Hint>,
    after: &Assertion,
    out: &mut List<Kind>,
) -> Result<(), AllocError>
    ensures { OnOk result (out.new ≡ out.old ++ Kind.Name into.now ∷ fixed ASSIGN ∷ (call_kinds target.now via.now args.now hints.now after.now ++ fixed SEMICOLON ∷ [])) }
{
    push_name(alloc, into, out)?;
    push_fixed(ASSIGN, out)?;
    push_call(alloc, target, via, args, hints, after, out)?;
    push_fixed(SEMICOLON, out)
}

fn push_return(alloc: Global, value: &Operand, out: &mut List<Kind>) -> Result<(), AllocError>
    ensures { OnOk result (out.new ≡ out.old ++ fixed RETURN ∷ (operand_kinds value.now ++ fixed SEMICOLON ∷ [])) }
{
    push_fixed(RETURN, out)?;
    push_operand(alloc, value, out)?;
    push_fixed(SEMICOLON, out)
}

fn push_hint(alloc: Global, hint: &Hint, out: &mut List<Kind>) -> Result<(), AllocError>
    ensures { OnOk result (out.new ≡ out.old ++ fixed HINT ∷ (hint_kinds hint.now ++ fixed SEMICOLON ∷ [])) }
{
    push_fixed(HINT, out)?;
    hint.print(alloc, out)?;
    push_fixed(SEMICOLON, out)
}

/// Appends the join of an `if`, where it has one.
fn push_join(alloc: Global, join: &Option<Join>, out: &mut List<Kind>) -> Result<(), AllocError>
    ensures { OnOk result (out.new ≡ out.old ++ join_kinds join.now) }
{
    match join {
        None => Ok(()),
        Some(join) => {
            push_fixed(JOIN, out)?;
            join.assertion.print(alloc, out)?;
            push_fixed(SEMICOLON, out)
        }
    }
}

/// Appends a fixed word and two names.
fn push_pair(
    alloc: Global,
    class: u8,
    first: &Name,
    second: &Name,
    out: &mut List<Kind>,
) -> Result<(), AllocError>
    requires { 3 ≤ class }
    ensures { OnOk result (out.new ≡ out.old ++ pair_kinds class first.now second.now) }
{
    push_fixed(class, out)?;
    push_name(alloc, first, out)?;
    push_fixed(COMMA, out)?;
    push_name(alloc, second, out)
}

/// Appends the list that `find` and `walk` go over, and its elements.
fn push_list(alloc: Global, list: &Name, seq: &Seq, out: &mut List<Kind>) -> Result<(), AllocError>
    ensures { OnOk result (out.new ≡ out.old ++ list_kinds list.now seq.now) }
{
    push_fixed(IN, out)?;
    push_name(alloc, list, out)?;
    push_fixed(OF, out)?;
    push_seq(alloc, seq, out)
}

/// Appends what `find` and `walk` go over, and what they keep.
fn push_over(
    alloc: Global,
    list: &Name,
    seq: &Seq,
    seen: &Name,
    rest: &Name,
    keep: &Assertion,
    out: &mut List<Kind>,
) -> Result<(), AllocError>
    ensures { OnOk result (out.new ≡ out.old ++ over_kinds list.now seq.now seen.now rest.now keep.now) }
{
    push_list(alloc, list, seq, out)?;
    push_pair(alloc, AS, seen, rest, out)?;
    push_fixed(KEEP, out)?;
    keep.print(alloc, out)
}

/// Appends a `find` without its body.
fn push_find(
    alloc: Global,
    node: &Name,
    value: &Name,
    key: &Operand,
    list: &Name,
    seq: &Seq,
    seen: &Name,
    rest: &Name,
    keep: &Assertion,
    out: &mut List<Kind>,
) -> Result<(), AllocError>
    ensures { OnOk result (out.new ≡ out.old ++ find_kinds node.now value.now key.now list.now seq.now seen.now rest.now keep.now) }
{
    push_pair(alloc, FIND, node, value, out)?;
    push_fixed(FOR, out)?;
    push_operand(alloc, key, out)?;
    push_over(alloc, list, seq, seen, rest, keep, out)
}

/// Appends a `walk` without its body.
fn push_walk(
    alloc: Global,
    node: &Name,
    value: &Name,
    list: &Name,
    seq: &Seq,
    seen: &Name,
    rest: &Name,
    keep: &Assertion,
    out: &mut List<Kind>,
) -> Result<(), AllocError>
    ensures { OnOk result (out.new ≡ out.old ++ walk_kinds node.now value.now list.now seq.now seen.now rest.now keep.now) }
{
    push_pair(alloc, WALK, node, value, out)?;
    push_over(alloc, list, seq, seen, rest, keep, out)
}

/// Appends the test of an `if`.
fn push_tested(alloc: Global, test: &Test, out: &mut List<Kind>) -> Result<(), AllocError>
    ensures { OnOk result (out.new ≡ out.old ++ fixed IF ∷ test_kinds test.now) }
{
    push_fixed(IF, out)?;
    push_test(alloc, test, out)
}

/// Appends a `while` without its body.
fn push_while(
    alloc: Global,
    test: &Test,
    invariant: &Assertion,
    out: &mut List<Kind>,
) -> Result<(), AllocError>
    ensures { OnOk result (out.new ≡ out.old ++ fixed WHILE ∷ (test_kinds test.now ++ fixed INVARIANT ∷ assertion_kinds invariant.now)) }
{
    push_fixed(WHILE, out)?;
    push_test(alloc, test, out)?;
    push_fixed(INVARIANT, out)?;
    invariant.print(alloc, out)
}

/// Appends the statements of a body, in braces.
#[cycle(statements)]
pub(crate) fn push_body(
    alloc: Global,
    body: &[Stmt],
    out: &mut List<Kind>,
) -> Result<(), AllocError>
    ensures { OnOk result (out.new ≡ out.old ++ body_kinds body.now) }
{
    push_fixed(LEFT_BRACE, out)?;
    for stmt in body {
        push_kind(alloc, &stmt.kind, out)?;
    }
    push_fixed(RIGHT_BRACE, out)
}

/// Appends the second body of an `if`, unless it is empty.
#[cycle(statements)]
fn push_else(alloc: Global, body: &[Stmt], out: &mut List<Kind>) -> Result<(), AllocError>
    ensures { OnOk result (out.new ≡ out.old ++ else_kinds body.now) }
{
    match body {
        [] => Ok(()),
        [_, ..] => {
            push_fixed(ELSE, out)?;
            push_body(alloc, body, out)
        }
    }
}

/// Appends a statement.
#[cycle(statements)]
fn push_kind(alloc: Global, kind: &StmtKind, out: &mut List<Kind>) -> Result<(), AllocError>
    ensures { OnOk result (out.new ≡ out.old ++ stmt_kind_kinds kind.now) }
{
    match kind {
        StmtKind::Assign(into, value) => push_assign(alloc, into, value, out),
        StmtKind::Compute(into, op, left, right) => push_compute(
            alloc, into, *op, left, right, out,
        ),
        StmtKind::Load(into, from) => push_load(alloc, into, from, out),
        StmtKind::LoadByte(into, from) => push_load_byte(alloc, into, from, out),
        StmtKind::Store(to, value) => push_store(alloc, to, value, out),
        StmtKind::StoreByte(to, value) => push_store_byte(alloc, to, value, out),
        StmtKind::Call {
            place: _,
            into,
            target,
            via,
            args,
            hints,
            after,
        } => push_called(alloc, into, target, via, args, hints, after, out),
        StmtKind::If {
            test,
            yes,
            no,
            join,
        } => {
            push_tested(alloc, test, out)?;
            push_body(alloc, yes.as_slice(), out)?;
            push_else(alloc, no.as_slice(), out)?;
            push_join(alloc, join, out)
        }
        StmtKind::While {
            test,
            place: _,
            invariant,
            body,
        } => {
            push_while(alloc, test, invariant, out)?;
            push_body(alloc, body.as_slice(), out)
        }
        StmtKind::Return(value) => push_return(alloc, value, out),
        StmtKind::Hint(hint) => push_hint(alloc, hint, out),
        StmtKind::Find {
            node,
            value,
            key,
            list,
            seq,
            seen,
            rest,
            keep,
            body,
        } => {
            push_find(alloc, node, value, key, list, seq, seen, rest, keep, out)?;
            push_body(alloc, body.as_slice(), out)
        }
        StmtKind::Walk {
            node,
            value,
            list,
            seq,
            seen,
            rest,
            keep,
            body,
        } => {
            push_walk(alloc, node, value, list, seq, seen, rest, keep, out)?;
            push_body(alloc, body.as_slice(), out)
        }
    }
}
