//! How long code is. Sums that pass a u64 stay at its maximum.
ghost use Rattle.std.specs.Prelude.{◌≡◌, ◌+◌, ◌^◌, ◌-◌, ◌<◌, min};
ghost use Rattle.bed_table.specs.CodeTable.{operand_size as size_of_operand, operation_size as size_of_operation, test_size as size_of_test, arguments_size as size_of_arguments};
ghost use Rattle.bed_table.specs.Code.{kind_piece, body_piece};

use bed_lang::{Op, Operand, Stmt, StmtKind, Test};

// A jump's bytes.
pub(crate) const JUMP: u64 = 5;
// The bytes of a loop over a list before its head, and before what is done at a node.
pub(crate) const LIST_HEAD: u64 = 12;

pub(crate) const LIST_FRONT: u64 = 49;
// The bytes that go on to the next node, without the jump back to the head and with it.
pub(crate) const LIST_STEP: u64 = 30;

pub(crate) const LIST_BACK: u64 = 35;
// The bytes of the entry of a function.
pub(crate) const ENTRY: u64 = 6;

pub(crate) fn operand_size(a: &Operand) -> u64
    ensures { result ≡ size_of_operand a.now }
{
    match a {
        Operand::Number(_) => 5,
        Operand::Local(_) => 6,
        Operand::Label(_) => 5,
    }
}

pub(crate) fn operation_size(op: Op) -> u64
    ensures { result ≡ size_of_operation op }
{
    match op {
        Op::Mul => 3,
        _ => 2,
    }
}

pub(crate) fn test_size(test: &Test) -> u64
    ensures { result ≡ size_of_test test.now }
{
    operand_size(&test.left) + operand_size(&test.right) + 8
}

// The test of a value against a key.
pub(crate) fn key_test_size(key: &Operand) -> u64
    ensures { result ≡ size_of_operand key.now + 14 }
{
    operand_size(key) + 14
}

pub(crate) fn jump_size(falls: bool) -> u64
    ensures { result ≡ Rattle.bed_table.specs.CodeTable.jump_size falls }
{
    if falls { JUMP } else { 0 }
}

pub(crate) fn arguments_size(arguments: &[Operand]) -> u64
    ensures { result ≡ min (size_of_arguments arguments.now) (2 ^ 64 - 1) }
{
    let mut size: u64 = 0;
    for a in arguments {
        size = size.saturating_add(operand_size(a) + 6);
    }
    size
}

// The same where the sum is known to be small.
pub(crate) fn small_arguments_size(arguments: &[Operand]) -> u64
    requires { size_of_arguments arguments.now < 2 ^ 64 }
    ensures { result ≡ size_of_arguments arguments.now }
{
    arguments_size(arguments)
}

#[cycle(falls)]
pub(crate) fn kind_falls(kind: &StmtKind) -> bool
    ensures { result ≡ (kind_piece kind.now).falls }
{
    match kind {
        StmtKind::If { yes, no, .. } => body_falls(yes.as_slice()) || body_falls(no.as_slice()),
        StmtKind::Return(_) => false,
        _ => true,
    }
}

// The last statement decides.
#[cycle(falls)]
pub(crate) fn body_falls(body: &[Stmt]) -> bool
    ensures { result ≡ (body_piece body.now).falls }
{
    let mut falls = true;
    for item in body {
        falls = kind_falls(&item.kind);
    }
    falls
}

#[cycle(size)]
pub(crate) fn kind_size(kind: &StmtKind) -> u64
    ensures { result ≡ min (kind_piece kind.now).size (2 ^ 64 - 1) }
{
    match kind {
        StmtKind::Assign(_, a) => operand_size(a) + 6,
        StmtKind::Compute(_, op, a, b) => {
            operand_size(a) + operand_size(b) + operation_size(*op) + 6
        }
        StmtKind::Load(_, place) => operand_size(&place.base) + 12,
        StmtKind::LoadByte(_, place) => operand_size(&place.base) + 13,
        StmtKind::Store(place, b) => operand_size(&place.base) + operand_size(b) + 6,
        StmtKind::StoreByte(place, b) => operand_size(&place.base) + operand_size(b) + 6,
        StmtKind::Call { target, args, .. } => {
            arguments_size(args.as_slice()).saturating_add(operand_size(target) + 25)
        }
        StmtKind::If { test, yes, no, .. } => {
            let own = test_size(test) + jump_size(body_falls(yes.as_slice()));
            let yes = body_size(yes.as_slice());
            let no = body_size(no.as_slice());
            yes.saturating_add(no).saturating_add(own)
        }
        StmtKind::While { test, body, .. } => {
            let own = test_size(test) + jump_size(body_falls(body.as_slice()));
            body_size(body.as_slice()).saturating_add(own)
        }
        StmtKind::Return(a) => operand_size(a) + 10,
        StmtKind::Hint(_) => 0,
        StmtKind::Find { key, body, .. } => {
            let own = LIST_FRONT
                + key_test_size(key)
                + jump_size(body_falls(body.as_slice()))
                + LIST_BACK;
            body_size(body.as_slice()).saturating_add(own)
        }
        StmtKind::Walk { body, .. } => {
            body_size(body.as_slice()).saturating_add(LIST_FRONT + LIST_BACK)
        },
    }
}

#[cycle(size)]
pub(crate) fn body_size(body: &[Stmt]) -> u64
    ensures { result ≡ min (body_piece body.now).size (2 ^ 64 - 1) }
{
    let mut size: u64 = 0;
    for item in body {
        size = size.saturating_add(kind_size(&item.kind));
    }
    size
}

// The same where the sum is known to be small.
pub(crate) fn small_body_size(body: &[Stmt]) -> u64
    requires { (body_piece body.now).size < 2 ^ 64 }
    ensures { result ≡ (body_piece body.now).size }
{
    body_size(body)
}

pub(crate) fn small_kind_size(kind: &StmtKind) -> u64
    requires { (kind_piece kind.now).size < 2 ^ 64 }
    ensures { result ≡ (kind_piece kind.now).size }
{
    kind_size(kind)
}
