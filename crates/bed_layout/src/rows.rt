//! The machine's instruction that each instruction of a block is.
ghost use Rattle.std.specs.Prelude.{◌≡◌, ℕ};
ghost use Rattle.bed_lang.specs.Numbers.{wrap};
ghost use Rattle.bed_machine.specs.Instructions.{row, IsAllowed};
ghost use Rattle.bed_il.specs.Bytes as bytes;
ghost use Rattle.bed_il.specs.Places.{place_of};
ghost use Rattle.bed_il.specs.declared.blocks.Inst.TheVariants.{Fetch};
ghost use Rattle.bed_layout.specs.Addresses.{address_in};
ghost use Rattle.bed_layout.specs.Labels.{AreLabels};

use crate::labels::Labels;
use bed_il::{Inst, Scratch, Value};
use bed_lang::{Name, Op, Rel};
use bed_machine::{Arith, Branch, Ins, Reg, Rm};
use bed_names::Table;

fn register(of: Scratch) -> Reg
    ensures { result ≡ bytes.register_of of }
{
    match of {
        Scratch::First => Reg::Ecx,
        Scratch::Second => Reg::Edx,
    }
}

fn arithmetic(op: Arith) -> Ins
    ensures { result ≡ Ins.Arith op Reg.Ecx Reg.Edx }
{
    Ins::Arith {
        op,
        to: Reg::Ecx,
        from: Reg::Edx,
    }
}

fn operation(op: Op) -> Ins
    ensures is { result ≡ bytes.operation op }
    ensures allowed { IsAllowed result }
{
    match op {
        Op::Add => arithmetic(Arith::Add),
        Op::Sub => arithmetic(Arith::Sub),
        Op::Mul => Ins::Imul {
            to: Reg::Ecx,
            from: Reg::Edx,
        },
        Op::And => arithmetic(Arith::And),
        Op::Or => arithmetic(Arith::Or),
        Op::Xor => arithmetic(Arith::Xor),
    }
}

/// The jump that is taken where words don't compare so.
pub(crate) fn otherwise(rel: Rel) -> Branch
    ensures { result ≡ bytes.otherwise rel }
{
    match rel {
        Rel::Equal => Branch::NotEqual,
        Rel::Unequal => Branch::Equal,
        Rel::Less => Branch::NotBelow,
        Rel::AtMost => Branch::Above,
    }
}

fn load(to: Reg, base: Reg, disp: u32) -> Ins
    ensures { result ≡ Ins.MovFrom to (Rm.Mem base disp) }
{
    Ins::MovFrom {
        to,
        rm: Rm::Mem { base, disp },
    }
}

fn store(base: Reg, disp: u32, from: Reg) -> Ins
    ensures { result ≡ Ins.MovTo (Rm.Mem base disp) from }
{
    Ins::MovTo {
        rm: Rm::Mem { base, disp },
        from,
    }
}

/// The address of a name; 0 where there is none.
fn address(names: &Table, name: &Name) -> u32
    ensures { result ≡ wrap (address_in names.now name.now.bytes) }
{
    match names.get(name.bytes.as_slice()) {
        Some(address) => (address % 4294967296) as u32,
        None => 0,
    }
}

fn fetch(names: &Table, into: Scratch, value: &Value) -> Ins
    ensures row { (places : ℕ → ℕ) → row result ≡ row (bytes.ins_of (address_in names.now) places (Fetch into value.now)) }
    ensures allowed { IsAllowed result }
{
    let to = register(into);
    match value {
        Value::Number(n) => Ins::MovImm { to, imm: *n },
        Value::Slot(disp) => load(to, Reg::Ebp, *disp),
        Value::Function(f) => Ins::MovImm {
            to,
            imm: address(names, f),
        },
    }
}

/// The machine's instruction.
pub(crate) fn machine_ins(labels: &Labels, inst: &Inst) -> Ins
    requires { AreLabels labels.now }
    ensures row { row result ≡ row (bytes.ins_of (address_in labels.now.names.now) (place_of labels.now.blocks.now labels.now.at) inst.now) }
    ensures allowed { IsAllowed result }
{
    match inst {
        Inst::SaveReturn => store(Reg::Ebp, 0, Reg::Esi),
        Inst::TakeReturn => load(Reg::Esi, Reg::Ebp, 0),
        Inst::SetAnswer => Ins::MovFrom {
            to: Reg::Eax,
            rm: Rm::Reg(Reg::Ecx),
        },
        Inst::Fetch { into, value } => fetch(labels.names, *into, value),
        Inst::Apply(op) => operation(*op),
        Inst::ReturnTo(label) => Ins::MovImm {
            to: Reg::Esi,
            imm: labels.place(*label),
        },
        Inst::Keep { disp } => store(Reg::Ebp, *disp, Reg::Ecx),
        Inst::KeepAnswer { disp } => store(Reg::Ebp, *disp, Reg::Eax),
        Inst::LoadWord { disp } => load(Reg::Ecx, Reg::Ecx, *disp),
        Inst::StoreWord { disp } => store(Reg::Ecx, *disp, Reg::Edx),
        Inst::LoadByte { disp } => Ins::Movzx {
            to: Reg::Ecx,
            base: Reg::Ecx,
            disp: *disp,
        },
        Inst::StoreByte { disp } => Ins::MovByte {
            base: Reg::Ecx,
            disp: *disp,
            from: Reg::Edx,
        },
        Inst::RaiseSp(n) => Ins::Immediate {
            subtract: false,
            to: Reg::Ebp,
            imm: *n,
        },
        Inst::LowerSp(n) => Ins::Immediate {
            subtract: true,
            to: Reg::Ebp,
            imm: *n,
        },
    }
}
