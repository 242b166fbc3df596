//! One turn of the block machine.

ghost use Rattle.std.specs.Prelude.{◌≡◌, Ok, IfSome, List, Contains, OnErr, option_copied};
ghost use Rattle.bed_machine.specs.Memory.{word_at};
ghost use Rattle.bed_il.specs.BlockMachine.{block_at, op_of, compares, effect, follows};
ghost use Rattle.bed_il.specs.Stepping.{seen, NamesNone, IsByEsiOrEdx, CanStep, turn, turn_in, told_of, state_after, made};

use crate::blocks::{Block, Inst, Jump, Scratch, Value};
use crate::states::{IlFault, IlMove, IlState};
use bed_lang::{List, Op, Rel};
use bed_machine::{Reg, Store, load_word, store_word};

/// Makes the next instruction of the block that has the state's label, the first of several, or its
/// jump, where all instructions are made. After a fault nothing has changed:
///
/// - `NoBlock` with the label, exactly where no block has it;
/// - `Unmapped` with the first address of an access, exactly where that isn't mapped as a whole.
///
/// The address of a block is its label. A jump by register leaves the state as it is.
pub fn il_step<D: Store>(blocks: &List<Block>, s: &mut IlState<D>) -> Result<IlMove, IlFault>
    requires { (b : Block) → Contains blocks.now b → CanStep b }
    ensures told { result ≡ told_of (seen D.bytes s.old) (turn blocks.now (seen D.bytes s.old)) }
    ensures state { seen D.bytes s.new ≡ state_after (seen D.bytes s.old) (turn blocks.now (seen D.bytes s.old)) }
{
    match block_with(blocks, s.label) {
        None => Err(IlFault::NoBlock(s.label)),
        Some(block) => step_in(block, s),
    }
}

// The first block with a label.
fn block_with(blocks: &List<Block>, label: u32) -> Option<&Block>
    ensures found { option_copied result ≡ block_at blocks.now label }
    ensures among { IfSome result (λ b. Contains blocks.now b.now) }
{
    for block in blocks.as_slice() {
        if block.label == label {
            return Some(block);
        }
    }
    None
}

// A turn in a block.
fn step_in<D: Store>(block: &Block, s: &mut IlState<D>) -> Result<IlMove, IlFault>
    requires { CanStep block.now }
    ensures told { result ≡ told_of (seen D.bytes s.old) (turn_in block.now (seen D.bytes s.old)) }
    ensures state { seen D.bytes s.new ≡ state_after (seen D.bytes s.old) (turn_in block.now (seen D.bytes s.old)) }
{
    match block.insts.get(s.next as usize) {
        None => Ok(follow(block.jump, s)),
        Some(inst) => match make(inst, s) {
            Err(at) => Err(IlFault::Unmapped(at)),
            Ok(()) => {
                s.next += 1;
                Ok(IlMove::Within)
            }
        },
    }
}

// The effect of an instruction, or the address at which it faults.
fn make<D: Store>(inst: &Inst, s: &mut IlState<D>) -> Result<(), u32>
    requires { NamesNone inst.now }
    ensures effect { made result (seen D.bytes s.new) ≡ effect (λ f. 0) (λ l. l) inst.now (seen D.bytes s.old) }
    ensures kept { OnErr result (seen D.bytes s.new ≡ seen D.bytes s.old) }
{
    match inst {
        Inst::SaveReturn => return s.store(s.sp, s.rp),
        Inst::Keep { disp } => return s.store(s.sp.wrapping_add(*disp), s.first),
        Inst::KeepAnswer { disp } => return s.store(s.sp.wrapping_add(*disp), s.rv),
        Inst::StoreWord { disp } => return s.store(s.first.wrapping_add(*disp), s.second),
        Inst::StoreByte { disp } => return s.store_byte(s.first.wrapping_add(*disp), s.second),
        Inst::Fetch { into, value } => return s.fetch(*into, value),
        Inst::LoadWord { disp } => s.first = s.load(s.first.wrapping_add(*disp))?,
        Inst::LoadByte { disp } => s.first = s.load_byte(s.first.wrapping_add(*disp))?,
        Inst::TakeReturn => s.rp = s.load(s.sp)?,
        Inst::Apply(op) => s.first = apply(*op, s.first, s.second),
        Inst::RaiseSp(n) => s.sp = s.sp.wrapping_add(*n),
        Inst::LowerSp(n) => s.sp = s.sp.wrapping_sub(*n),
        Inst::ReturnTo(label) => s.rp = *label,
        Inst::SetAnswer => s.rv = s.first,
    }
    Ok(())
}

impl<D: Store> IlState<D> {
    ghost use Rattle.std.specs.Option.{ok_or};
    ghost use Rattle.bed_il.specs.BlockMachine.{writes, writes_byte, at_label};

    // Brings a value into a register.
    fn fetch(&mut self, into: Scratch, value: &Value) -> Result<(), u32>
        requires { NamesNone (Inst.Fetch into value.now) }
        ensures effect { made result (seen D.bytes self.new) ≡ effect (λ f. 0) (λ l. l) (Inst.Fetch into value.now) (seen D.bytes self.old) }
        ensures kept { OnErr result (seen D.bytes self.new ≡ seen D.bytes self.old) }
    {
        let word = match value {
            Value::Number(n) => *n,
            Value::Slot(disp) => self.load(self.sp.wrapping_add(*disp))?,
            Value::Function(_) => unreachable!(),
        };
        match into {
            Scratch::First => self.first = word,
            Scratch::Second => self.second = word,
        }
        Ok(())
    }

    // The word at an address, or the address, where it isn't mapped as a whole.
    fn load(&self, at: u32) -> Result<u32, u32>
        ensures { result ≡ ok_or (word_at (D.bytes self.now.mem) at) at }
    {
        match load_word(&self.mem, at) {
            None => Err(at),
            Some(word) => Ok(word),
        }
    }

    // Likewise a byte.
    fn load_byte(&self, at: u32) -> Result<u32, u32>
        ensures { result ≡ ok_or (D.bytes self.now.mem at) at }
    {
        match self.mem.get(at) {
            None => Err(at),
            Some(byte) => Ok(u32::from(byte)),
        }
    }

    // Replaces a word.
    fn store(&mut self, at: u32, word: u32) -> Result<(), u32>
        ensures effect { made result (seen D.bytes self.new) ≡ writes (seen D.bytes self.old) at word }
        ensures kept { OnErr result (seen D.bytes self.new ≡ seen D.bytes self.old) }
    {
        if store_word(&mut self.mem, at, word) {
            Ok(())
        } else {
            Err(at)
        }
    }

    // Replaces a byte by the low byte of a word.
    fn store_byte(&mut self, at: u32, word: u32) -> Result<(), u32>
        ensures effect { made result (seen D.bytes self.new) ≡ writes_byte (seen D.bytes self.old) at word }
        ensures kept { OnErr result (seen D.bytes self.new ≡ seen D.bytes self.old) }
    {
        if self.mem.set(at, (word % 256) as u8) {
            Ok(())
        } else {
            Err(at)
        }
    }

    // Control goes to the first instruction of a block.
    fn go_to(&mut self, label: u32)
        ensures { seen D.bytes self.new ≡ at_label label (seen D.bytes self.old) }
    {
        self.label = label;
        self.next = 0;
    }
}

// The jump behind the last instruction.
fn follow<D: Store>(jump: Jump, s: &mut IlState<D>) -> IlMove
    requires { IsByEsiOrEdx jump }
    ensures told { (is : List Inst) → Ok result ≡ told_of (seen D.bytes s.old) (follows jump is (seen D.bytes s.old)) }
    ensures state { (is : List Inst) → seen D.bytes s.new ≡ state_after (seen D.bytes s.old) (follows jump is (seen D.bytes s.old)) }
{
    match jump {
        Jump::Goto(label) => s.go_to(label),
        Jump::Fall(label) => s.go_to(label),
        Jump::Test { rel, yes, no } => {
            let label = if compare(rel, s.first, s.second) {
                yes
            } else {
                no
            };
            s.go_to(label);
        }
        Jump::Register(Reg::Esi) => return IlMove::Leaves(s.rp),
        Jump::Register(_) => return IlMove::Leaves(s.second),
    }
    IlMove::Within
}

// The result of an operation.
fn apply(op: Op, left: u32, right: u32) -> u32
    ensures { result ≡ op_of op left right }
{
    match op {
        Op::Add => left.wrapping_add(right),
        Op::Sub => left.wrapping_sub(right),
        Op::Mul => left.wrapping_mul(right),
        Op::And => left & right,
        Op::Or => left | right,
        Op::Xor => left ^ right,
    }
}

// Whether words compare so.
fn compare(rel: Rel, left: u32, right: u32) -> bool
    ensures { result ≡ compares rel left right }
{
    match rel {
        Rel::Equal => left == right,
        Rel::Unequal => left != right,
        Rel::Less => left < right,
        Rel::AtMost => left <= right,
    }
}
