//! Where macros stand, and what their blocks need of it.

ghost use Rattle.std.specs.Prelude.{◌≡◌, ◌++◌, [], ◌∷◌, Some, IsSome, IfOk, OnOk, OnErr};
ghost use Rattle.bed_table.specs.Code.{params_of as params_in};
ghost use Rattle.bed_table.specs.Words.{slot as slot_of, call_area as area_of};
ghost use Rattle.bed_laws.specs.StatementBlocks.{value_of, test_block, going_if};

use bed_il::{Block, Inst, Jump, Scratch, Value};
use bed_lang::{Function, List, Module, Name, Operand, Signature, Test};
use bed_names::Scoped;
use std::alloc::{AllocError, Global};

/// A function of a module that keeps the rules of names.
#[derive(Drop)]
pub struct Site<'a> {
    pub scoped: &'a Scoped,
    /// The number of the function in the module, from 0.
    pub function: u32,
}

impl Site<'_> {
    ghost use Rattle.bed_macro.specs.Sites.{module_of, function_of, locals_in};

    /// The module.
    pub fn module(&self) -> &Module
        ensures { result.now ≡ module_of self.now }
    {
        self.scoped.module()
    }

    /// The function.
    pub fn function(&self) -> &Function
        requires { IsSome (function_of self.now) }
        ensures { function_of self.now ≡ Some result.now }
    {
        match self.module().functions.get(self.function as usize) {
            Some(function) => function,
            None => unreachable!(),
        }
    }

    /// Where a local stands in the function's frame.
    pub fn slot(&self, name: &Name) -> u32
        requires { IsSome (function_of self.now) }
        ensures { result ≡ slot_of (locals_in self.now) name.now.bytes }
    {
        let function = self.function();
        let params = params_of(self.module().signatures.as_slice(), &function.signature);
        slot_in(params, function.locals.as_slice(), name)
    }

    /// Where the frames of callees begin.
    pub fn call_area(&self) -> u32
        requires { IsSome (function_of self.now) }
        ensures { result ≡ area_of (locals_in self.now) }
    {
        let function = self.function();
        let params = params_of(self.module().signatures.as_slice(), &function.signature);
        area_behind(params, function.locals.as_slice())
    }

    /// What brings an operand into a register.
    ///
    /// # Errors
    /// `AllocError` for want of memory.
    pub fn value(&self, alloc: Global, operand: &Operand) -> Result<Value, AllocError>
        requires { IsSome (function_of self.now) }
        ensures { IfOk result (λ r. r ≡ value_of (locals_in self.now) operand.now) }
    {
        match operand {
            Operand::Number(n) => Ok(Value::Number(*n)),
            Operand::Local(x) => Ok(Value::Slot(self.slot(x))),
            Operand::Label(f) => Ok(Value::Function(f.copy(alloc)?)),
        }
    }

    /// Appends the instruction that brings an operand into a register.
    ///
    /// # Errors
    /// `AllocError` for want of memory.
    pub fn fetch(
        &self,
        alloc: Global,
        into: Scratch,
        operand: &Operand,
        out: &mut List<Inst>,
    ) -> Result<(), AllocError>
        requires { IsSome (function_of self.now) }
        ensures { OnOk result (out.new ≡ out.old ++ Inst.Fetch into (value_of (locals_in self.now) operand.now) ∷ []) }
    {
        let value = self.value(alloc, operand)?;
        out.push(Inst::Fetch { into, value })
    }

    /// Appends the block that compares the operands of a test.
    ///
    /// # Errors
    /// `AllocError` for want of memory.
    pub fn push_test(
        &self,
        alloc: Global,
        test: &Test,
        first: u32,
        yes: u32,
        no: u32,
        out: &mut List<Block>,
    ) -> Result<(), AllocError>
        requires { IsSome (function_of self.now) }
        ensures ok { OnOk result (out.new ≡ out.old ++ test_block (locals_in self.now) test.now first yes no ∷ []) }
        ensures err { OnErr result (out.new ≡ out.old) }
    {
        let insts = self.operands(alloc, &test.left, &test.right)?;
        out.push(Block {
            label: first,
            insts,
            jump: Jump::Test {
                rel: test.rel,
                yes,
                no,
            },
        })
    }

    /// The instructions that bring two operands into the registers.
    ///
    /// # Errors
    /// `AllocError` for want of memory.
    pub fn operands(
        &self,
        alloc: Global,
        left: &Operand,
        right: &Operand,
    ) -> Result<List<Inst>, AllocError>
        requires { IsSome (function_of self.now) }
        ensures { IfOk result (λ r. r ≡ Inst.Fetch Scratch.First (value_of (locals_in self.now) left.now) ∷ Inst.Fetch Scratch.Second (value_of (locals_in self.now) right.now) ∷ []) }
    {
        let mut insts = List::new(alloc);
        self.fetch(alloc, Scratch::First, left, &mut insts)?;
        self.fetch(alloc, Scratch::Second, right, &mut insts)?;
        Ok(insts)
    }
}

/// Appends a block with no instruction that jumps to a label, if control comes there.
///
/// # Errors
/// `AllocError` for want of memory.
pub fn push_jump(
    alloc: Global,
    falls: bool,
    label: u32,
    to: u32,
    out: &mut List<Block>,
) -> Result<(), AllocError>
    ensures ok { OnOk result (out.new ≡ out.old ++ going_if falls label to) }
    ensures err { OnErr result (out.new ≡ out.old) }
{
    if falls {
        out.push(Block {
            label,
            insts: List::new(alloc),
            jump: Jump::Goto(to),
        })
    } else {
        Ok(())
    }
}

// The parameters of the first signature of a name; none where there is no such signature.
pub(crate) fn params_of<'a>(signatures: &'a [Signature], name: &Name) -> &'a [Name]
    ensures { result.now ≡ params_in signatures.now name.now.bytes }
{
    for signature in signatures {
        if signature.name.bytes.as_slice() == name.bytes.as_slice() {
            return signature.params.as_slice();
        }
    }
    &[]
}

// The slot of a local, the arguments first.
fn slot_in(params: &[Name], locals: &[Name], name: &Name) -> u32
    ensures { result ≡ slot_of (params.now ++ locals.now) name.now.bytes }
{
    let mut slot: u32 = 4;
    for param in params {
        if param.bytes.as_slice() == name.bytes.as_slice() {
            return slot;
        }
        slot = slot.wrapping_add(4);
    }
    for local in locals {
        if local.bytes.as_slice() == name.bytes.as_slice() {
            return slot;
        }
        slot = slot.wrapping_add(4);
    }
    slot
}

// The place behind the return address and the locals.
fn area_behind(params: &[Name], locals: &[Name]) -> u32
    ensures { result ≡ area_of (params.now ++ locals.now) }
{
    let params = params.len() as u64 % 4294967296;
    let locals = locals.len() as u64 % 4294967296;
    ((4 + 4 * (params + locals)) % 4294967296) as u32
}
