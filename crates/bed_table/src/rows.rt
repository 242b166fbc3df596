//! The rows of the code table that hold no statement.
ghost use Rattle.std.specs.Prelude.{◌≡◌, ◌+◌, ◌≤◌, [], ◌∷◌, ◌++◌, OnOk};
ghost use Rattle.bed_lang.specs.declared.module.Operand.TheVariants as operand;
ghost use Rattle.bed_lang.specs.Numbers.{word_bytes};
ghost use Rattle.bed_table.specs.Words.{displacement as displacement_of};
ghost use Rattle.bed_table.specs.CodeTable as table;
ghost use Rattle.bed_table.specs.ListLoops.{not_null, is_key, field_at};
ghost use Rattle.bed_table.specs.CodeParts.{list_front, list_back};

use crate::put::{put_code, put_word};
use crate::scope::Scope;
use crate::size::{JUMP, LIST_HEAD, key_test_size, operand_size, small_arguments_size, test_size};
use bed_lang::{Name, Op, Operand, Place, Rel, Test};
use std::alloc::AllocError;

// What a relative jump adds to the next address.
pub(crate) fn displacement(next: u64, target: u64) -> u64
    requires next_is_address { next ≤ 4294967296 }
    requires target_is_address { target ≤ 4294967296 }
    ensures { result ≡ displacement_of next target }
{
    (target + (4294967296 - next % 4294967296)) % 4294967296
}

// The second byte of the jump that is taken where a comparison is false.
fn jump_on_false(rel: Rel) -> u8
    ensures { result ≡ table.jump_on_false rel }
{
    match rel {
        Rel::Equal => 0x85, // jne
        Rel::Unequal => 0x84, // je
        Rel::Less => 0x83, // jae
        Rel::AtMost => 0x87, // ja
    }
}

// Appends a comparison, and the jump that is taken where it is false.
fn put_comparison(out: &mut Vec<u8>, rel: Rel, next: u64, target: u64) -> Result<(), AllocError>
    requires next_is_address { next ≤ 4294967296 }
    requires target_is_address { target ≤ 4294967296 }
    ensures { OnOk result (out.new.items ≡ out.old.items ++ (0x3B ∷ 0xCA ∷ 0x0F ∷ table.jump_on_false rel ∷ word_bytes (displacement_of next target))) }
{
    // cmp ecx, edx; jcc
    put_code(
        out,
        &[0x3B, 0xCA, 0x0F, jump_on_false(rel)],
        displacement(next, target),
    )
}

// Appends a jump that stands at `at`.
pub(crate) fn put_jump(out: &mut Vec<u8>, at: u64, target: u64) -> Result<(), AllocError>
    requires next_is_address { at + 5 ≤ 4294967296 }
    requires target_is_address { target ≤ 4294967296 }
    ensures { OnOk result (out.new.items ≡ out.old.items ++ table.jump_bytes at target) }
{
    // jmp
    put_code(out, &[0xE9], displacement(at + JUMP, target))
}

// Appends a jump, where control comes to it.
pub(crate) fn put_jump_if(
    out: &mut Vec<u8>,
    falls: bool,
    at: u64,
    target: u64,
) -> Result<(), AllocError>
    requires next_is_address { at + table.jump_size falls ≤ 4294967296 }
    requires target_is_address { target ≤ 4294967296 }
    ensures { OnOk result (out.new.items ≡ out.old.items ++ table.jump_if falls at target) }
{
    if falls {
        put_jump(out, at, target)
    } else {
        Ok(())
    }
}

// Appends the operation on the two registers.
fn put_operation(out: &mut Vec<u8>, op: Op) -> Result<(), AllocError>
    ensures { OnOk result (out.new.items ≡ out.old.items ++ table.operation op) }
{
    match op {
        // add, sub, imul, and, or, xor ecx, edx
        Op::Add => out.extend_from_slice(&[0x03, 0xCA]),
        Op::Sub => out.extend_from_slice(&[0x2B, 0xCA]),
        Op::Mul => out.extend_from_slice(&[0x0F, 0xAF, 0xCA]),
        Op::And => out.extend_from_slice(&[0x23, 0xCA]),
        Op::Or => out.extend_from_slice(&[0x0B, 0xCA]),
        Op::Xor => out.extend_from_slice(&[0x33, 0xCA]),
    }
}

impl Scope<'_> {
    ghost use Rattle.bed_table.specs.Seen.{names_in, labels_in};

    // Brings a local into ECX.
    fn put_local_into_ecx(&self, out: &mut Vec<u8>, name: &Name) -> Result<(), AllocError>
        ensures { OnOk result (out.new.items ≡ out.old.items ++ table.into_ecx (names_in self.now) (labels_in self.now) (operand.Local name.now)) }
    {
        // mov ecx, [ebp+slot]
        put_code(out, &[0x8B, 0x8D], self.slot(name))
    }

    fn put_into_ecx(&self, out: &mut Vec<u8>, a: &Operand) -> Result<(), AllocError>
        ensures { OnOk result (out.new.items ≡ out.old.items ++ table.into_ecx (names_in self.now) (labels_in self.now) a.now) }
    {
        match a {
            // mov ecx, number; mov ecx, [ebp+slot]; mov ecx, address
            Operand::Number(n) => put_code(out, &[0xB9], *n as u64),
            Operand::Local(x) => self.put_local_into_ecx(out, x),
            Operand::Label(f) => put_code(out, &[0xB9], self.label(f)),
        }
    }

    fn put_into_edx(&self, out: &mut Vec<u8>, a: &Operand) -> Result<(), AllocError>
        ensures { OnOk result (out.new.items ≡ out.old.items ++ table.into_edx (names_in self.now) (labels_in self.now) a.now) }
    {
        match a {
            // mov edx, number; mov edx, [ebp+slot]; mov edx, address
            Operand::Number(n) => put_code(out, &[0xBA], *n as u64),
            Operand::Local(x) => put_code(out, &[0x8B, 0x95], self.slot(x)),
            Operand::Label(f) => put_code(out, &[0xBA], self.label(f)),
        }
    }

    // Stores ECX into a local.
    fn put_keep(&self, out: &mut Vec<u8>, x: &Name) -> Result<(), AllocError>
        ensures { OnOk result (out.new.items ≡ out.old.items ++ table.keep_ecx (names_in self.now) x.now) }
    {
        // mov [ebp+slot], ecx
        put_code(out, &[0x89, 0x8D], self.slot(x))
    }

    pub(crate) fn put_assignment(
        &self,
        out: &mut Vec<u8>,
        x: &Name,
        a: &Operand,
    ) -> Result<(), AllocError>
        ensures { OnOk result (out.new.items ≡ out.old.items ++ (table.assignment x.now a.now).bytes (names_in self.now) (labels_in self.now) 0) }
    {
        self.put_into_ecx(out, a)?;
        self.put_keep(out, x)
    }

    // Assigns a local to a local.
    pub(crate) fn put_copy(&self, out: &mut Vec<u8>, x: &Name, y: &Name) -> Result<(), AllocError>
        ensures { OnOk result (out.new.items ≡ out.old.items ++ (table.assignment x.now (operand.Local y.now)).bytes (names_in self.now) (labels_in self.now) 0) }
    {
        self.put_local_into_ecx(out, y)?;
        self.put_keep(out, x)
    }

    pub(crate) fn put_computation(
        &self,
        out: &mut Vec<u8>,
        x: &Name,
        op: Op,
        a: &Operand,
        b: &Operand,
    ) -> Result<(), AllocError>
        ensures { OnOk result (out.new.items ≡ out.old.items ++ (table.computation x.now op a.now b.now).bytes (names_in self.now) (labels_in self.now) 0) }
    {
        self.put_into_ecx(out, a)?;
        self.put_into_edx(out, b)?;
        put_operation(out, op)?;
        self.put_keep(out, x)
    }

    // Loads into ECX from where ECX points, and stores it into a local.
    fn put_access(
        &self,
        out: &mut Vec<u8>,
        opcode: &[u8],
        disp: u32,
        x: &Name,
    ) -> Result<(), AllocError>
        ensures { OnOk result (out.new.items ≡ out.old.items ++ ((opcode.now ++ word_bytes disp) ++ table.keep_ecx (names_in self.now) x.now)) }
    {
        put_code(out, opcode, disp as u64)?;
        self.put_keep(out, x)
    }

    pub(crate) fn put_load(
        &self,
        out: &mut Vec<u8>,
        x: &Name,
        place: &Place,
    ) -> Result<(), AllocError>
        ensures { OnOk result (out.new.items ≡ out.old.items ++ (table.load x.now place.now).bytes (names_in self.now) (labels_in self.now) 0) }
    {
        self.put_into_ecx(out, &place.base)?;
        // mov ecx, [ecx+disp]
        self.put_access(out, &[0x8B, 0x89], place.disp, x)
    }

    // Loads a word of a list's node.
    pub(crate) fn put_field(
        &self,
        out: &mut Vec<u8>,
        x: &Name,
        node: &Name,
        disp: u32,
    ) -> Result<(), AllocError>
        ensures { OnOk result (out.new.items ≡ out.old.items ++ (table.load x.now (field_at node.now disp)).bytes (names_in self.now) (labels_in self.now) 0) }
    {
        self.put_local_into_ecx(out, node)?;
        // mov ecx, [ecx+disp]
        self.put_access(out, &[0x8B, 0x89], disp, x)
    }

    pub(crate) fn put_load_byte(
        &self,
        out: &mut Vec<u8>,
        x: &Name,
        place: &Place,
    ) -> Result<(), AllocError>
        ensures { OnOk result (out.new.items ≡ out.old.items ++ (table.load_byte x.now place.now).bytes (names_in self.now) (labels_in self.now) 0) }
    {
        self.put_into_ecx(out, &place.base)?;
        // movzx ecx, byte [ecx+disp]
        self.put_access(out, &[0x0F, 0xB6, 0x89], place.disp, x)
    }

    pub(crate) fn put_store(
        &self,
        out: &mut Vec<u8>,
        place: &Place,
        b: &Operand,
    ) -> Result<(), AllocError>
        ensures { OnOk result (out.new.items ≡ out.old.items ++ (table.store place.now b.now).bytes (names_in self.now) (labels_in self.now) 0) }
    {
        self.put_into_ecx(out, &place.base)?;
        self.put_into_edx(out, b)?;
        // mov [ecx+disp], edx
        put_code(out, &[0x89, 0x91], place.disp as u64)
    }

    pub(crate) fn put_store_byte(
        &self,
        out: &mut Vec<u8>,
        place: &Place,
        b: &Operand,
    ) -> Result<(), AllocError>
        ensures { OnOk result (out.new.items ≡ out.old.items ++ (table.store_byte place.now b.now).bytes (names_in self.now) (labels_in self.now) 0) }
    {
        self.put_into_ecx(out, &place.base)?;
        self.put_into_edx(out, b)?;
        // mov byte [ecx+disp], dl
        put_code(out, &[0x88, 0x91], place.disp as u64)
    }

    pub(crate) fn put_test(
        &self,
        out: &mut Vec<u8>,
        test: &Test,
        at: u64,
        target: u64,
    ) -> Result<(), AllocError>
        requires next_is_address { at + table.test_size test.now ≤ 4294967296 }
        requires target_is_address { target ≤ 4294967296 }
        ensures { OnOk result (out.new.items ≡ out.old.items ++ table.test_bytes (names_in self.now) (labels_in self.now) test.now at target) }
    {
        let next = at + test_size(test);
        self.put_into_ecx(out, &test.left)?;
        self.put_into_edx(out, &test.right)?;
        put_comparison(out, test.rel, next, target)
    }

    // The test `node != 0`.
    pub(crate) fn put_null_test(
        &self,
        out: &mut Vec<u8>,
        node: &Name,
        at: u64,
        target: u64,
    ) -> Result<(), AllocError>
        requires next_is_address { at + 19 ≤ 4294967296 }
        requires target_is_address { target ≤ 4294967296 }
        ensures { OnOk result (out.new.items ≡ out.old.items ++ table.test_bytes (names_in self.now) (labels_in self.now) (not_null node.now) at target) }
    {
        self.put_local_into_ecx(out, node)?;
        // mov edx, 0
        put_code(out, &[0xBA], 0)?;
        put_comparison(out, Rel::Unequal, at + 19, target)
    }

    // The test `value = key`.
    pub(crate) fn put_key_test(
        &self,
        out: &mut Vec<u8>,
        value: &Name,
        key: &Operand,
        at: u64,
        target: u64,
    ) -> Result<(), AllocError>
        requires next_is_address { at + table.test_size (is_key value.now key.now) ≤ 4294967296 }
        requires target_is_address { target ≤ 4294967296 }
        ensures { OnOk result (out.new.items ≡ out.old.items ++ table.test_bytes (names_in self.now) (labels_in self.now) (is_key value.now key.now) at target) }
    {
        let next = at + key_test_size(key);
        self.put_local_into_ecx(out, value)?;
        self.put_into_edx(out, key)?;
        put_comparison(out, Rel::Equal, next, target)
    }

    fn put_arguments(&self, out: &mut Vec<u8>, arguments: &[Operand]) -> Result<(), AllocError>
        ensures { OnOk result (out.new.items ≡ out.old.items ++ table.arguments_bytes (names_in self.now) (labels_in self.now) 0 arguments.now) }
    {
        let mut slot = ((self.call_area() + 4) % 4294967296) as u32;
        for a in arguments {
            self.put_into_ecx(out, a)?;
            // mov [ebp+slot], ecx
            put_code(out, &[0x89, 0x8D], slot as u64)?;
            slot = slot.wrapping_add(4);
        }
        Ok(())
    }

    // Appends what stands between the target in EDX and the next statement.
    fn put_transfer(&self, out: &mut Vec<u8>, x: &Name, back: u64) -> Result<(), AllocError>
        ensures { OnOk result (out.new.items ≡ out.old.items ++ table.transfer_bytes (names_in self.now) x.now back) }
    {
        // add ebp, area; mov esi, back; jmp edx
        put_code(out, &[0x81, 0xC5], self.call_area())?;
        put_code(out, &[0xBE], back)?;
        out.extend_from_slice(&[0xFF, 0xE2])?;
        // sub ebp, area; mov [ebp+slot], eax
        put_code(out, &[0x81, 0xED], self.call_area())?;
        put_code(out, &[0x89, 0x85], self.slot(x))
    }

    pub(crate) fn put_call(
        &self,
        out: &mut Vec<u8>,
        at: u64,
        x: &Name,
        target: &Operand,
        arguments: &[Operand],
    ) -> Result<(), AllocError>
        requires { at + (table.call x.now target.now arguments.now).size ≤ 4294967296 }
        ensures { OnOk result (out.new.items ≡ out.old.items ++ (table.call x.now target.now arguments.now).bytes (names_in self.now) (labels_in self.now) at) }
    {
        let back = at + small_arguments_size(arguments) + operand_size(target) + 13;
        self.put_arguments(out, arguments)?;
        self.put_into_edx(out, target)?;
        self.put_transfer(out, x, back)
    }

    pub(crate) fn put_answer(&self, out: &mut Vec<u8>, a: &Operand) -> Result<(), AllocError>
        ensures { OnOk result (out.new.items ≡ out.old.items ++ (table.answer a.now).bytes (names_in self.now) (labels_in self.now) 0) }
    {
        self.put_into_ecx(out, a)?;
        // mov eax, ecx; mov esi, [ebp+0]; jmp esi
        put_code(out, &[0x8B, 0xC1, 0x8B, 0xB5], 0)?;
        out.extend_from_slice(&[0xFF, 0xE6])
    }

    // A loop over a list as far as what is done at a node.
    pub(crate) fn put_list_front(
        &self,
        out: &mut Vec<u8>,
        node: &Name,
        value: &Name,
        list: &Name,
        at: u64,
        end: u64,
    ) -> Result<(), AllocError>
        requires next_is_address { at + 49 ≤ 4294967296 }
        requires target_is_address { end ≤ 4294967296 }
        ensures { OnOk result (out.new.items ≡ out.old.items ++ list_front (names_in self.now) (labels_in self.now) node.now value.now list.now at end) }
    {
        self.put_copy(out, node, list)?;
        self.put_null_test(out, node, at + LIST_HEAD, end)?;
        self.put_field(out, value, node, 0)
    }

    // The rest of a loop over a list.
    pub(crate) fn put_list_back(
        &self,
        out: &mut Vec<u8>,
        node: &Name,
        value: &Name,
        jump_at: u64,
        head: u64,
    ) -> Result<(), AllocError>
        requires next_is_address { jump_at + 5 ≤ 4294967296 }
        requires target_is_address { head ≤ 4294967296 }
        ensures { OnOk result (out.new.items ≡ out.old.items ++ list_back (names_in self.now) (labels_in self.now) node.now value.now jump_at head) }
    {
        self.put_field(out, value, node, 4)?;
        self.put_copy(out, node, value)?;
        put_jump(out, jump_at, head)
    }
}
