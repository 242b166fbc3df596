//! The code of functions, in pieces and as a whole.
ghost use Rattle.std.specs.Prelude.{◌≡◌, ◌+◌, ◌≤◌, ◌<◌, ◌^◌, ◌++◌, ℕ, Bool, length, map, slice_get, take, List, Contains, Some, IfOk, OnOk};
ghost use Rattle.bed_lang.specs.Numbers.{wrap};
ghost use Rattle.bed_lang.specs.declared.word.Name.{Name};
ghost use Rattle.bed_il.specs.Fit.{AreDistinct};
ghost use Rattle.bed_il.specs.Places as places;
ghost use Rattle.bed_il.specs.declared.blocks.Block.{Block};
ghost use Rattle.bed_layout.specs.Addresses.{addresses, address_in};
ghost use Rattle.bed_layout.specs.Functions.{function_bytes, code_bytes};
ghost use Rattle.bed_layout.specs.Layered.{functions_in, total_size};

use crate::functions::{HasBlocks, function_at, longest, most_blocks};
use crate::names::table_of;
use crate::put::put_function;
use crate::sizes::blocks_size;
use bed_il::Block;
use bed_lang::{List, Name};
use bed_names::Table;
use std::alloc::{AllocError, Global};
use std::marker::Model;

/// Room for the bytes of one function at a time, with the addresses of all names. Seen as the bytes of its
/// room, and the address of each name.
#[derive(Drop)]
pub struct Layer {
    bytes: Vec<u8>,
    places: Vec<u32>,
    names: Table,
}

impl Model for Layer {
    ghost use Rattle.bed_layout.specs.Layered.{LayerView};

    ghost Value = { LayerView };

    ghost view = { λ l. record { bytes = l.bytes.items; names = l.names } };
}

impl Layer {
    /// Room for the longest function, with the addresses of functions and imports.
    ///
    /// # Errors
    /// `AllocError` for want of memory.
    pub fn new<M: HasBlocks>(
        alloc: Global,
        functions: &[(Name, u32, bool)],
        imports: &[(Name, u32)],
        code: &[M],
    ) -> Result<Layer, AllocError>
        ensures room { IfOk result (λ l. (B : List Block) → Contains (functions_in (map M.each code.now)) B → places.blocks_size B < 2 ^ 32 → places.blocks_size B ≤ length l.bytes) }
        ensures addresses { IfOk result (λ l. address_in l.names ≡ addresses functions.now imports.now) }
    {
        let names = table_of(alloc, functions, imports)?;
        let bytes = vec![in alloc; 0; longest(code) as usize]?;
        let places = vec![in alloc; 0; most_blocks(code)]?;
        Ok(Layer {
            bytes,
            places,
            names,
        })
    }

    // Puts the bytes of blocks, from an address, to the front of the room, and answers how many they are.
    fn put(&mut self, blocks: &[Block], at: u32) -> usize
        requires distinct { AreDistinct blocks.now }
        requires room { places.blocks_size blocks.now ≤ length self.old.bytes }
        ensures size { result ≡ places.blocks_size blocks.now }
        ensures front { take result self.new.bytes ≡ function_bytes (address_in self.old.names) blocks.now at }
        ensures room { length self.new.bytes ≡ length self.old.bytes }
        ensures names { self.new.names ≡ self.old.names }
    {
        put_function(
            self.bytes.as_mut_slice(),
            self.places.as_mut_slice(),
            &self.names,
            blocks,
            at,
        )
    }

    /// Puts the bytes of function `number`, from 0 over all, to the front of the room, and answers how many
    /// they are. It takes no memory.
    pub fn fill<M: HasBlocks>(
        &mut self,
        functions: &[(Name, u32, bool)],
        code: &[M],
        number: u32,
    ) -> usize
        requires distinct { (B : List Block) → slice_get (functions_in (map M.each code.now)) number ≡ Some B → AreDistinct B }
        requires room { (B : List Block) → slice_get (functions_in (map M.each code.now)) number ≡ Some B → places.blocks_size B ≤ length self.old.bytes }
        ensures front { (B : List Block) (f : Name × ℕ × Bool) → slice_get (functions_in (map M.each code.now)) number ≡ Some B → slice_get functions.now number ≡ Some f → take result self.new.bytes ≡ function_bytes (address_in self.old.names) B f.1 }
        ensures bound { result ≤ length self.new.bytes }
        ensures room { length self.new.bytes ≡ length self.old.bytes }
        ensures names { self.new.names ≡ self.old.names }
    {
        let number = number as usize;
        if number >= functions.len() {
            return 0;
        }
        match function_at(code, number) {
            Some(blocks) => self.put(blocks.as_slice(), functions[number].1),
            None => 0,
        }
    }

    /// The first bytes of the room.
    pub fn bytes(&self, size: usize) -> &[u8]
        requires { size ≤ length self.now.bytes }
        ensures { result.now ≡ take size self.now.bytes }
    {
        &self.bytes.as_slice()[..size]
    }

    // Appends the bytes of functions that stand one after the other from an address, and answers where they end.
    fn append(
        &mut self,
        out: &mut Vec<u8>,
        functions: &[List<Block>],
        at: u32,
    ) -> Result<u32, AllocError>
        requires distinct { (B : List Block) → Contains functions.now B → AreDistinct B }
        requires room { (B : List Block) → Contains functions.now B → places.blocks_size B ≤ length self.old.bytes }
        ensures bytes { OnOk result (out.new.items ≡ out.old.items ++ code_bytes (address_in self.old.names) functions.now at) }
        ensures end { IfOk result (λ end. wrap end ≡ wrap (at + total_size functions.now)) }
        ensures room { length self.new.bytes ≡ length self.old.bytes }
        ensures names { self.new.names ≡ self.old.names }
    {
        let mut next = at;
        for function in functions {
            let size = self.put(function.as_slice(), next);
            out.extend_from_slice(self.bytes(size))?;
            next = next.wrapping_add(blocks_size(function.as_slice()));
        }
        Ok(next)
    }
}

/// The code of functions that stand one right after the other from a base: the bytes of each function's blocks,
/// with the addresses of functions and imports by their names.
///
/// # Errors
/// `AllocError` for want of memory.
pub fn lay<M: HasBlocks>(
    alloc: Global,
    base: u32,
    functions: &[(Name, u32, bool)],
    imports: &[(Name, u32)],
    code: &[M],
) -> Result<Vec<u8>, AllocError>
    requires distinct { (B : List Block) → Contains (functions_in (map M.each code.now)) B → AreDistinct B }
    requires small { (B : List Block) → Contains (functions_in (map M.each code.now)) B → places.blocks_size B < 2 ^ 32 }
    ensures { IfOk result (λ v. v.items ≡ code_bytes (addresses functions.now imports.now) (functions_in (map M.each code.now)) base) }
{
    let mut layer = Layer::new(alloc, functions, imports, code)?;
    let mut out = Vec::new(alloc);
    let mut next = base;
    for module in code {
        next = layer.append(&mut out, module.functions(), next)?;
    }
    Ok(out)
}
