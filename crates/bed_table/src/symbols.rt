//! The symbols of an image.
ghost use Rattle.std.specs.Prelude.{◌≡◌, ◌+◌, ◌<◌, ◌≤◌, [], ◌∷◌, ◌++◌, map, decimal, IfOk, OnOk};
ghost use Rattle.bed_table.specs.Code.{function_piece};
ghost use Rattle.bed_table.specs.Layout as layout;
ghost use Rattle.bed_table.specs.Image as image;

use crate::heads::push_function_heads;
use crate::layout::{Item, function_size};
use crate::put::put_word;
use crate::scope::{Known, address_of};
use bed_lang::Name;
use std::alloc::{AllocError, Global};

// Symbols as bytes, with their number modulo 2^32.
#[derive(Drop)]
pub(crate) struct SymbolTable {
    pub(crate) count: u32,
    pub(crate) bytes: Vec<u8>,
}

// At most the last 255 bytes of a name.
fn short(name: &[u8]) -> &[u8]
    ensures { result.now ≡ image.short name.now }
{
    let n = name.len();
    if n < 255 { name } else { &name[n - 255..] }
}

// The name of a loop.
fn loop_name(alloc: Global, function: &[u8], number: u64) -> Result<Vec<u8>, AllocError>
    ensures { IfOk result (λ v. v.items ≡ image.loop_name function.now number) }
{
    let digits = format!(in alloc; "{number}")?;
    let mut name = Vec::from_slice(alloc, function)?;
    name.extend_from_slice(b".loop")?;
    name.extend_from_slice(digits.as_bytes())?;
    Ok(name)
}

impl SymbolTable {
    ghost use Rattle.bed_table.specs.Seen.{Adds, label_of, defined_of};

    // Writes a symbol.
    fn put(&mut self, kind: u8, address: u64, name: &[u8]) -> Result<(), AllocError>
        ensures { OnOk result (Adds self.old self.new (record { kind = kind; address = address; name = image.short name.now } ∷ [])) }
    {
        let name = short(name);
        self.bytes.push(kind)?;
        put_word(&mut self.bytes, address)?;
        self.bytes.push(name.len() as u8)?;
        self.bytes.extend_from_slice(name)?;
        self.count = self.count.wrapping_add(1);
        Ok(())
    }

    // Writes the loops of a function.
    fn put_loops(&mut self, alloc: Global, function: &[u8], heads: &[u64]) -> Result<(), AllocError>
        ensures { OnOk result (Adds self.old self.new (image.loop_symbols function.now 1 heads.now)) }
    {
        let mut number: u64 = 1;
        for head in heads {
            let name = loop_name(alloc, function, number)?;
            self.put(2, *head, name.as_slice())?;
            number += 1;
        }
        Ok(())
    }

    // Writes a function and its loops.
    fn put_function(&mut self, alloc: Global, item: &Item, at: u64) -> Result<(), AllocError>
        requires { at + layout.function_size (defined_of item.now) ≤ 4294967296 }
        ensures { OnOk result (Adds self.old self.new (image.function_symbols (record { defined = defined_of item.now; address = at }))) }
    {
        let name = item.function.name.bytes.as_slice();
        let mut heads = Vec::new(alloc);
        push_function_heads(&mut heads, at, item.function)?;
        self.put(u8::from(item.function.exported), at, name)?;
        self.put_loops(alloc, name, heads.as_slice())
    }

    // Writes functions that stand from `base` on, with their loops.
    pub(crate) fn put_functions(
        &mut self,
        alloc: Global,
        functions: &[Item],
        base: u32,
    ) -> Result<(), AllocError>
        requires { base + layout.total_size (map defined_of functions.now) ≤ 4294967296 }
        ensures { OnOk result (Adds self.old self.new (image.symbols_of (layout.placed_from base (map defined_of functions.now)))) }
    {
        let mut at = base as u64;
        for item in functions {
            self.put_function(alloc, item, at)?;
            at += function_size(item.function);
        }
        Ok(())
    }

    // Writes outside imports.
    pub(crate) fn put_imports(
        &mut self,
        labels: &[Known],
        names: &[&Name],
    ) -> Result<(), AllocError>
        ensures { OnOk result (Adds self.old self.new (image.import_symbols (layout.address_of (map label_of labels.now)) (map (λ n. n.now) names.now))) }
    {
        for name in names {
            self.put(3, address_of(labels, name), name.bytes.as_slice())?;
        }
        Ok(())
    }
}
