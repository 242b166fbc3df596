//! Functions as blocks.
ghost use Rattle.std.specs.Prelude.{◌≡◌, ◌≤◌, ◌<◌, ◌^◌, map, slice_get, max, List, Contains};
ghost use Rattle.std.specs.Option.{option_copied};
ghost use Rattle.bed_lang.specs.Numbers.{wrap};
ghost use Rattle.bed_il.specs.Places as places;
ghost use Rattle.bed_il.specs.declared.blocks.Block.{Block};
ghost use Rattle.bed_layout.specs.Layered.{functions_in};

use crate::sizes::blocks_size;
use bed_il::Block;
use bed_lang::List;

/// What has functions as blocks, in layout order.
pub trait HasBlocks {
    ghost use Rattle.std.specs.Prelude.{List};
    ghost use Rattle.bed_il.specs.declared.blocks.Block.{Block};

    ghost each: { Self → List (List Block) };

    fn functions(&self) -> &[List<Block>]
        ensures { result.now ≡ each self.now };
}

/// The function with a number, from 0 over all.
pub(crate) fn function_at<M: HasBlocks>(code: &[M], number: usize) -> Option<&List<Block>>
    ensures { option_copied result ≡ slice_get (functions_in (map M.each code.now)) number }
{
    let mut left = number;
    for module in code {
        let functions = module.functions();
        if left < functions.len() {
            return Some(&functions[left]);
        }
        left -= functions.len();
    }
    None
}

// The greatest of a number and the lengths of functions.
fn longest_of(functions: &[List<Block>], least: u32) -> u32
    ensures least { least ≤ result }
    ensures each { (B : List Block) → Contains functions.now B → wrap (places.blocks_size B) ≤ result }
{
    let mut longest = least;
    for function in functions {
        longest = longest.max(blocks_size(function.as_slice()));
    }
    longest
}

/// The length of the longest function.
pub(crate) fn longest<M: HasBlocks>(code: &[M]) -> u32
    ensures { (B : List Block) → Contains (functions_in (map M.each code.now)) B → wrap (places.blocks_size B) ≤ result }
{
    let mut longest = 0;
    for module in code {
        longest = longest_of(module.functions(), longest);
    }
    longest
}

/// The number of the blocks of the function that has the most.
pub(crate) fn most_blocks<M: HasBlocks>(code: &[M]) -> usize {
    let mut most = 0;
    for module in code {
        for function in module.functions() {
            most = most.max(function.len());
        }
    }
    most
}
