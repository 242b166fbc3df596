//! One page: cells in a row, of which some are mapped.
ghost use Rattle.std.specs.Prelude.{◌≡◌, ◌+◌, ◌≤◌, ◌<◌, ◌^◌, ℕ, Option, None, Some, is_some, IfOk, length, slice_set, slice_index_or};
ghost use Rattle.std.specs.Bool.{OnTrue, OnFalse};
ghost use Rattle.bed_pages.specs.Zeros.{zeroed_between};

use std::alloc::{AllocError, Global};

/// How many addresses a page has.
pub const PAGE: usize = 4096;

/// The bytes of a page. A cell of which no byte is mapped is `None`.
#[derive(Drop)]
pub struct Page {
    pub cells: Vec<Option<u8>>,
    ghost whole: { length cells.items ≡ 4096 },
}

impl Page {
    /// A page with nothing mapped.
    pub fn new(alloc: Global) -> Result<Page, AllocError>
        ensures { IfOk result (λ page. (i : ℕ) → slice_index_or page.cells.items i None ≡ None) }
    {
        let cells = unmapped(alloc, PAGE)?;
        Ok(Page { cells })
    }

    /// Maps zeros in the cells from one number up to another. Cells that are mapped keep their byte.
    pub fn zero(&mut self, from: usize, to: usize)
        requires ordered { from ≤ to }
        requires within { to ≤ 4096 }
        ensures { (i : ℕ) → slice_index_or self.new.cells.items i None ≡ zeroed_between from to i (slice_index_or self.old.cells.items i None) }
    {
        for i in from..to {
            if self.cells[i].is_none() {
                self.cells[i] = Some(0);
            }
        }
    }

    /// Replaces the byte of a cell. False exactly where it isn't mapped; nothing changes then.
    pub fn set(&mut self, i: usize, byte: u8) -> bool
        requires { i < 4096 }
        ensures mapped { result ≡ is_some (slice_index_or self.old.cells.items i None) }
        ensures put { OnTrue result (self.new.cells.items ≡ slice_set self.old.cells.items i (Some byte)) }
        ensures kept { OnFalse result (self.new.cells.items ≡ self.old.cells.items) }
    {
        if self.cells[i].is_none() {
            return false;
        }
        self.cells[i] = Some(byte);
        true
    }
}

/// So many cells with nothing mapped.
fn unmapped(alloc: Global, count: usize) -> Result<Vec<Option<u8>>, AllocError>
    ensures len { IfOk result (λ cells. length cells.items ≡ count) }
    ensures none { IfOk result (λ cells. (i : ℕ) → slice_index_or cells.items i None ≡ None) }
{
    Ok(vec![in alloc; None; count]?)
}
