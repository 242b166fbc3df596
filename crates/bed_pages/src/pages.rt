//! Pages by their numbers.
ghost use Rattle.std.specs.Prelude.{◌≡◌, ◌+◌, ◌*◌, ◌≤◌, ◌^◌, OnOk, OnErr, IsSome};

use crate::page::{PAGE, Page};
use bed_machine::Store;
use std::alloc::{AllocError, Global};
use std::collections::BTreeMap;

/// A store that keeps its bytes in pages: it takes memory by the pages that are mapped, wherever they are.
#[derive(Drop)]
pub struct Pages {
    alloc: Global,
    pages: BTreeMap<u32, Page>,
}

impl Pages {
    ghost use Rattle.bed_machine.specs.Memory.{empty};
    ghost use Rattle.bed_pages.specs.Pages.{pages_bytes};
    ghost use Rattle.bed_pages.specs.Zeros.{with_zeros, IsPrefixMapped};

    /// A store with nothing mapped. It takes no memory yet.
    pub fn new(alloc: Global) -> Pages
        ensures { pages_bytes result ≡ empty }
    {
        Pages {
            alloc,
            pages: BTreeMap::new(alloc),
        }
    }

    /// Maps `bytes` zeros from `at` on. Bytes that are mapped already keep their value.
    ///
    /// # Errors
    /// `AllocError` for want of memory: the first of them may be mapped then, and nothing else has changed.
    pub fn map(&mut self, at: u32, bytes: u32) -> Result<(), AllocError>
        requires { at + bytes ≤ 2 ^ 32 }
        ensures mapped { OnOk result (pages_bytes self.new ≡ with_zeros (pages_bytes self.old) at bytes) }
        ensures prefix { OnErr result (IsPrefixMapped (pages_bytes self.old) at bytes (pages_bytes self.new)) }
    {
        let mut done = 0;
        while done < bytes {
            let next = at + done;
            let offset = next % PAGE as u32;
            let size = (PAGE as u32 - offset).min(bytes - done);
            self.map_within(next / PAGE as u32, offset as usize, size as usize)?;
            done += size;
        }
        Ok(())
    }
}

impl Pages {
    ghost use Rattle.bed_pages.specs.Pages.{page_at, pages_bytes};
    ghost use Rattle.bed_pages.specs.Zeros.{with_zeros};

    /// Maps zeros in the cells of one page.
    fn map_within(&mut self, number: u32, offset: usize, size: usize) -> Result<(), AllocError>
        requires within { offset + size ≤ 4096 }
        requires addressed { 4096 * number + offset + size ≤ 2 ^ 32 }
        ensures mapped { OnOk result (pages_bytes self.new ≡ with_zeros (pages_bytes self.old) (4096 * number + offset) size) }
        ensures kept { OnErr result (pages_bytes self.new ≡ pages_bytes self.old) }
    {
        self.add_page(number)?;
        if let Some(page) = self.pages.get_mut(&number) {
            page.zero(offset, offset + size);
        }
        Ok(())
    }

    /// Makes a page where there is none, with nothing mapped.
    fn add_page(&mut self, number: u32) -> Result<(), AllocError>
        ensures there { OnOk result (IsSome (page_at self.new number)) }
        ensures kept { pages_bytes self.new ≡ pages_bytes self.old }
    {
        if !self.pages.contains_key(&number) {
            self.pages.insert(number, Page::new(self.alloc)?)?;
        }
        Ok(())
    }
}

impl Store for Pages {
    ghost use Rattle.bed_pages.specs.Pages.{pages_bytes};
    ghost use Rattle.bed_pages.specs.PagesIsMemory.{pages_is_memory};

    ghost bytes = { pages_bytes };

    ghost is_memory = { pages_is_memory };

    fn get(&self, at: u32) -> Option<u8> {
        let page = self.pages.get(&(at / PAGE as u32))?;
        let byte = page.cells[at as usize % PAGE]?;
        Some(byte)
    }

    fn set(&mut self, at: u32, byte: u8) -> bool {
        match self.pages.get_mut(&(at / PAGE as u32)) {
            None => false,
            Some(page) => page.set(at as usize % PAGE, byte),
        }
    }
}
