//! What the bytes of a statement hang on beside its address.
ghost use Rattle.std.specs.Prelude.{◌≡◌, map};
ghost use Rattle.bed_table.specs.Words.{slot as slot_of, call_area as area_of};
ghost use Rattle.bed_table.specs.Layout.{address_of as address_in};
ghost use Rattle.bed_table.specs.Seen.{label_of};

use bed_lang::Name;

// A label with its address.
#[derive(Drop)]
pub(crate) struct Known<'a> {
    pub(crate) name: &'a Name,
    pub(crate) address: u32,
}

// The address of the first label of a name; 0 where there is none.
pub(crate) fn address_of(labels: &[Known], name: &Name) -> u64
    ensures { result ≡ address_in (map label_of labels.now) name.now.bytes }
{
    for known in labels {
        if known.name.bytes.as_slice() == name.bytes.as_slice() {
            return known.address as u64;
        }
    }
    0
}

// The locals of a function and the labels.
#[derive(Drop)]
pub(crate) struct Scope<'a> {
    pub(crate) params: &'a [Name],
    pub(crate) locals: &'a [Name],
    pub(crate) labels: &'a [Known<'a>],
}

impl Scope<'_> {
    ghost use Rattle.bed_table.specs.Seen.{names_in, labels_in};

    // Where a local stands in the frame.
    pub(crate) fn slot(&self, name: &Name) -> u64
        ensures { result ≡ slot_of (names_in self.now) name.now.bytes }
    {
        let mut slot: u32 = 4;
        for param in self.params {
            if param.bytes.as_slice() == name.bytes.as_slice() {
                return slot as u64;
            }
            slot = slot.wrapping_add(4);
        }
        for local in self.locals {
            if local.bytes.as_slice() == name.bytes.as_slice() {
                return slot as u64;
            }
            slot = slot.wrapping_add(4);
        }
        slot as u64
    }

    // Where the frames of callees begin.
    pub(crate) fn call_area(&self) -> u64
        ensures { result ≡ area_of (names_in self.now) }
    {
        let params = self.params.len() as u64 % 4294967296;
        let locals = self.locals.len() as u64 % 4294967296;
        (4 + 4 * (params + locals)) % 4294967296
    }

    // The address of a label; 0 where there is none of the name.
    pub(crate) fn label(&self, name: &Name) -> u64
        ensures { result ≡ labels_in self.now name.now.bytes }
    {
        address_of(self.labels, name)
    }
}
