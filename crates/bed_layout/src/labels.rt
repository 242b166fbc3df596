//! The addresses of a function's labels.
ghost use Rattle.std.specs.Prelude.{◌≡◌, ◌+◌, ◌<◌, slice_set, IfSome};
ghost use Rattle.bed_lang.specs.Numbers.{wrap};
ghost use Rattle.bed_il.specs.Fit.{AreDistinct};
ghost use Rattle.bed_il.specs.Places.{place_of};
ghost use Rattle.bed_layout.specs.Labels.{AreAddresses, AreLabels};

use crate::sizes::block_size;
use bed_il::Block;
use bed_names::Table;

/// A function's blocks from an address, with the addresses of their first ones, and those of all names.
#[derive(Drop)]
pub(crate) struct Labels<'a> {
    pub(crate) names: &'a Table,
    pub(crate) blocks: &'a [Block],
    pub(crate) places: &'a [u32],
    pub(crate) at: u32,
}

// Sets one of the addresses, where there is room for it.
fn set(places: &mut [u32], number: usize, at: u32)
    ensures { places.new ≡ slice_set places.old number at }
{
    if number < places.len() {
        places[number] = at;
    }
}

/// Sets the addresses of the first blocks, as many as there is room for.
pub(crate) fn set_places(places: &mut [u32], blocks: &[Block], at: u32)
    ensures { AreAddresses blocks.now at places.new }
{
    let mut next = at;
    for (number, block) in blocks.iter().enumerate() {
        set(places, number, next);
        next = next.wrapping_add(block_size(block));
    }
}

impl Labels<'_> {
    // The address of a label whose block has the number that it has where labels follow one another.
    fn place_by_number(&self, label: u32) -> Option<u32>
        requires { AreLabels self.now }
        ensures { IfSome result (λ p. p ≡ wrap (place_of self.now.blocks.now self.now.at label)) }
    {
        if self.blocks.is_empty() {
            return None;
        }
        let number = label.wrapping_sub(self.blocks[0].label) as usize;
        if number >= self.blocks.len() || number >= self.places.len() {
            return None;
        }
        let block = &self.blocks[number];
        if block.label == label {
            Some(self.places[number])
        } else {
            None
        }
    }

    // The address of a label, from block to block.
    fn place_by_sizes(&self, label: u32) -> u32
        ensures { result ≡ wrap (place_of self.now.blocks.now self.now.at label) }
    {
        let mut next = self.at;
        for block in self.blocks {
            if block.label == label {
                return next;
            }
            next = next.wrapping_add(block_size(block));
        }
        next
    }

    /// The address of a label.
    pub(crate) fn place(&self, label: u32) -> u32
        requires { AreLabels self.now }
        ensures { result ≡ wrap (place_of self.now.blocks.now self.now.at label) }
    {
        match self.place_by_number(label) {
            Some(place) => place,
            None => self.place_by_sizes(label),
        }
    }
}
