//! What holds of every image and of all bytes. Each function here does nothing: its contract is a law.
ghost use Rattle.bed_disasm.specs.Laws.{BeginsOrNot, HasListing, OneListing};

use bed_image::Image;

/// An image has one listing.
pub fn has_one_listing(_i: &Image)
    ensures only { OneListing _i.now }
    ensures there { HasListing _i.now }
{}

/// An instruction begins the bytes, or none does.
pub fn begins_or_not(_bytes: &[u8])
    ensures { BeginsOrNot _bytes.now }
{}
