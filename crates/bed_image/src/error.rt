//! Why bytes aren't read as an image.
use std::alloc::AllocError;
use thiserror::Error;

/// Why bytes aren't read as an image.
#[derive(Debug, Drop, Error)]
pub enum ImageError {
    /// They are no image, by the first fault from the left: the offset of a field with a bad value, the
    /// number of bytes where a field isn't whole, or the offset of the first byte after the code.
    #[error("no image, by what stands at {at}")]
    BadImage { at: u32 },
    /// Want of memory.
    #[error("want of memory")]
    Memory,
}

impl From<AllocError> for ImageError {
    ghost use Rattle.std.specs.Prelude.{◌≡◌};
    ghost use Rattle.bed_image.specs.declared.error.ImageError.TheVariants.{Memory};

    ghost from_gives = { λ _ e. e ≡ Memory };

    fn from(_: AllocError) -> ImageError {
        ImageError::Memory
    }
}
