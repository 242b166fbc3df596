//! Image files: code with its base and its symbols, as bytes and back.
//!
//! A file begins with `BIM1`; then come the base, the length of the code and the number of symbols, the
//! symbols, and the code to the end. [`read_image`] takes the fields in this order and names the offset of
//! the first fault; [`write_image`] and [`header`] write what it reads.
//!
//! The definitions that the contracts cite stand in `specs/`: `Format` has the bytes of an image and says which
//! values are images, `Faults` has the fields in their order and the first fault of bytes that are none, and `Laws`
//! what holds of every file.
#![tactic(auto)]

mod error;
mod image;
pub mod laws;
mod reading;
mod writing;

pub use error::ImageError;
pub use image::{Image, Symbol};
pub use reading::read_image;
pub use writing::{header, write_image};
