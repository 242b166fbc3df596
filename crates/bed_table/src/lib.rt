//! The bytes of images: the code table, the layout of functions and the image format.
#![tactic(auto)]

mod build;
mod code;
mod heads;
pub mod laws;
mod layout;
mod put;
mod rows;
mod scope;
mod size;
mod symbols;

pub use build::image;
pub use heads::push_function_heads;
pub use layout::{code_length, function_length};
