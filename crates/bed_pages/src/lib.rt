//! A data memory that keeps its bytes in pages, for runs that touch little of a large memory.
//!
//! [`Pages`] is the same finite map of addresses to bytes as the store that keeps each byte by itself;
//! `specs/Pages.antt` says which.
#![tactic(auto)]

mod page;
mod pages;

pub use pages::Pages;
