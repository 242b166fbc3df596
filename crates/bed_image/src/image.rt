//! Images.
use bed_lang::{List, Text};
use bed_machine::Code;

/// A name for an address.
#[derive(Drop)]
pub struct Symbol {
    /// 0 for a function, 1 for an exported function, 2 for a loop head, 3 for an import.
    pub kind: u8,
    /// Where it stands: in the code, unless it is an import.
    pub address: u32,
    /// From 1 to 255 printing ASCII characters, 0x21 to 0x7E.
    pub name: Text,
}

/// Code and its symbols. A file holds at most 1,048,576 bytes of code and 65,536 symbols.
#[derive(Drop)]
pub struct Image {
    pub code: Code,
    pub symbols: List<Symbol>,
}
