//! Bytes of single instructions.
ghost use Rattle.std.specs.Prelude.{◌≡◌, ◌++◌, OnOk};
ghost use Rattle.bed_lang.specs.Numbers.{word_bytes};

use std::alloc::AllocError;

// Appends the four bytes of a word, the lowest first.
pub(crate) fn put_word(out: &mut Vec<u8>, word: u64) -> Result<(), AllocError>
    ensures { OnOk result (out.new.items ≡ out.old.items ++ word_bytes word) }
{
    let bytes = [
        (word % 256) as u8,
        (word / 256 % 256) as u8,
        (word / 65536 % 256) as u8,
        (word / 16777216 % 256) as u8,
    ];
    out.extend_from_slice(&bytes)
}

// Appends an opcode and a word.
pub(crate) fn put_code(out: &mut Vec<u8>, opcode: &[u8], word: u64) -> Result<(), AllocError>
    ensures { OnOk result (out.new.items ≡ out.old.items ++ (opcode.now ++ word_bytes word)) }
{
    out.extend_from_slice(opcode)?;
    put_word(out, word)
}
