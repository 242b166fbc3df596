//! Hexadecimal numbers.
ghost use Rattle.std.specs.Prelude.{◌≡◌, ◌<◌, ◌++◌, OnOk};
ghost use Rattle.bed_disasm.specs.Text.{digit, byte_text, bytes_text, word_text, number_text};

use std::alloc::AllocError;

fn digit(d: u8) -> u8
    requires { d < 16 }
    ensures { result ≡ digit d }
{
    if d < 10 { b'0' + d } else { b'A' - 10 + d }
}

/// Appends two digits.
pub fn push_byte(out: &mut Vec<u8>, byte: u8) -> Result<(), AllocError>
    ensures { OnOk result (out.new.items ≡ out.old.items ++ byte_text byte) }
{
    out.extend_from_slice(&[digit(byte / 16), digit(byte % 16)])
}

/// Appends two digits for each byte.
pub fn push_bytes(out: &mut Vec<u8>, bytes: &[u8]) -> Result<(), AllocError>
    ensures { OnOk result (out.new.items ≡ out.old.items ++ bytes_text bytes.now) }
{
    for byte in bytes {
        push_byte(out, *byte)?;
    }
    Ok(())
}

/// Appends eight digits.
#[tactic(auto, unfolding(crate::specs::Text::word_text))]
pub fn push_word(out: &mut Vec<u8>, word: u32) -> Result<(), AllocError>
    ensures { OnOk result (out.new.items ≡ out.old.items ++ word_text word) }
{
    push_byte(out, (word / 16777216) as u8)?;
    push_byte(out, (word / 65536 % 256) as u8)?;
    push_byte(out, (word / 256 % 256) as u8)?;
    push_byte(out, (word % 256) as u8)
}

/// Appends `0x` and eight digits.
#[tactic(auto, unfolding(crate::specs::Text::number_text))]
pub fn push_number(out: &mut Vec<u8>, number: u32) -> Result<(), AllocError>
    ensures { OnOk result (out.new.items ≡ out.old.items ++ number_text number) }
{
    out.extend_from_slice(b"0x")?;
    push_word(out, number)
}
