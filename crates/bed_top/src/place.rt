//! Lines and columns of offsets in a text.
ghost use Rattle.std.specs.Prelude.{◌≡◌, ◌+◌, ◌-◌, ◌<◌, ◌≤◌, ◌^◌, length, take, drop};
ghost use Rattle.bed_top.specs.Places.{after_byte, after_bytes, place_of};

/// The bytes before an offset.
fn before(text: &[u8], at: usize) -> &[u8]
    ensures { result.now ≡ take at text.now }
{
    if at < text.len() { &text[..at] } else { text }
}

/// The place after one more byte.
fn after(place: (u32, u32), byte: u8) -> (u32, u32)
    requires from_one { 1 ≤ place.1 }
    requires fits { place.0 + place.1 < 2 ^ 32 - 1 }
    ensures next { result ≡ after_byte place byte }
    ensures near { (1 ≤ result.1) × (result.0 + result.1 ≤ place.0 + place.1 + 1) }
{
    let (line, column) = place;
    if byte == b'\n' {
        (line + 1, 1)
    } else {
        (line, column + 1)
    }
}

/// The line and the column of an offset, both from 1, columns in bytes.
pub(crate) fn place(text: &[u8], at: u32) -> (u32, u32)
    requires { length text.now + 3 < 2 ^ 32 }
    ensures { result ≡ place_of text.now at }
{
    let mut place = (1, 1);
    let passed = before(text, at as usize);
    for byte in passed {
        place = after(place, *byte);
    }
    place
}
