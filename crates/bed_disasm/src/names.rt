//! The lines of names.
ghost use Rattle.std.specs.Prelude.{◌≡◌, ◌++◌, OnOk};
ghost use Rattle.bed_disasm.specs.Listing.{name_line, name_lines};

use bed_image::Symbol;
use std::alloc::AllocError;

/// Appends a line `name:` for each symbol at an address, imports left out.
pub fn push_names(out: &mut Vec<u8>, symbols: &[Symbol], at: u32) -> Result<(), AllocError>
    ensures { OnOk result (out.new.items ≡ out.old.items ++ name_lines symbols.now at) }
{
    for s in symbols {
        push_name(out, s, at)?;
    }
    Ok(())
}

fn push_name(out: &mut Vec<u8>, s: &Symbol, at: u32) -> Result<(), AllocError>
    ensures { OnOk result (out.new.items ≡ out.old.items ++ name_line at s.now) }
{
    if s.kind < 3 && s.address == at {
        out.extend_from_slice(s.name.as_slice())?;
        out.extend_from_slice(b":\n")?;
    }
    Ok(())
}
