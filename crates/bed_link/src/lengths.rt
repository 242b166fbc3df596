//! How long the code is.
ghost use Rattle.std.specs.Prelude.{◌≡◌, ◌≢◌, ◌+◌, ◌-◌, ◌^◌, ◌≤◌, [], map, min, Some, OnOk, IfOk, IfErr};
ghost use Rattle.bed_table.specs.Layout.{sum_of_sizes};
ghost use Rattle.bed_link.specs.Faults.{refusal};
ghost use Rattle.bed_link.specs.Linkable.{length_faults};

use crate::error::LinkError;
use crate::parts::Part;
use bed_lang::Function;
use bed_table::function_length;

// The greatest length of code.
const GREATEST: u64 = 1_048_576;

// The number of the code's bytes, at most 18446744073709551615.
fn length_of(functions: &[Part<Function>]) -> u64
    ensures { result ≡ min (sum_of_sizes (map (λ p. p.item.now) functions.now)) (2 ^ 64 - 1) }
{
    let mut length: u64 = 0;
    for part in functions {
        length = length.saturating_add(function_length(part.item));
    }
    length
}

/// The number of the code's bytes, where it is short enough and ends at or below 2^32.
pub(crate) fn checked_length(functions: &[Part<Function>], base: u32) -> Result<u32, LinkError>
    ensures accepted { OnOk result (length_faults base (sum_of_sizes (map (λ p. p.item.now) functions.now)) ≡ []) }
    ensures length { IfOk result (λ n. n ≡ sum_of_sizes (map (λ p. p.item.now) functions.now)) }
    ensures within { OnOk result (base + sum_of_sizes (map (λ p. p.item.now) functions.now) ≤ 2 ^ 32) }
    ensures refused { IfErr result (λ e. refusal (length_faults base (sum_of_sizes (map (λ p. p.item.now) functions.now))) ≡ Some e) }
{
    let length = length_of(functions);
    if length > GREATEST || base as u64 + length > 4294967296 {
        return Err(LinkError::CodeTooLong(length));
    }
    Ok(length as u32)
}
