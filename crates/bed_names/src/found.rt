//! Of the faults that were found, the refusal.
ghost use Rattle.std.specs.Prelude.{◌≡◌, ◌∷◌, []};
ghost use Rattle.bed_names.specs.Faults.{place as place_of, rank as rank_of, goes_before as is_before, earlier, noted, fault_if};

use crate::error::NameError;

// The place of a fault.
fn place(fault: NameError) -> u32
    ensures { result ≡ place_of fault }
{
    match fault {
        NameError::Twice { at } => at,
        NameError::Unknown { at } => at,
        NameError::Sort { at } => at,
        NameError::Arity { at } => at,
        NameError::Dead { at } => at,
        NameError::MissingJoin { at } => at,
        NameError::FallsOff { at } => at,
        NameError::StackRoom { at, .. } => at,
        NameError::Memory => 0,
    }
}

// The order of the rules.
fn rank(fault: NameError) -> u8
    ensures { result ≡ rank_of fault }
{
    match fault {
        NameError::Twice { .. } => 0,
        NameError::Unknown { .. } => 1,
        NameError::Sort { .. } => 2,
        NameError::Arity { .. } => 3,
        NameError::Dead { .. } => 4,
        NameError::MissingJoin { .. } => 5,
        NameError::FallsOff { .. } => 6,
        NameError::StackRoom { .. } => 7,
        NameError::Memory => 8,
    }
}

fn goes_before(a: NameError, b: NameError) -> bool
    ensures { result ≡ is_before a b }
{
    place(a) < place(b) || (place(a) == place(b) && rank(a) < rank(b))
}

/// What is left of what was found and one more fault.
pub(crate) fn note(found: Option<NameError>, fault: NameError) -> Option<NameError>
    ensures { result ≡ earlier found fault }
{
    match found {
        None => Some(fault),
        Some(first) => {
            if goes_before(fault, first) {
                Some(fault)
            } else {
                Some(first)
            }
        }
    }
}

/// The same, where something is the case.
pub(crate) fn note_if(found: Option<NameError>, is: bool, fault: NameError) -> Option<NameError>
    ensures { result ≡ noted found (fault_if is fault) }
{
    if is { note(found, fault) } else { found }
}
