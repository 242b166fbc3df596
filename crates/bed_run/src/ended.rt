//! How a run ends.
use bed_machine::Fault;

/// How a run ended.
#[derive(Clone, Copy, PartialEq, Eq)]
pub enum Ended {
    /// Control came to the return address. The value is that of EAX, and the number that of instructions.
    Returned { value: u32, steps: u32 },
    /// As many instructions were made as might be.
    Steps { eip: u32 },
    /// An instruction failed, or an argument of a host isn't mapped; `eip` is the address of the instruction or
    /// of the host.
    Stuck { fault: Fault, eip: u32 },
    /// Control is neither in the code nor at a host's address.
    Astray { eip: u32 },
}
