//! The run, turn by turn.
ghost use Rattle.std.specs.Prelude.{◌≡◌, ◌+◌, ◌<◌, ◌≤◌, IfOk, OnErr, All, length, map};
ghost use Rattle.bed_machine.specs.MachineCode.{IsInCode};
ghost use Rattle.bed_run.specs.Hosted.{Setting, ComesBack};
ghost use Rattle.bed_run.specs.Runs.{machine_of, start, setting, HasRun, HasEnded};
ghost use Rattle.bed_run.specs.Inside.{is_inside};

use crate::ended::Ended;
use crate::hosts::{call_at, host_at};
use crate::trace::Trace;
use bed_io::Host;
use bed_lang::List;
use bed_machine::{Code, Fault, State, Store, step};
use std::alloc::{AllocError, Global};

/// Runs the machine until control comes to `r0`, `steps` instructions were made, or there is no next turn.
///
/// `outside` gives an address and the number of its host in `hosts`, from 0. Where control comes to such an
/// address, the host is called with the words 1 to its arity at EBP; its answer goes to EAX, control goes on at
/// ESI, and the flags are unknown. Such a call is no instruction. `trace` gets the address of each instruction
/// that is made.
///
/// # Errors
/// `AllocError` for want of memory: the state, the logs and the trace are those after some turns.
pub fn run<D: Store>(
    alloc: Global,
    code: &Code,
    outside: &List<(u32, u32)>,
    r0: u32,
    s: &mut State<D>,
    steps: u32,
    hosts: &mut Vec<Box<dyn Host>>,
    trace: &mut Trace,
) -> Result<Ended, AllocError>
    // Each number is that of a host, and each address lies outside the code.
    requires numbers { All (λ pair. pair.1 < length hosts.old.items) outside.now }
    requires apart { All (λ pair. IsInCode code.now pair.0 → ⊥) outside.now }

    // The logs have room for a call before each instruction, and one more.
    requires room { All (λ host. length host.log + steps ≤ 4294967290) (map (λ h. seen h) hosts.old.items) }

    // Each host hands control back into the code, so that calls don't follow one another for ever.
    requires back { ComesBack (setting code.now outside.now r0 steps) (start (machine_of D.bytes s.old) (map (λ h. seen h) hosts.old.items)) }
    ensures ended { IfOk result (λ end. HasEnded (setting code.now outside.now r0 steps) (start (machine_of D.bytes s.old) (map (λ h. seen h) hosts.old.items)) (machine_of D.bytes s.new) (map (λ h. seen h) hosts.new.items) trace.old trace.new end) }
    ensures stopped { OnErr result (HasRun (setting code.now outside.now r0 steps) (start (machine_of D.bytes s.old) (map (λ h. seen h) hosts.old.items)) (machine_of D.bytes s.new) (map (λ h. seen h) hosts.new.items) trace.old trace.new) }
{
    let mut made = 0;
    while s.eip != r0 {
        let at = s.eip;
        if !is_inside(code, at) {
            let Some(number) = host_at(outside.as_slice(), at) else {
                return Ok(Ended::Astray { eip: at });
            };
            if let Some(missing) = call_at(alloc, s, hosts, number as usize)? {
                let fault = Fault::Unmapped(missing);
                return Ok(Ended::Stuck { fault, eip: at });
            }
            continue;
        }
        if made == steps {
            return Ok(Ended::Steps { eip: at });
        }
        if let Err(fault) = step(code, s) {
            return Ok(Ended::Stuck { fault, eip: at });
        }
        trace.note(at);
        made += 1;
    }
    Ok(Ended::Returned {
        value: s.regs.eax,
        steps: made,
    })
}

/// Whether an address is that of a byte of the code.
fn is_inside(code: &Code, at: u32) -> bool
    ensures { result ≡ is_inside code.now at }
{
    code.base() <= at && ((at - code.base()) as usize) < code.bytes().len()
}
