//! Calls of hosts.
ghost use Rattle.std.specs.Prelude.{◌≡◌, ◌<◌, ◌≤◌, ℕ, List, Option, Some, IfOk, IfSome, OnOk, OnErr, length, map, slice_get, slice_set};
ghost use Rattle.bed_io.specs.Host.{HostState, next_answer, called};
ghost use Rattle.bed_run.specs.Hosted.{host_at};
ghost use Rattle.bed_run.specs.Runs.{machine_of};
ghost use Rattle.bed_run.specs.Calls.{IsCall};

use crate::arguments::{Arguments, read_arguments};
use bed_io::Host;
use bed_machine::{Flags, State, Store};
use std::alloc::{AllocError, Global};

/// The number of the host at an address.
pub fn host_at(outside: &[(u32, u32)], at: u32) -> Option<u32>
    ensures { result ≡ host_at outside.now at }
{
    match outside {
        [] => None,
        [(address, number), rest @ ..] => {
            if *address == at {
                return Some(*number);
            }
            host_at(rest, at)
        }
    }
}

/// Calls the host of this number for the machine: its answer goes to EAX and control to ESI. The address of the
/// first argument that isn't mapped where there is one; nothing changes then, and nothing after an error.
pub fn call_at<D: Store>(
    alloc: Global,
    s: &mut State<D>,
    hosts: &mut Vec<Box<dyn Host>>,
    number: usize,
) -> Result<Option<u32>, AllocError>
    requires within { number < length hosts.old.items }
    requires room { (h : HostState) → slice_get (map (λ h. seen h) hosts.old.items) number ≡ Some h → length h.log < 4294967295 }
    ensures called { IfOk result (λ missing. (h : HostState) → slice_get (map (λ h. seen h) hosts.old.items) number ≡ Some h → IsCall (machine_of D.bytes s.old) (map (λ h. seen h) hosts.old.items) number h (machine_of D.bytes s.new) (map (λ h. seen h) hosts.new.items) missing) }
    ensures same_machine { OnErr result (machine_of D.bytes s.new ≡ machine_of D.bytes s.old) }
    ensures same_hosts { OnErr result (map (λ h. seen h) hosts.new.items ≡ map (λ h. seen h) hosts.old.items) }
{
    let arity = arity_of(&hosts[number]);
    match read_arguments(alloc, &s.mem, s.regs.ebp, arity)? {
        Arguments::Missing(at) => Ok(Some(at)),
        Arguments::Words(args) => {
            let answer = call_in(hosts, number, &args)?;
            s.regs.eax = answer;
            s.eip = s.regs.esi;
            s.flags = Flags::Unknown;
            Ok(None)
        }
    }
}

/// The call of one host of a list.
fn call_in(hosts: &mut Vec<Box<dyn Host>>, i: usize, args: &[u32]) -> Result<u32, AllocError>
    requires within { i < length hosts.old.items }
    requires words { (h : HostState) → slice_get (map (λ h. seen h) hosts.old.items) i ≡ Some h → length args.now ≡ h.arity }
    requires room { (h : HostState) → slice_get (map (λ h. seen h) hosts.old.items) i ≡ Some h → length h.log < 4294967295 }
    ensures answer { IfOk result (λ answer. (h : HostState) → slice_get (map (λ h. seen h) hosts.old.items) i ≡ Some h → answer ≡ next_answer h) }
    ensures after { OnOk result ((h : HostState) → slice_get (map (λ h. seen h) hosts.old.items) i ≡ Some h → map (λ h. seen h) hosts.new.items ≡ slice_set (map (λ h. seen h) hosts.old.items) i (called h args.now)) }
    ensures err { OnErr result (map (λ h. seen h) hosts.new.items ≡ map (λ h. seen h) hosts.old.items) }
{
    call(&mut hosts[i], args)
}

fn call(host: &mut Box<dyn Host>, args: &[u32]) -> Result<u32, AllocError>
    requires words { length args.now ≡ (seen host.old).arity }
    requires room { length (seen host.old).log < 4294967295 }
    ensures answer { IfOk result (λ answer. answer ≡ next_answer (seen host.old)) }
    ensures after { OnOk result (seen host.new ≡ called (seen host.old) args.now) }
    ensures err { OnErr result (seen host.new ≡ seen host.old) }
{
    host.call(args)
}

fn arity_of(host: &Box<dyn Host>) -> u32
    ensures { result ≡ (seen host.now).arity }
{
    host.arity()
}
