// The implementations on small cases: contents, refusals, and the system's files.
ghost use Rattle.std.proofs.Common.{arith};
ghost use Rattle.std.proofs.lemmas.List.{length-map};
ghost use Rattle.std.specs.Prelude.{◌≡◌, ◌<◌, ◌^◌, [], length, map, codes};
ghost use Rattle.bed_io.specs.Host.{HostState};

use crate::{
    CalmFiles, Failed, FileRefusal, Files, Host, MemFiles, MemSink, RealFiles, RealSink, Sink,
};
use std::alloc::{AllocError, Global};
use std::test::Fail;

// Reads a file into a vector that already holds bytes.
fn read_back<F: Files>(
    alloc: Global,
    files: &mut F,
    name: &[u8],
    most: u16,
) -> Result<Vec<u8>, FileRefusal> {
    let mut into = Vec::from_slice(alloc, b"left over").map_err(|_| FileRefusal::Memory)?;
    files.read(name, usize::from(most), &mut into)?;
    Ok(into)
}

#[test]
fn files_in_memory_keep_their_contents(rt: HostRuntime) -> Result<(), Fail> {
    let alloc = rt.alloc();
    let mut files = MemFiles::new(alloc, Vec::new(alloc));
    assert!(rt; files.contents(b"a").is_none());
    files.set(b"a", b"seven")?;
    for (most, want) in [
        (100, b"seven".as_slice()),
        (5, b"seven".as_slice()),
        (4, b"seven".as_slice()),
        (3, b"seve".as_slice()),
        (0, b"s".as_slice()),
    ] {
        let bytes = read_back(alloc, &mut files, b"a", most);
        assert!(rt;
            bytes.is_ok_and(|bytes| bytes.as_slice() == want),
            "at {most}"
        );
    }
    let absent = read_back(alloc, &mut files, b"b", 100);
    assert!(rt; absent.is_err_and(|refusal| refusal == FileRefusal::Failed));
    assert_eq!(rt; files.write(b"b", b"one"), Ok(()));
    assert_eq!(rt; files.append(b"b", b", two"), Ok(()));
    assert_eq!(rt; files.append(b"\xff", b"new"), Ok(()));
    assert_eq!(rt; files.contents(b"a"), Some(b"seven".as_slice()));
    assert_eq!(rt; files.contents(b"b"), Some(b"one, two".as_slice()));
    assert_eq!(rt; files.contents(b"\xff"), Some(b"new".as_slice()));
    assert_eq!(rt; files.write(b"b", b""), Ok(()));
    assert_eq!(rt; files.contents(b"b"), Some(b"".as_slice()));
    Ok(())
}

#[test]
fn listed_calls_fail(rt: HostRuntime) -> Result<(), Fail> {
    let alloc = rt.alloc();
    let mut files = MemFiles::new(alloc, vec![in alloc; 2, 4, 5]?);
    let mut into = Vec::new(alloc);
    files.set(b"a", b"one")?;
    assert_eq!(rt; files.read(b"a", 10, &mut into), Ok(()));
    assert_eq!(rt; into.as_slice(), b"one".as_slice());
    files.set(b"a", b"two")?;
    assert_eq!(rt; files.read(b"a", 10, &mut into), Err(FileRefusal::Failed));
    assert_eq!(rt; into.as_slice(), b"".as_slice());
    assert_eq!(rt; files.append(b"a", b"!"), Ok(()));
    assert_eq!(rt; files.append(b"a", b"!"), Err(FileRefusal::Failed));
    assert_eq!(rt; files.write(b"b", b"three"), Err(FileRefusal::Failed));
    assert_eq!(rt; files.read(b"a", 10, &mut into), Ok(()));
    assert_eq!(rt; into.as_slice(), b"two!".as_slice());
    Ok(())
}

#[test]
fn calm_files_read_absent_as_empty(rt: HostRuntime) -> Result<(), Fail> {
    let alloc = rt.alloc();
    let mut files = CalmFiles::new(alloc);
    let mut into = Vec::from_slice(alloc, b"left over")?;
    assert_eq!(rt; files.read(b"a", 10, &mut into), Ok(()));
    assert_eq!(rt; into.as_slice(), b"".as_slice());
    assert!(rt; files.contents(b"a").is_none());
    files.set(b"a", b"one")?;
    assert_eq!(rt; files.append(b"a", b", two"), Ok(()));
    assert_eq!(rt; files.write(b"b", b"three"), Ok(()));
    let cut = read_back(alloc, &mut files, b"a", 4);
    assert!(rt; cut.is_ok_and(|bytes| bytes.as_slice() == b"one, ".as_slice()));
    assert_eq!(rt; files.contents(b"b"), Some(b"three".as_slice()));
    Ok(())
}

#[test]
fn sinks_in_memory_have_room(rt: HostRuntime) -> Result<(), Fail> {
    let alloc = rt.alloc();
    for (room, fails, second, third, want) in [
        (6, 0, Ok(()), Ok(()), b"abcdef".as_slice()),
        (5, 0, Ok(()), Err(Failed), b"abcde".as_slice()),
        (4, 0, Err(Failed), Ok(()), b"abcf".as_slice()),
        (6, 2, Err(Failed), Ok(()), b"abcf".as_slice()),
        (6, 3, Ok(()), Err(Failed), b"abcde".as_slice()),
    ] {
        let mut sink = MemSink::new(alloc, room, vec![in alloc; fails]?)?;
        assert_eq!(rt; sink.put(b"abc"), Ok(()));
        assert_eq!(rt; sink.put(b"de"), second, "the second at {room}, {fails}");
        assert_eq!(rt; sink.put(b"f"), third, "the third at {room}, {fails}");
        assert_eq!(rt; sink.taken(), want, "at {room}, {fails}");
    }
    Ok(())
}

#[test]
fn the_system_is_reached(rt: HostRuntime) -> Result<(), Fail> {
    let alloc = rt.alloc();
    let mut files = RealFiles::new(&rt);
    let mut into = Vec::from_slice(alloc, b"left over")?;
    assert_eq!(rt;
        files.read(b"absent", 10, &mut into),
        Err(FileRefusal::Failed)
    );
    assert_eq!(rt; into.as_slice(), b"".as_slice());
    assert_eq!(rt; files.write(b"a.bin", b"a longer text"), Ok(()));
    assert_eq!(rt; files.write(b"a.bin", b"one"), Ok(()));
    assert_eq!(rt; files.append(b"a.bin", b", two"), Ok(()));
    assert_eq!(rt; files.append(b"b.bin", b"new"), Ok(()));
    for (name, most, want) in [
        (b"a.bin".as_slice(), 100, b"one, two".as_slice()),
        (b"a.bin".as_slice(), 7, b"one, two".as_slice()),
        (b"a.bin".as_slice(), 6, b"one, tw".as_slice()),
        (b"b.bin".as_slice(), 100, b"new".as_slice()),
    ] {
        let bytes = read_back(alloc, &mut files, name, most);
        assert!(rt;
            bytes.is_ok_and(|bytes| bytes.as_slice() == want),
            "at {most}"
        );
    }
    for bad in [b"no/such".as_slice(), b"a\xffb".as_slice(), b".".as_slice()] {
        assert_eq!(rt; files.read(bad, 10, &mut into), Err(FileRefusal::Failed));
        assert_eq!(rt; files.write(bad, b"x"), Err(FileRefusal::Failed));
        assert_eq!(rt; files.append(bad, b"x"), Err(FileRefusal::Failed));
    }
    let mut sink = RealSink::new(&rt);
    assert_eq!(rt; sink.put(b"put\n"), Ok(()));
    assert_eq!(rt; sink.put(b""), Ok(()));
    Ok(())
}

// A host of two words that answers 0.
#[derive(Drop)]
struct Silent {
    alloc: Global,
    log: Vec<Vec<u32>>,
    ghost fits: { length log.items < 2 ^ 32 },
}

impl Silent {
    fn new(alloc: Global) -> Silent
        ensures { ⟦<Silent as Host>⟧.seen result ≡ record { name = codes "silent"; arity = 2; log = []; waiting = [] } }
    {
        Silent {
            alloc,
            log: Vec::new(alloc),
        }
    }
}

impl Host for Silent {
    ghost seen = { λ host. record { name = codes "silent"; arity = 2; log = map (λ args. (args.items, 0)) host.log.items; waiting = [] } };

    ghost log_fits = { λ host. Prim.grind (arith, length-map, host.fits) };

    fn name(&self) -> &[u8] {
        b"silent"
    }

    fn arity(&self) -> u32 {
        2
    }

    fn call(&mut self, args: &[u32]) -> Result<u32, AllocError> {
        let args = Vec::from_slice(self.alloc, args)?;
        self.log.push(args)?;
        Ok(0)
    }

    fn entries(&self) -> u32 {
        self.log.len() as u32
    }

    fn entry_argument(&self, entry: u32, argument: u32) -> Option<u32> {
        let args = self.log.get(entry as usize)?;
        args.get(argument as usize).copied()
    }

    fn entry_answer(&self, entry: u32) -> Option<u32> {
        self.log.get(entry as usize)?;
        Some(0)
    }
}

fn call_boxed(host: &mut Box<dyn Host>, args: &[u32]) -> Result<u32, AllocError>
    requires words { length args.now ≡ (seen host.old).arity }
    requires room { length (seen host.old).log < 4294967295 }
{
    host.call(args)
}

#[test]
fn a_boxed_host_keeps_a_log(rt: HostRuntime) -> Result<(), Fail> {
    let alloc = rt.alloc();
    let mut host: Box<dyn Host> = Box::new(alloc, Silent::new(alloc))?;
    assert_eq!(rt; host.name(), b"silent".as_slice());
    assert_eq!(rt; host.arity(), 2);
    assert_eq!(rt; call_boxed(&mut host, &[7, 8])?, 0);
    assert_eq!(rt; host.entries(), 1);
    assert_eq!(rt; host.entry_argument(0, 1), Some(8));
    assert_eq!(rt; host.entry_argument(0, 2), None);
    assert_eq!(rt; host.entry_argument(1, 0), None);
    assert_eq!(rt; host.entry_answer(0), Some(0));
    assert_eq!(rt; host.entry_answer(1), None);
    Ok(())
}
