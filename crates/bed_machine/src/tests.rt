//! Instructions and steps, on the bytes and values of worked examples.

use super::*;
use std::alloc::Global;
use std::process::Abort;
use std::test::Fail;

const REGS: Regs = Regs {
    eax: 0,
    ecx: 0,
    edx: 0,
    ebx: 0,
    esp: 0,
    ebp: 0x8000_0000,
    esi: 0,
    edi: 0,
};

// Each of the two words of a frame at 80000000 is 0.
fn frame(alloc: Global) -> Result<Plain, Fail> {
    let mut mem = Plain::new(alloc);
    for i in 0..8u32 {
        mem.map(0x8000_0000 + i, 0)?;
    }
    Ok(mem)
}

fn start(alloc: Global) -> Result<State<Plain>, Fail> {
    Ok(State {
        regs: REGS,
        eip: 0x0040_0000,
        flags: Flags::Unknown,
        mem: frame(alloc)?,
    })
}

fn code(alloc: Global, bytes: &[u8]) -> Result<Code, Fail> {
    match Code::new(0x0040_0000, bytes.to_vec(alloc)?) {
        Some(code) => Ok(code),
        None => Err(Fail::from("too long")),
    }
}

// The bytes are the instruction's, and each shorter beginning is truncated.
fn is_row(rt: &impl Abort, bytes: &[u8], instruction: Ins) {
    assert!(rt; decode(bytes) == Ok((instruction, bytes.len())));
    for size in 0..bytes.len() {
        assert!(rt; decode(&bytes[..size]) == Err(Bad::Truncated));
    }
}

fn immediate(subtract: bool) -> Ins {
    Ins::Immediate {
        subtract,
        to: Reg::Ebp,
        imm: 16,
    }
}

fn arith(op: Arith) -> Ins {
    Ins::Arith {
        op,
        to: Reg::Ecx,
        from: Reg::Edx,
    }
}

// Five bytes back from the next instruction.
fn back_if(branch: Branch) -> Ins {
    Ins::Jcc {
        branch,
        rel: 0xFFFF_FFFB,
    }
}

#[test]
fn decodes_moves_of_registers(rt: HostRuntime) {
    let (to, from, rm) = (Reg::Eax, Reg::Ecx, Rm::Reg(Reg::Eax));
    is_row(
        &rt,
        b"\xB9\x07\x00\x00\x00",
        Ins::MovImm { to: from, imm: 7 },
    );
    is_row(&rt, b"\x89\xC8", Ins::MovTo { rm, from });
    is_row(&rt, b"\x8B\xC8", Ins::MovFrom { to: from, rm });
    is_row(
        &rt,
        b"\x8B\xC1",
        Ins::MovFrom {
            to,
            rm: Rm::Reg(from),
        },
    );
}

#[test]
fn decodes_moves_of_memory(rt: HostRuntime) {
    let (base, disp) = (Reg::Ebp, 0x8003_0201);
    let rm = Rm::Mem { base, disp };
    is_row(
        &rt,
        b"\x8B\xB5\x01\x02\x03\x80",
        Ins::MovFrom { to: Reg::Esi, rm },
    );
    is_row(
        &rt,
        b"\x89\xB5\x01\x02\x03\x80",
        Ins::MovTo { rm, from: Reg::Esi },
    );
    is_row(
        &rt,
        b"\x88\x95\x01\x02\x03\x80",
        Ins::MovByte {
            base,
            disp,
            from: Reg::Edx,
        },
    );
    is_row(
        &rt,
        b"\x0F\xB6\x8D\x01\x02\x03\x80",
        Ins::Movzx {
            to: Reg::Ecx,
            base,
            disp,
        },
    );
}

#[test]
fn decodes_arithmetic(rt: HostRuntime) {
    let (to, from) = (Reg::Ecx, Reg::Edx);
    is_row(&rt, b"\x03\xCA", arith(Arith::Add));
    is_row(&rt, b"\x0B\xCA", arith(Arith::Or));
    is_row(&rt, b"\x23\xCA", arith(Arith::And));
    is_row(&rt, b"\x2B\xCA", arith(Arith::Sub));
    is_row(&rt, b"\x33\xCA", arith(Arith::Xor));
    is_row(
        &rt,
        b"\x3B\xCA",
        Ins::Cmp {
            left: to,
            right: from,
        },
    );
    is_row(&rt, b"\x0F\xAF\xCA", Ins::Imul { to, from });
    is_row(&rt, b"\x81\xC5\x10\x00\x00\x00", immediate(false));
    is_row(&rt, b"\x81\xED\x10\x00\x00\x00", immediate(true));
}

#[test]
fn decodes_jumps(rt: HostRuntime) {
    is_row(&rt, b"\xE9\xFB\xFF\xFF\xFF", Ins::Jmp { rel: 0xFFFF_FFFB });
    is_row(&rt, b"\x0F\x82\xFB\xFF\xFF\xFF", back_if(Branch::Below));
    is_row(&rt, b"\x0F\x83\xFB\xFF\xFF\xFF", back_if(Branch::NotBelow));
    is_row(&rt, b"\x0F\x84\xFB\xFF\xFF\xFF", back_if(Branch::Equal));
    is_row(&rt, b"\x0F\x85\xFB\xFF\xFF\xFF", back_if(Branch::NotEqual));
    is_row(&rt, b"\x0F\x86\xFB\xFF\xFF\xFF", back_if(Branch::NotAbove));
    is_row(&rt, b"\x0F\x87\xFB\xFF\xFF\xFF", back_if(Branch::Above));
    is_row(&rt, b"\xFF\xE6", Ins::JmpReg(Reg::Esi));
}

#[test]
fn refuses_other_bytes(rt: HostRuntime) {
    assert!(rt; decode(b"\x0F\x0B") == Err(Bad::Undefined));
    // a memory operand with a byte SIB
    assert!(rt; decode(b"\x8B\x84\x24\x00\x00\x00\x00") == Err(Bad::Undefined));
    // a jump on signed comparison
    assert!(rt; decode(b"\x0F\x8D\x00\x00\x00\x00") == Err(Bad::Undefined));
    // the byte registers AH to BH
    assert!(rt; decode(b"\x88\xA1") == Err(Bad::Undefined));
    // a displacement of eight bits
    assert!(rt; decode(b"\x8B\x45\x04") == Err(Bad::Undefined));
}

#[test]
fn ud2_is_undefined_and_changes_nothing(rt: HostRuntime) -> Result<(), Fail> {
    let code = code(rt.alloc(), b"\x0F\x0B")?;
    let mut s = start(rt.alloc())?;
    assert!(rt; step(&code, &mut s) == Err(Fault::Undefined(0x0040_0000)));
    assert!(rt; s.regs == REGS);
    assert!(rt; s.eip == 0x0040_0000);
    assert!(rt; s.flags == Flags::Unknown);
    assert!(rt; load_word(&s.mem, 0x8000_0000) == Some(0));
    Ok(())
}

// A function that answers 7: it keeps its return address in its frame, and jumps back to it.
#[test]
fn seven(rt: HostRuntime) -> Result<(), Fail> {
    let code = code(
        rt.alloc(),
        b"\x89\xB5\x00\x00\x00\x00\xB9\x07\x00\x00\x00\x8B\xC1\x8B\xB5\x00\x00\x00\x00\xFF\xE6",
    )?;
    let mut s = start(rt.alloc())?;
    for _ in 0..5 {
        assert!(rt; step(&code, &mut s) == Ok(()));
    }
    assert!(rt; s.eip == 0);
    assert!(rt; s.regs.eax == 7);
    assert!(rt; s.regs.ebp == 0x8000_0000);
    assert!(rt; load_word(&s.mem, 0x8000_0004) == Some(0));
    assert!(rt; step(&code, &mut s) == Err(Fault::Unmapped(0)));
    Ok(())
}

// A function that answers its argument, the second word of its frame, and returns to another address.
#[test]
fn identity(rt: HostRuntime) -> Result<(), Fail> {
    let code = code(
        rt.alloc(),
        b"\x89\xB5\x00\x00\x00\x00\x8B\x8D\x04\x00\x00\x00\x8B\xC1\x8B\xB5\x00\x00\x00\x00\xFF\xE6",
    )?;
    let mut s = start(rt.alloc())?;
    s.regs.esi = 0x1234;
    assert!(rt; store_word(&mut s.mem, 0x8000_0004, 9));
    for _ in 0..5 {
        assert!(rt; step(&code, &mut s) == Ok(()));
    }
    assert!(rt; s.eip == 0x1234);
    assert!(rt; s.regs.eax == 9);
    assert!(rt; load_word(&s.mem, 0x8000_0000) == Some(0x1234));
    assert!(rt; load_word(&s.mem, 0x8000_0004) == Some(9));
    Ok(())
}

// CMP EBP, EAX and JA over itself; then JB, which isn't taken; then ADD, and JE on flags unknown.
#[test]
fn compares_and_jumps(rt: HostRuntime) -> Result<(), Fail> {
    let code = code(
        rt.alloc(),
        b"\x3B\xE8\x0F\x87\x00\x00\x00\x00\x0F\x82\x00\x00\x00\x00\x03\xE8\x0F\x84\x00\x00\x00\x00",
    )?;
    let mut s = start(rt.alloc())?;
    assert!(rt; step(&code, &mut s) == Ok(()));
    assert!(rt;
        s.flags
            == Flags::Known {
                carry: false,
                zero: false
            }
    );
    for _ in 0..3 {
        assert!(rt; step(&code, &mut s) == Ok(()));
    }
    assert!(rt; s.eip == 0x0040_0010);
    assert!(rt; step(&code, &mut s) == Err(Fault::FlagsUnknown(0x0040_0010)));
    Ok(())
}

#[test]
fn code_ends_by_the_last_address(rt: HostRuntime) -> Result<(), Fail> {
    assert!(rt; Code::new(0xFFFF_FFFF, [0x90].to_vec(rt.alloc())?).is_some());
    assert!(rt; Code::new(0xFFFF_FFFF, [0x90, 0x90].to_vec(rt.alloc())?).is_none());
    Ok(())
}

#[test]
fn memory_has_what_was_mapped(rt: HostRuntime) -> Result<(), Fail> {
    let mut mem = frame(rt.alloc())?;
    assert!(rt; mem.get(0x7FFF_FFFF).is_none());
    assert!(rt; !mem.set(0x7FFF_FFFF, 1));
    assert!(rt; mem.get(0x7FFF_FFFF).is_none());
    assert!(rt; mem.set(0x8000_0003, 0x12));
    assert!(rt; mem.get(0x8000_0003) == Some(0x12));
    assert!(rt; load_word(&mem, 0x8000_0000) == Some(0x1200_0000));
    assert!(rt; !store_word(&mut mem, 0x8000_0005, 1));
    assert!(rt; store_word(&mut mem, 0x8000_0004, 0x0403_0201));
    assert!(rt; mem.get(0x8000_0004) == Some(1));
    assert!(rt; load_word(&mem, 0xFFFF_FFFD).is_none());
    Ok(())
}
