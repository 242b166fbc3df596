//! The eight general registers.

ghost use Rattle.std.specs.Prelude.{◌≡◌};
ghost use Rattle.bed_machine.specs.Machine.{register, set_register};

/// A general register, in the numbering of the instructions' bytes: EAX is 0, EDI is 7.
#[derive(Clone, Copy, PartialEq, Eq)]
pub enum Reg {
    Eax,
    Ecx,
    Edx,
    Ebx,
    Esp,
    Ebp,
    Esi,
    Edi,
}

/// What the general registers hold, each a 32-bit word.
#[derive(Clone, Copy, PartialEq, Eq)]
pub struct Regs {
    pub eax: u32,
    pub ecx: u32,
    pub edx: u32,
    pub ebx: u32,
    pub esp: u32,
    pub ebp: u32,
    pub esi: u32,
    pub edi: u32,
}

impl Regs {
    /// What a register holds.
    pub fn get(&self, which: Reg) -> u32
        ensures { result ≡ register self.now which }
    {
        match which {
            Reg::Eax => self.eax,
            Reg::Ecx => self.ecx,
            Reg::Edx => self.edx,
            Reg::Ebx => self.ebx,
            Reg::Esp => self.esp,
            Reg::Ebp => self.ebp,
            Reg::Esi => self.esi,
            Reg::Edi => self.edi,
        }
    }

    /// Puts a word into a register. The other registers stay.
    pub fn set(&mut self, which: Reg, word: u32)
        ensures { self.new ≡ set_register self.old which word }
    {
        match which {
            Reg::Eax => self.eax = word,
            Reg::Ecx => self.ecx = word,
            Reg::Edx => self.edx = word,
            Reg::Ebx => self.ebx = word,
            Reg::Esp => self.esp = word,
            Reg::Ebp => self.ebp = word,
            Reg::Esi => self.esi = word,
            Reg::Edi => self.edi = word,
        }
    }
}
