//! Where moves that are made one after another are to end.

ghost use Rattle.std.specs.Prelude.{◌≡◌, ◌⊎◌, ◌↔◌, ℕ, IsTrue};
ghost use Rattle.machine.specs.Instruction.{Regs, at};
ghost use Rattle.vip_memory.specs.Contents.{Contents};

use vip_cpu::Cpu;
use vip_memory::Memory;

/// The instructions before which moves end: none, those at an address, or those of either of two.
pub trait Stops: Copy {
    // one comes next, by the registers and by what memory holds
    ghost stands: { Self → Regs → Contents → Type 0 };

    /// Whether one comes next. The address is that of the next opcode, R(P).
    fn has(self, cpu: &Cpu, memory: &Memory, address: u16) -> bool
        requires { address ≡ at cpu.now.regs cpu.now.regs.p }
        ensures { IsTrue result ↔ stands self cpu.now.regs memory.now };
}

impl Stops for () {
    ghost stands = { λ none regs memory. ⊥ };

    #[inline(always)]
    fn has(self, _cpu: &Cpu, _memory: &Memory, _address: u16) -> bool {
        false
    }
}

impl Stops for u16 {
    ghost stands = { λ stop regs memory. at regs regs.p ≡ stop };

    #[inline(always)]
    fn has(self, _cpu: &Cpu, _memory: &Memory, address: u16) -> bool {
        address == self
    }
}

impl<A: Stops, B: Stops> Stops for (A, B) {
    ghost stands = { λ either regs memory. A.stands either.0 regs memory ⊎ B.stands either.1 regs memory };

    #[inline(always)]
    fn has(self, cpu: &Cpu, memory: &Memory, address: u16) -> bool {
        self.0.has(cpu, memory, address) || self.1.has(cpu, memory, address)
    }
}
