//! The instructions that a command looks for by an address.

ghost use Rattle.std.specs.Prelude.{◌≡◌, true};
ghost use Rattle.machine.specs.Instruction.{at};
ghost use Rattle.vip_debug.specs.Commands.{is_at};

use asm_core::read_place;
use vip_board::Stops;
use vip_cpu::Cpu;
use vip_memory::Memory;

/// The instruction at an address, and the one that is read from it through the boot latch.
#[derive(Clone, Copy)]
pub struct Sought {
    pub address: u16,
}

impl Stops for Sought {
    ghost stands = { λ sought regs memory. is_at sought.address memory.latch (at regs regs.p) ≡ true };

    #[inline(always)]
    fn has(self, _cpu: &Cpu, memory: &Memory, address: u16) -> bool {
        address == self.address || read_place(memory.latch_set(), address) == self.address
    }
}
