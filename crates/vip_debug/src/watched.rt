//! The bytes that a command watches, and the instructions that may change one.

ghost use Rattle.std.specs.Prelude.{◌≡◌, ◌<◌, true};
ghost use Rattle.machine.specs.Instruction.{at, stepped};
ghost use Rattle.vip_board.specs.Seen.{contents_of};
ghost use Rattle.vip_debug.specs.Watching.{holds, reaches, may_change};

use machine::Kind;
use vip_board::{Board, Stops};
use vip_byte::add16;
use vip_cpu::Cpu;
use vip_isa::decode;
use vip_memory::Memory;

/// R(n) behind the fetch of an instruction, which moves the program counter on.
#[inline(always)]
fn behind_fetch(cpu: &Cpu, n: u8) -> u16
    requires { n < 16 }
    ensures { result ≡ at (stepped cpu.now.regs cpu.now.regs.p) n }
{
    let pointer = cpu.r(n);
    if n == cpu.p() {
        add16(pointer, 1)
    } else {
        pointer
    }
}

/// So many bytes from an address on.
#[derive(Clone, Copy)]
pub struct Watched {
    pub address: u16,
    pub count: u32,
}

impl Watched {
    /// Whether the byte at an address is one of them.
    #[inline(always)]
    fn holds(self, address: u16) -> bool
        ensures { result ≡ holds self address }
    {
        self.address <= address && u32::from(address - self.address) < self.count
    }

    /// Whether R(n) points to one of them behind the fetch.
    #[inline(always)]
    fn reaches(self, cpu: &Cpu, n: u8) -> bool
        requires { n < 16 }
        ensures { result ≡ reaches self cpu.now.regs n }
    {
        self.holds(behind_fetch(cpu, n))
    }

    /// Whether the instruction that comes next on a board may change one of them.
    pub fn may_change_next(self, board: &Board) -> bool
        ensures { result ≡ may_change self board.now.machine.regs (contents_of board.now) }
    {
        let cpu = board.cpu();
        self.has(cpu, board.memory(), cpu.r(cpu.p()))
    }
}

/// The instructions that may change one of them: those that write to one, and the one that clears the boot latch while it is set.
impl Stops for Watched {
    ghost stands = { λ watched regs memory. may_change watched regs memory ≡ true };

    #[inline(always)]
    fn has(self, cpu: &Cpu, memory: &Memory, address: u16) -> bool {
        let op = decode(memory.read(address));
        match op.kind {
            Kind::Str => self.reaches(cpu, op.n),
            Kind::Inp | Kind::Stxd | Kind::Sav => self.reaches(cpu, cpu.x()),
            Kind::Mark => self.reaches(cpu, 2),
            Kind::Out => op.n == 4 && memory.latch_set(),
            _ => false,
        }
    }
}
