//! The processor by machine cycles.

ghost use Rattle.std.specs.Prelude.{◌≡◌, ◌<◌, ◌↔◌, ℕ, IsTrue};
ghost use Rattle.machine.specs.Bank.{get, word_of};
ghost use Rattle.machine.specs.Instruction.{at, stepped, regs_after_reset};
ghost use Rattle.machine.specs.Ranges.{FitsRegs};
ghost use Rattle.vip_cpu.specs.Acts.{Acts};
ghost use Rattle.machine.specs.Bit.{bit};
ghost use Rattle.vip_cpu.specs.Parts.{regs_of};

use crate::bus::Bus;
use crate::execute::execute;
use crate::registers::{Parts, Registers};
use std::marker::Model;
use vip_isa::{cycles, decode};

/// Where a processor stands between two machine cycles.
#[derive(Clone, Copy)]
pub enum Phase {
    /// Where a move starts.
    Boundary,
    /// In an instruction: its opcode, and the machine cycles left, 1 or 2.
    Middle(u8, u8),
}

/// What a move is that starts: a DMA cycle, an interrupt, an idle cycle, or an instruction, whose fetch comes first (data sheet, "State Codes":
/// S2, S3, S1 and S0).
#[derive(Clone, Copy, PartialEq, Eq)]
pub enum Next {
    Dma,
    Interrupt,
    Idle,
    Fetch,
}

/// What kind of machine cycle was made.
#[derive(Clone, Copy, PartialEq, Eq)]
pub enum Did {
    /// An opcode was fetched.
    Fetch,
    /// A cycle of an instruction after its fetch.
    Execute,
    /// A DMA cycle, with the byte that it put on the bus.
    Dma(u8),
    /// An interrupt was taken.
    Interrupt,
    /// The processor idled.
    Idle,
}

/// A CDP1802.
#[derive(Drop)]
pub struct Cpu {
    registers: Registers,
    phase: Phase,
}

impl Model for Cpu {
    ghost use Rattle.vip_cpu.specs.Cycle.{Processor, HasCyclesLeft};

    ghost Value = { Processor };

    ghost view = { λ a. record { regs = a.registers; phase = a.phase } };

    ghost invariant = { λ a. HasCyclesLeft a.phase };
}

impl Cpu {
    ghost use Rattle.vip_cpu.specs.Cycle.{after, next_of, begun, ended, cycle};

    /// A processor after reset, at a boundary: Q = 0, IE = 1, and all other registers are 0.
    pub fn reset() -> Cpu
        ensures { result ≡ record { regs = regs_after_reset; phase = Phase.Boundary } }
    {
        Cpu {
            registers: Registers::reset(),
            phase: Phase::Boundary,
        }
    }

    /// A processor with these parts, at a boundary, with interrupts enabled; it doesn't idle. X and P are below 16.
    pub fn from_parts(parts: &Parts) -> Cpu
        requires p { parts.now.p < 16 }
        requires x { parts.now.x < 16 }
        ensures processor { result ≡ record { regs = regs_of parts.now; phase = Phase.Boundary } }
        ensures fits { FitsRegs result.regs }
    {
        Cpu {
            registers: Registers::of(parts),
            phase: Phase::Boundary,
        }
    }

    /// Enables interrupts or disables them, and lets the processor idle or not.
    pub fn switch(&mut self, interrupts: bool, idle: bool)
        ensures { self.new ≡ record self.old { regs = record self.old.regs { ie = interrupts; idle = idle } } }
    {
        self.registers.switch(interrupts, idle);
    }

    /// One machine cycle. `dma` says whether DMA out is wanted in it, and `int` whether INT is active; both are looked at only at a
    /// boundary. Answers what kind of cycle it was.
    #[inline(always)]
    pub fn cycle<B: Bus>(&mut self, bus: &mut B, dma: bool, int: bool) -> Did
        ensures { (taken : ℕ) × (let c = cycle self.old (B.byte bus.old) (B.flags bus.old) dma int taken in (self.new ≡ after c) × (result ≡ c.did) × Acts B.writes B.sends B.receives c.effect taken bus.old bus.new) }
    {
        match self.phase {
            Phase::Boundary => self.begin(bus, dma, int),
            Phase::Middle(opcode, 1) => {
                self.end(bus, opcode);
                Did::Execute
            }
            Phase::Middle(opcode, left) => {
                self.phase = Phase::Middle(opcode, left - 1);
                Did::Execute
            }
        }
    }

    /// What the move is that starts in a cycle. `dma` says whether DMA out is wanted in it, and `int` whether INT is active.
    #[inline(always)]
    pub fn next(&self, dma: bool, int: bool) -> Next
        ensures { result ≡ next_of self.now.regs dma int }
    {
        if dma {
            Next::Dma
        } else if self.registers.ie() && int {
            Next::Interrupt
        } else if self.registers.idle() {
            Next::Idle
        } else {
            Next::Fetch
        }
    }

    /// The first cycle of a move, as `cycle` makes it.
    #[inline(always)]
    pub fn begin<B: Bus>(&mut self, bus: &B, dma: bool, int: bool) -> Did
        requires { self.old.phase ≡ Phase.Boundary }
        ensures processor { self.new ≡ after (begun self.old.regs (B.byte bus.now) dma int) }
        ensures did { result ≡ (begun self.old.regs (B.byte bus.now) dma int).did }
    {
        match self.next(dma, int) {
            Next::Dma => {
                let byte = bus.read(self.registers.r(0));
                self.registers.dma();
                Did::Dma(byte)
            }
            Next::Interrupt => {
                self.registers.interrupt();
                Did::Interrupt
            }
            Next::Idle => Did::Idle,
            Next::Fetch => {
                let opcode = bus.read(self.registers.program_counter());
                self.registers.increment(self.registers.p());
                self.phase = Phase::Middle(opcode, cycles(opcode) - 1);
                Did::Fetch
            }
        }
    }

    /// A whole instruction, at a boundary, on a bus that stands as in its last cycle. `opcode` is the byte that R(P) points to.
    #[inline(always)]
    pub fn instruct<B: Bus>(&mut self, bus: &mut B, opcode: u8)
        requires { self.old.phase ≡ Phase.Boundary }
        ensures { (taken : ℕ) × (let c = ended opcode (stepped self.old.regs self.old.regs.p) (B.byte bus.old) (B.flags bus.old) taken in (self.new ≡ after c) × Acts B.writes B.sends B.receives c.effect taken bus.old bus.new) }
    {
        self.registers.increment(self.registers.p());
        execute(&mut self.registers, bus, decode(opcode));
    }

    /// The last cycle of an instruction. Answers the byte that INP took from the bus, and 0 for all other instructions.
    #[inline(never)]
    fn end<B: Bus>(&mut self, bus: &mut B, opcode: u8) -> u8
        ensures processor { self.new ≡ after (ended opcode self.old.regs (B.byte bus.old) (B.flags bus.old) result) }
        ensures acts { let c = ended opcode self.old.regs (B.byte bus.old) (B.flags bus.old) result in Acts B.writes B.sends B.receives c.effect result bus.old bus.new }
    {
        let taken = execute(&mut self.registers, bus, decode(opcode));
        self.phase = Phase::Boundary;
        taken
    }

    /// Whether a move starts in the next cycle.
    pub fn at_boundary(&self) -> bool
        ensures { IsTrue result ↔ (self.now.phase ≡ Phase.Boundary) }
    {
        match self.phase {
            Phase::Boundary => true,
            Phase::Middle(..) => false,
        }
    }

    /// R(n), for n below 16.
    pub fn r(&self, n: u8) -> u16
        requires { n < 16 }
        ensures number { result ≡ at self.now.regs n }
        ensures word { get self.now.regs.r n ≡ word_of result }
    {
        self.registers.r(n)
    }

    /// The accumulator D.
    pub fn d(&self) -> u8
        ensures { result ≡ self.now.regs.d }
    {
        self.registers.d()
    }

    /// T: X in the high half and P in the low one, as they were before the last interrupt or MARK.
    pub fn t(&self) -> u8
        ensures { result ≡ self.now.regs.t }
    {
        self.registers.t()
    }

    /// The number P of the program counter, below 16.
    pub fn p(&self) -> u8
        ensures value { result ≡ self.now.regs.p }
        ensures below { result < 16 }
    {
        self.registers.p()
    }

    /// The number X of the data pointer, below 16.
    pub fn x(&self) -> u8
        ensures value { result ≡ self.now.regs.x }
        ensures below { result < 16 }
    {
        self.registers.x()
    }

    /// DF, the carry of D: after a difference, whether there was no borrow.
    pub fn df(&self) -> bool
        ensures { bit result ≡ self.now.regs.df }
    {
        self.registers.df()
    }

    /// The output flip-flop Q.
    pub fn q(&self) -> bool
        ensures { result ≡ self.now.regs.q }
    {
        self.registers.q()
    }

    /// IE: whether an interrupt may be taken.
    pub fn ie(&self) -> bool
        ensures { result ≡ self.now.regs.ie }
    {
        self.registers.ie()
    }

    /// Whether the processor idles: from IDL on up to the next DMA or interrupt cycle.
    pub fn idle(&self) -> bool
        ensures { result ≡ self.now.regs.idle }
    {
        self.registers.idle()
    }
}
