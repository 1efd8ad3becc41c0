//! Runs the CDP1802 of `vip_cpu` through single instructions, interrupts and DMA cycles whose outcome was measured elsewhere.
//!
//! The vectors in `data/processor.txt` were measured on MAME 0.251, driver vip, core cdp1802; the head of that file says what its
//! fields are, and which weren't measured. There are vectors of all opcodes, and of interrupts, DMA cycles and idling. For each of them a processor is brought
//! into the state before, over a plain memory, and makes one instruction, and then the moves that the signals of the vector want. Its
//! registers, its calls on the bus and its machine cycles must be those of the vector. The vectors that were measured with the display
//! on run on a whole board of `vip_board` too, whose video chip gives the signals. Then come the rows of a memory, the small ROMs of
//! `data/boards.txt` on a whole board, whose outcome was worked out by hand, and two boards that are joined by port 3 under many schedules, and with
//! the wrong ROMs of `data/links.txt`.
//!
//! It is a test of the definitions of `machine`, which no proof can judge.

mod fields;
mod memory_rows;
mod on_board;
mod preamble;
mod schedules;
mod setup;
mod small_rom;
mod steps;
mod test_bus;
mod vector;
mod wrong_links;

use crate::counts::Counts;
use crate::processor::preamble::Preamble;
use crate::processor::test_bus::TestBus;
use crate::processor::vector::{State, Vector};
use std::alloc::Global;
pub use steps::write_steps;
use vip_cpu::{Cpu, Did};
pub use wrong_links::run_wrong_links;

/// Runs a processor up to its next boundary. Answers the machine cycles, or 0 where they are more than 3.
///
/// The flags are turned round in the first cycle, in which none is looked at, and both signals come in the others, at no boundary.
fn run_instruction(cpu: &mut Cpu, bus: &mut TestBus) -> u16 {
    bus.turn_flags();
    let _ = cpu.cycle(bus, false, false);
    bus.turn_flags();
    for cycles in 2..4u16 {
        let _ = cpu.cycle(bus, true, true);
        if cpu.at_boundary() {
            return cycles;
        }
    }
    0
}

/// Makes so many idle cycles and then the moves that a vector's signals want. False where a cycle is of another kind. INT is active in
/// the DMA cycles too, which come before an interrupt.
fn makes_moves(cpu: &mut Cpu, bus: &mut TestBus, vector: &Vector, idle: u16) -> bool {
    for _ in 0..idle {
        if cpu.cycle(bus, false, vector.signals.ignores_int) != Did::Idle {
            return false;
        }
    }
    if vector.signals.takes_int && cpu.cycle(bus, false, true) != Did::Interrupt {
        return false;
    }
    for _ in 0..vector.signals.dma_cycles {
        let Did::Dma(_) = cpu.cycle(bus, true, true) else {
            return false;
        };
    }
    true
}

/// A processor that was brought into the state before a vector, by instructions that the vector's memory has no part of.
fn processor_before(vector: &Vector, bus: &mut TestBus) -> Cpu {
    let preamble = Preamble::of(&vector.before, 0);
    let mut cpu = Cpu::from_parts(&preamble.state().parts());
    bus.lay(preamble.address(), preamble.bytes());
    for _cycle in 0..preamble.cycles() {
        let _ = cpu.cycle(bus, false, false);
    }
    cpu
}

fn passes(vector: &Vector, bus: &mut TestBus) -> bool {
    let mut cpu = processor_before(vector, bus);
    bus.prepare(vector);
    if State::of(&cpu) != vector.before {
        return false;
    }
    let mut cycles = vector.signals.cycles();
    if vector.kind.has_instruction {
        cycles = cycles.saturating_add(run_instruction(&mut cpu, bus));
    }
    cycles <= vector.cycles
        && makes_moves(&mut cpu, bus, vector, vector.cycles - cycles)
        && State::of(&cpu) == vector.after
        && bus.calls() == vector.calls.as_slice()
        && (!vector.signals.ignores_int || cpu.cycle(bus, false, true) == Did::Fetch)
}

/// The vectors that passed and failed, and those of them that ran on the board.
#[derive(Clone, Copy)]
struct Tried<'a> {
    alone: Counts<'a>,
    on_board: Counts<'a>,
    /// How many of these no board can be brought to.
    passed_over: u32,
}

impl<'a> Tried<'a> {
    /// Runs the vector of a line. A line that is none fails.
    fn add(&mut self, alloc: Global, bus: &mut TestBus, line: &'a str) {
        let Some(vector) = Vector::read(line) else {
            return self.alone.add(false, line);
        };
        self.alone.add(passes(&vector, bus), line);
        if vector.kind.has_display {
            match on_board::passes(alloc, &vector) {
                Some(passes) => self.on_board.add(passes, line),
                None => self.passed_over = self.passed_over.saturating_add(1),
            }
        }
    }
}

/// Runs the vectors of a text.
fn try_vectors<'a>(alloc: Global, bus: &mut TestBus, text: &'a str) -> Tried<'a> {
    let mut tried = Tried {
        alone: Counts::NONE,
        on_board: Counts::NONE,
        passed_over: 0,
    };
    for line in text.lines() {
        if !line.starts_with('#') {
            tried.add(alloc, bus, line);
        }
    }
    tried
}

/// Runs the small ROMs of a text.
fn try_small_roms(alloc: Global, text: &str) -> Counts<'_> {
    let mut counts = Counts::NONE;
    for rom in text.split("\nboard ").skip(1) {
        let (name, lines) = rom.split_once('\n').unwrap_or((rom, ""));
        counts.add(small_rom::passes(alloc, lines), name);
    }
    counts
}

/// Runs the vectors and the small ROMs of two texts and joined boards, and writes how many passed.
pub fn run(rt: &HostRuntime, vectors: &str, boards: &str) -> anyhow::Result<()> {
    let tried = try_vectors(rt.alloc(), &mut TestBus::new(rt.alloc())?, vectors);
    for (what, counts) in [
        ("vectors", tried.alone),
        ("of them on the board", tried.on_board),
        ("rows of a memory", memory_rows::rows(rt.alloc())),
        (
            "small ROMs on the board",
            try_small_roms(rt.alloc(), boards),
        ),
        ("rows of two boards", schedules::rows(rt.alloc())),
        (
            "schedules of 16 moves around hand-overs",
            schedules::around_each_hand_over(rt.alloc()),
        ),
        ("random schedules", schedules::at_random(rt.alloc())),
    ] {
        counts.write(rt, what)?;
    }
    println!(rt; "{} vectors passed over on the board", tried.passed_over)?;
    Ok(())
}
