//! The vectors that were measured with the display on, on a whole board.
//!
//! A vector names the interrupt and DMA cycles that came, and not the machine cycle in which it began. It is given one at which the
//! video chip asks for these cycles then and for no other. The instructions that bring the board into the state before it lie in the cycles
//! right before that one, and begin where the chip requests neither DMA nor an interrupt.

ghost use Rattle.std.specs.Prelude.{◌≡◌};

use crate::processor::preamble::Preamble;
use crate::processor::setup::{KEY, Setup};
use crate::processor::vector::{State, Vector, word};
use std::alloc::Global;
use vip_board::{Board, Move, Moved};
use vip_cpu::Phase;

/// The machine cycles of a raster line, and of a frame.
const LINE: u64 = 14;

const FRAME: u64 = 262 * LINE;

/// The cycles of a frame from which on INT is active, and from which on it isn't any more.
const INTERRUPT: u64 = 78 * LINE;

const INTERRUPT_END: u64 = 80 * LINE;

/// The key script where EF3 is active: it holds the latched key down.
const DOWN: &str = "0 down 5";

/// The cycle after a vector's last one. It lies in the second frame, so that the processor may idle for a while before it.
fn end_of(vector: &Vector) -> u64 {
    let place = if vector.signals.dma_cycles > 0 {
        // the end of a line's DMA cycles, and of the first ones where the vector is longer than a line
        let line = if u64::from(vector.cycles) > LINE {
            80
        } else {
            81
        };
        line * LINE + 10
    } else if vector.signals.takes_int {
        INTERRUPT + 1
    } else if vector.signals.ignores_int {
        INTERRUPT
    } else if vector.flags[0] {
        76 * LINE + 2
    } else {
        2
    };
    FRAME + place
}

/// Bytes of memory from an address on, as a vector has them.
fn fill(bytes: &mut [u8], from: u16, vector: &Vector) {
    for &[high, low, byte] in vector.memory.as_slice().iter() {
        let place = word(high, low).wrapping_sub(from) as usize;
        if place < bytes.len() {
            bytes[place] = byte;
        }
    }
}

/// Lays the instructions before a vector into RAM.
fn lay(ram: &mut [u8], preamble: &Preamble) {
    let mut place = preamble.address();
    for byte in preamble.bytes().iter() {
        let at = place as usize;
        if at < ram.len() {
            ram[at] = *byte;
        }
        place = place.wrapping_add(1);
    }
}

/// The instructions before a vector that begins in a cycle. The first one, at which interrupts are still enabled, begins where INT isn't
/// active.
fn preamble_of(vector: &Vector, t: u64) -> Preamble {
    let place = t.saturating_sub(2) % FRAME;
    let fillers = if place >= INTERRUPT && place < INTERRUPT_END {
        (place - INTERRUPT) / 2 + 1
    } else {
        0
    };
    Preamble::of(&vector.before, fillers as usize)
}

/// Memory and keys as a vector has them, and the processor before the instructions that bring the board into the state before it.
fn setup_before(vector: &Vector, preamble: &Preamble, t: u64) -> Setup<'static> {
    let mut setup = Setup::empty();
    fill(&mut setup.ram, 0, vector);
    fill(&mut setup.rom, 0x8000, vector);
    if vector.flags[2] {
        setup.keys = DOWN;
    }
    let start = t.saturating_sub(u64::from(preamble.cycles()));
    setup.start = Some((preamble.state(), start));
    setup
}

/// Brings a board into the state before a vector, with RAM as the vector has it.
fn bring(board: &mut Board, preamble: &Preamble, ram: &[u8; 0x1000])
    requires { board.old.phase ≡ Phase.Boundary }
    ensures { board.new.phase ≡ Phase.Boundary }
{
    for _move in 0..preamble.count() {
        let _ = board.to_boundary(u64::MAX);
    }
    board.load(0, ram);
}

/// Makes so many moves. False where one is of another kind.
fn makes(board: &mut Board, want: Move, count: u16) -> bool
    requires { board.old.phase ≡ Phase.Boundary }
    ensures { board.new.phase ≡ Phase.Boundary }
{
    for _move in 0..count {
        if board.to_boundary(u64::MAX) != Moved::Done(want) {
            return false;
        }
    }
    true
}

/// RAM, ROM, the boot latch, the display switch and the latched key are as before the vector.
fn is_kept(board: &Board, vector: &Vector) -> bool {
    for &[high, low, byte] in vector.memory.as_slice().iter() {
        if board.memory().read(word(high, low)) != byte {
            return false;
        }
    }
    !board.memory().latch_set() && board.video().is_on() && board.keypad().latched() == KEY
}

/// Makes the moves that a vector's signals want, behind so many idle cycles. False where one is of another kind.
fn makes_signalled(board: &mut Board, vector: &Vector, idle: u16) -> bool
    requires { board.old.phase ≡ Phase.Boundary }
    ensures { board.new.phase ≡ Phase.Boundary }
{
    makes(board, Move::Idle, idle)
        && makes(board, Move::Interrupt, vector.signals.takes_int as u16)
        && makes(board, Move::Dma, vector.signals.dma_cycles)
}

/// Whether a board is as a vector says, at a boundary at this cycle.
fn is_due(board: &Board, vector: &Vector, end: u64) -> bool
    requires { board.now.phase ≡ Phase.Boundary }
{
    board.now() == end
        && board.next_is_instruction()
        && State::of(board.cpu()) == vector.after
        && vector.calls.as_slice().is_empty()
        && is_kept(board, vector)
}

/// Whether the moves of a board that begin at a cycle are those of a vector, and leave what the vector says.
fn follows(board: &mut Board, vector: &Vector, t: u64, end: u64) -> bool
    requires { board.old.phase ≡ Phase.Boundary }
{
    if board.now() != t || State::of(board.cpu()) != vector.before {
        return false;
    }
    let first = Move::Instruction(vector.before.counter());
    let begins = makes(board, first, vector.kind.has_instruction as u16);
    let signalled = vector.signals.cycles();
    let idle = end
        .saturating_sub(board.now())
        .saturating_sub(u64::from(signalled));
    begins
        && idle < 65536
        && makes_signalled(board, vector, idle as u16)
        && is_due(board, vector, end)
}

/// Whether a board does what a vector says. None where nothing in memory can bring it into the state before: IE is 0, and R(P) leaves no room for a DIS.
pub fn passes(alloc: Global, vector: &Vector) -> Option<bool> {
    let end = end_of(vector);
    let t = end.saturating_sub(u64::from(vector.cycles));
    let preamble = preamble_of(vector, t);
    if !preamble.is_in_memory() {
        return None;
    }
    let mut setup = setup_before(vector, &preamble, t);
    let ram = setup.ram;
    lay(&mut setup.ram, &preamble);
    let Ok(mut board) = setup.board(alloc) else {
        return Some(false);
    };
    bring(&mut board, &preamble, &ram);
    Some(follows(&mut board, vector, t, end))
}
