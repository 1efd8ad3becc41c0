//! Where the interpreter of each edition keeps its state (`docs/MACHINE.md`, "Places").

ghost use Rattle.std.specs.Prelude.{◌≡◌, ◌<◌, ◌≤◌, ◌+◌, ◌*◌};
ghost use Rattle.chip8_lang.specs.Editions.{memory_end, screen_start, stack_top, variables};
ghost use Rattle.chip8_image.specs.Interpreters.{interpreter_of};

use crate::image::{IMAGE, TALL};
use crate::{FETCH, HALT, TALL_FETCH, TALL_HALT};
use chip8_lang::{Edition, MEMORY_START};

/// The first address of game memory, in both editions.
pub const GAME: u16 = MEMORY_START;

/// The cell of a stop's number, in both editions.
pub const STOP_CELL: u16 = 0x01F0;

/// The cell of the random byte, in both editions.
pub const RANDOM_CELL: u16 = 0x01F1;

/// The page behind RAM, where the screen ends.
pub const RAM_END: u8 = 0x10;

/// The ROM of an edition, its labels, and its places in RAM.
#[derive(Clone, Copy)]
pub struct Places {
    pub rom: &'static [u8; 0x800],
    pub fetch: u16,
    pub halt: u16,
    /// The first address behind game memory.
    pub memory_end: u16,
    /// The low byte of the oldest address on the stack.
    pub stack_top: u16,
    /// The page whose last 16 bytes are V0 to VF.
    pub variables: u8,
    /// The page of the screen's first byte.
    pub screen: u8,
}

impl Places {
    /// The places of an edition.
    pub fn of(edition: Edition) -> Places
        ensures rom { result.rom.now ≡ (interpreter_of edition).rom }
        ensures fetch { result.fetch ≡ (interpreter_of edition).fetch }
        ensures halt { result.halt ≡ (interpreter_of edition).halt }
        ensures memory_end { result.memory_end ≡ memory_end edition }
        ensures stack_top { result.stack_top ≡ stack_top edition }
        ensures variables { result.variables * 256 + 0xF0 ≡ variables edition }
        ensures screen { result.screen * 256 ≡ screen_start edition }
        ensures memory { (0x0DA0 ≤ result.memory_end) × (result.memory_end ≤ 0x0EA0) }
        ensures stack { (0x0DCF ≤ result.stack_top) × (result.stack_top ≤ 0x0ECF) }
        ensures pages { (result.variables < 0x10) × (0x0E ≤ result.screen) × (result.screen ≤ 0x0F) }
    {
        match edition {
            Edition::Usual => Places {
                rom: &IMAGE,
                fetch: FETCH,
                halt: HALT,
                memory_end: edition.memory_end(),
                stack_top: 0x0ECF,
                variables: 0x0E,
                screen: 0x0F,
            },
            Edition::Tall => Places {
                rom: &TALL,
                fetch: TALL_FETCH,
                halt: TALL_HALT,
                memory_end: edition.memory_end(),
                stack_top: 0x0DCF,
                variables: 0x0D,
                screen: 0x0E,
            },
        }
    }
}
