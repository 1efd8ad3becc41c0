//! How a board begins: its ROM and RAM, its key script, and the state of its processor where it isn't begun by reset.

ghost use Rattle.std.specs.Prelude.{◌≡◌, IfOk};

use crate::keys::script_of;
use crate::processor::vector::State;
use std::alloc::Global;
use vip_board::Board;
use vip_cpu::Phase;
use vip_keypad::ScriptFault;

/// The key that is latched on a board that isn't begun by reset.
pub const KEY: u8 = 5;

#[derive(Clone, Copy)]
pub struct Setup<'a> {
    pub rom: [u8; 0x800],
    /// RAM of a board that isn't begun by reset.
    pub ram: [u8; 0x1000],
    /// The key script's line, if there is one.
    pub keys: &'a str,
    /// The processor's state, but that interrupts are enabled, and the cycle, where the board isn't begun by reset.
    pub start: Option<(State, u64)>,
}

impl Setup<'_> {
    ghost use Rattle.std.specs.Prelude.{IfOk};

    /// A board at reset with 00 in every byte and no key script.
    pub fn empty() -> Setup<'static> {
        Setup {
            rom: [0; 0x800],
            ram: [0; 0x1000],
            keys: "",
            start: None,
        }
    }

    pub fn board(&self, alloc: Global) -> Result<Board, ScriptFault>
        ensures { IfOk result (λ board. board.phase ≡ Phase.Boundary) }
    {
        let script = script_of(alloc, self.keys)?;
        let board = match &self.start {
            None => Board::reset(alloc, &self.rom, &script),
            Some((state, t)) => {
                Board::restore(
                    alloc,
                    &self.rom,
                    &script,
                    &state.parts(),
                    &self.ram,
                    KEY,
                    *t,
                )
            }
        };
        Ok(board?)
    }
}
