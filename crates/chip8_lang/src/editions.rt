//! Where an edition has its game memory.

ghost use Rattle.std.specs.Prelude.{◌≡◌};
ghost use Rattle.chip8_lang.specs.Editions.{memory_end};
ghost use Rattle.chip8_lang.specs.State.{memory_size};

use crate::view::Edition;

/// The first address of game memory, in both editions.
pub const MEMORY_START: u16 = 0x0200;

impl Edition {
    /// The first address behind game memory.
    pub fn memory_end(self) -> u16
        ensures { result ≡ memory_end self }
    {
        match self {
            Edition::Usual => 0x0EA0,
            Edition::Tall => 0x0DA0,
        }
    }

    /// The bytes of game memory, which are the most of a game.
    pub fn memory_size(self) -> u16
        ensures { result ≡ memory_size self }
    {
        match self {
            Edition::Usual => Edition::Usual.memory_end() - MEMORY_START,
            Edition::Tall => Edition::Tall.memory_end() - MEMORY_START,
        }
    }
}
