//! The map of the ROM: which addresses belong to which part.

ghost use Rattle.std.specs.Prelude.{◌≡◌};
ghost use Rattle.chip8_image.specs.Parts.{holds};

use crate::image::labels::{
    AT_ARITH, AT_BOOT, AT_CHECK, AT_CLEAR, AT_CLEARED, AT_DELAY_NONE, AT_DRAW, AT_DRAW_OUTSIDE,
    AT_FONT, AT_GET_DELAY, AT_HALT, AT_INDEX, AT_KEY_SKIP, AT_KEY_YES, AT_LEAVE81, AT_LEAVE82,
    AT_LEAVE83, AT_LEAVE84, AT_MISC, AT_NOWHERE, AT_OUTSIDE, AT_RANDOM, AT_READ_OUTSIDE, AT_RESUME,
    AT_STOP, AT_SYSTEM, AT_TABLE, AT_WAIT_KEY,
};
use crate::parts::Part;

/// A stretch of the ROM from its first to its last address, both of them in it, and the part that it belongs to.
#[derive(Clone, Copy)]
pub struct Area {
    /// the address of its first byte
    pub first: u16,
    /// the address of its last byte
    pub last: u16,
    /// its part
    pub part: Part,
}

impl Area {
    /// Whether an address lies in it.
    pub fn holds(&self, address: u16) -> bool
        ensures { result ≡ holds address self.now }
    {
        self.first <= address && address <= self.last
    }
}

/// The stretches of the ROM in the order of their addresses, for both editions. The bytes between them are 00, and nothing reads them.
#[rattlefmt::skip]
pub const AREAS: [Area; 22] = [
    Area { first: AT_BOOT, last: AT_OUTSIDE - 1, part: Part::Fetch },           // boot
    Area { first: AT_OUTSIDE, last: AT_TABLE - 1, part: Part::Fetch },          // fetch and dispatch
    Area { first: AT_TABLE, last: AT_TABLE + 31, part: Part::Other },           // the dispatch table
    Area { first: AT_STOP, last: AT_HALT - 1, part: Part::Fetch },              // the stops
    Area { first: AT_HALT, last: AT_HALT + 1, part: Part::Fetch },              // where a stopped interpreter stays
    Area { first: AT_SYSTEM, last: AT_CLEAR - 1, part: Part::Arith },           // 0MMM, 00EE, jumps and calls, loads and skips
    Area { first: AT_CLEAR, last: AT_CLEARED, part: Part::Sprite },             // 00E0
    Area { first: AT_LEAVE81, last: AT_LEAVE81 + 3, part: Part::Fetch },        // the way of page 81 to the stops
    Area { first: AT_ARITH, last: AT_RANDOM - 1, part: Part::Arith },           // 8XYN
    Area { first: AT_RANDOM, last: AT_KEY_SKIP - 1, part: Part::Timer },        // CXKK
    Area { first: AT_KEY_SKIP, last: AT_KEY_YES + 2, part: Part::Keys },        // EX9E and EXA1
    Area { first: AT_LEAVE82, last: AT_LEAVE82 + 3, part: Part::Fetch },        // the way of page 82 to the stops
    Area { first: AT_MISC, last: AT_GET_DELAY - 1, part: Part::Fetch },         // FXKK: which of them
    Area { first: AT_GET_DELAY, last: AT_WAIT_KEY - 1, part: Part::Timer },     // FX07, FX15 and FX18
    Area { first: AT_WAIT_KEY, last: AT_INDEX - 1, part: Part::Keys },          // FX0A
    Area { first: AT_INDEX, last: AT_READ_OUTSIDE + 3, part: Part::Memory },    // AMMM, FX1E, FX29, FX33, FX55 and FX65
    Area { first: AT_LEAVE83, last: AT_LEAVE83 + 3, part: Part::Fetch },        // the way of page 83 to the stops
    Area { first: AT_DRAW, last: AT_DRAW_OUTSIDE + 3, part: Part::Sprite },     // DXYN
    Area { first: AT_LEAVE84, last: AT_LEAVE84 + 3, part: Part::Fetch },        // the way of page 84 to the stops
    Area { first: AT_CHECK, last: AT_NOWHERE + 2, part: Part::Memory },         // the range check
    Area { first: AT_RESUME, last: AT_DELAY_NONE + 4, part: Part::Timer },      // the interrupt routine
    Area { first: AT_FONT, last: AT_FONT + 79, part: Part::Other },             // the font
];
