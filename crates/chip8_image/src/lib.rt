//! The CHIP-8 interpreter's ROM as bytes, for both editions, with the addresses of its labels, the map of its parts and its places in RAM.
//!
//! The ROM is here for the programs that run it, its labels and its map for the proofs and tests that speak of its code, and the places in RAM
//! where it keeps its state for those that look there. It stands on `chip8_lang` for the edition and for where the definitions have these places.
//! The two ROMs have the same labels and the same instructions at the same addresses; 24 operand bytes differ, each the value of a name in the
//! source's head. `image` has the bytes once, and both where they differ, and the labels; `.ci/image` writes it from the sources. The layer above may
//! rely on this: `AREAS` is the one place that says which addresses belong to which part, by the labels, and `part` looks an address up in it;
//! `Places::of` has what the definitions say of an edition. That the bytes are what the source assembles to is compared at each run; that each
//! part's bytes lie where the map says is proved in `rom_run`.
#![tactic(auto)]

ghost use Rattle.std.specs.Prelude.{◌≡◌};
ghost use Rattle.chip8_image.specs.Parts.{part_of};

pub mod image;
pub mod laws;
mod map;
mod parts;
mod places;

pub use image::{IMAGE, TALL};
pub use map::{AREAS, Area};
pub use parts::Part;
pub use places::{GAME, Places, RAM_END, RANDOM_CELL, STOP_CELL};

/// The label `fetch` of the usual edition. A dispatch point is the start of an instruction there with P = 4.
pub const FETCH: u16 = image::labels::AT_FETCH;

/// The label `halt` of the usual edition. A stop point is the start of an instruction there with P = 3.
pub const HALT: u16 = image::labels::AT_HALT;

/// The label `entry` of the usual edition, where the interrupt routine begins.
pub const ENTRY: u16 = image::labels::AT_ENTRY;

/// The label `fetch` of the tall edition.
pub const TALL_FETCH: u16 = FETCH;

/// The label `halt` of the tall edition.
pub const TALL_HALT: u16 = HALT;

/// The label `entry` of the tall edition.
pub const TALL_ENTRY: u16 = ENTRY;

/// The machine cycles of main code, DMA and interrupts not counted, from a dispatch point to the routine of its opcode: for every
/// opcode the same, and in both editions.
pub const DISPATCH: u32 = 80;

/// The part of the ROM in which an address lies, in both editions: that of its area in `AREAS`, and `Other` where it lies in none.
pub fn part(address: u16) -> Part
    ensures { result ≡ part_of address }
{
    for area in &AREAS {
        if area.holds(address) {
            return area.part;
        }
    }
    Part::Other
}
