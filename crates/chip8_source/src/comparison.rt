//! The walk over all addresses.

ghost use Rattle.std.specs.Prelude.{◌≡◌, ◌≤◌, length, MatchOption};
ghost use Rattle.asm_core.specs.Limits.{most_bytes};
ghost use Rattle.asm_core.specs.Sources.{source_lines};
ghost use Rattle.chip8_source.specs.Texts.{usual_text, tall_text};
ghost use Rattle.chip8_source.specs.Compared.{rom_bytes, Differs, AgreesBelow, Compares};
ghost use Rattle.asm_core.specs.Made.{made_byte};
ghost use Rattle.chip8_source.specs.Faults.{IsDifferenceAt, IsFirstDifference};

use crate::fault::ImageFault;
use crate::text::{source, tall_source};
use asm_core::{Assembly, assemble};
use asm_lex::Isa;
use chip8_image::{IMAGE, TALL};
use std::alloc::Global;

/// The first address of the ROM.
const ROM_START: u16 = 0x8000;

// The byte of a ROM at an address.
fn rom_byte(image: &[u8; 2048], address: u16) -> Option<u8>
    ensures { result ≡ rom_bytes image.now address }
{
    if address < ROM_START {
        None
    } else {
        image.get(usize::from(address - ROM_START)).copied()
    }
}

// The fault of an address, if its bytes differ.
fn difference_at(made: &Assembly, image: &[u8; 2048], address: u16) -> Option<ImageFault>
    ensures { MatchOption result
        (Differs (made_byte made.now) image.now address → ⊥)
        (IsDifferenceAt (made_byte made.now) image.now address) }
{
    let given = made.byte(address);
    let held = rom_byte(image, address);
    if given.is_none() && held.is_none() {
        return None;
    }
    let assembled = given.unwrap_or(0x00);
    let held = held.unwrap_or(0xFF);
    if assembled == held {
        None
    } else {
        Some(ImageFault::RomDiffers {
            address,
            assembled,
            image: held,
        })
    }
}

// The fault of the least address whose bytes differ.
fn first_difference(made: &Assembly, image: &[u8; 2048]) -> Option<ImageFault>
    ensures { MatchOption result (AgreesBelow 65536 (made_byte made.now) image.now) (IsFirstDifference (made_byte made.now) image.now) }
{
    for address in 0..=u16::MAX {
        if let Some(fault) = difference_at(made, image, address) {
            return Some(fault);
        }
    }
    None
}

/// Compares what a source of at most `asm_core::MOST_BYTES` bytes assembles to with the bytes of a ROM at 8000 to 87FF.
///
/// The addresses compared are those of the ROM and each address to which the source gives a byte. An address of the ROM without a byte
/// counts as 00 in the source, an address outside the ROM counts as FF in the image. An answer leaves nothing behind.
///
/// # Errors
///
/// `BadRomSource` is the first fault of the source. `RomDiffers` is the least address that differs, where the source assembles.
pub fn compare(alloc: Global, text: &[u8], image: &[u8; 2048]) -> Result<(), ImageFault>
    requires { length text.now ≤ most_bytes }
    ensures { Compares (source_lines text.now) image.now result }
{
    let made = assemble(alloc, Isa::Cdp1802, text)?;
    match first_difference(&made, image) {
        Some(fault) => Err(fault),
        None => Ok(()),
    }
}

/// Compares the usual edition's source with its image.
///
/// # Errors
///
/// Those of `compare`.
pub fn check_image(alloc: Global) -> Result<(), ImageFault>
    ensures { Compares (source_lines usual_text) IMAGE result }
{
    let text = source(alloc)?;
    compare(alloc, &text, &IMAGE)
}

/// Compares the tall edition's source with its image.
///
/// # Errors
///
/// Those of `compare`.
pub fn check_tall(alloc: Global) -> Result<(), ImageFault>
    ensures { Compares (source_lines tall_text) TALL result }
{
    let text = tall_source(alloc)?;
    compare(alloc, &text, &TALL)
}
