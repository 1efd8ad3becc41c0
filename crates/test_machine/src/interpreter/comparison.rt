//! Short sources against a ROM of 00: the least address that differs, or the source's first fault, which no words of the program reach.

use crate::counts::Counts;
use asm_core::AsmCause;
use chip8_source::{ImageFault, compare};
use std::alloc::Global;

/// A ROM without a byte but 00.
const IMAGE: [u8; 2048] = [0; 2048];

/// What is due of a comparison.
#[derive(Clone, Copy)]
enum Due {
    Same,
    /// The address, and the bytes there of the assembly and of the ROM.
    Differs(u16, u8, u8),
    /// The line that gives a byte to an address which has one.
    Overlap(u32),
}

/// The sources, and what is due of each.
const ROWS: &[(&str, Due)] = &[
    ("", Due::Same),
    (" DB 0xFF\n ORG 0x8000\n DB 0\n", Due::Same),
    (" DB 0", Due::Differs(0x0000, 0x00, 0xFF)),
    (" ORG 0x87FF\n DB 0xFE", Due::Differs(0x87FF, 0xFE, 0x00)),
    (
        " ORG 0x8400\n DB 0, 2, 3\n ORG 0x8300\n DS 9",
        Due::Differs(0x8401, 0x02, 0x00),
    ),
    (
        " ORG 0x7FFF\n DB 0xFF\n ORG 0x8800\n DB 0xFF, 0x12",
        Due::Differs(0x8801, 0x12, 0xFF),
    ),
    (" ORG 0xFFFF\n DB 1", Due::Differs(0xFFFF, 0x01, 0xFF)),
    (
        " ORG 0x8001\n DB 5\n ORG 0x0100\n DB 5",
        Due::Differs(0x0100, 0x05, 0xFF),
    ),
    (" ORG 0x8000\n DB 1\n ORG 0x8000\n DB 0\n", Due::Overlap(4)),
];

/// What a comparison answers.
fn answer(due: Due) -> Result<(), ImageFault> {
    match due {
        Due::Same => Ok(()),
        Due::Differs(address, assembled, image) => Err(ImageFault::RomDiffers {
            address,
            assembled,
            image,
        }),
        Due::Overlap(line) => Err(ImageFault::BadRomSource {
            line,
            cause: AsmCause::Overlap,
        }),
    }
}

/// Whether a source comes to what is due. It is surely short enough.
fn is_right(alloc: Global, text: &[u8], due: Due) -> bool {
    text.len() <= 1_000 && compare(alloc, text, &IMAGE) == answer(due)
}

/// Compares each source with the ROM.
pub fn compare_sources(alloc: Global) -> Counts<'static> {
    let mut counts = Counts::NONE;
    for (text, due) in ROWS {
        counts.add(is_right(alloc, text.as_bytes(), *due), text);
    }
    counts
}
