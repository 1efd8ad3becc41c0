//! The reports that no words put out, and a game and a number that no words show.

use crate::counts::Counts;
use asm_core::AsmCause;
use chip8_source::ImageFault;
use std::alloc::Global;
use vip_byte::{NumFault, read_decimal};
use vip_outside::MemSink;
use vip_tools::{Refusal, demo_game, put_refusal};

/// Room for a report.
const REPORT_ROOM: usize = 80;

/// The ends of the demonstration game 0.
const FIRST: &[u8] = &[0xF0, 0x29, 0x3D, 0x3C, 0x6A, 0x47, 0x89, 0x36];

const LAST: &[u8] = &[0x12, 0x00, 0x12, 0x00];

/// Looks at each refusal that no words lead to, since the built-in source gives the ROM and memory is found: its status and its report.
pub fn try_refusals(alloc: Global) -> Counts<'static> {
    let undefined = ImageFault::BadRomSource {
        line: 7,
        cause: AsmCause::Undefined,
    };
    let differs = ImageFault::RomDiffers {
        address: 0x80A1,
        assembled: 0x0F,
        image: 0xF0,
    };
    let mut counts = Counts::NONE;
    for (refusal, status, report) in [
        (
            Refusal::Rom(undefined),
            8,
            "vip: rom source line 7: Undefined\n",
        ),
        (
            Refusal::Rom(differs),
            9,
            "vip: rom differs at 80A1: source 0F image F0\n",
        ),
        (Refusal::Rom(ImageFault::NoMemory), 11, "vip: no memory\n"),
        (Refusal::NoMemory, 11, "vip: no memory\n"),
    ] {
        counts.add(is_told(alloc, &refusal, status, report), report);
    }
    counts
}

/// Whether a refusal has this status and this report.
fn is_told(alloc: Global, refusal: &Refusal<'_>, status: u8, report: &str) -> bool {
    let Ok(mut sink) = MemSink::new(alloc, REPORT_ROOM) else {
        return false;
    };
    let told = put_refusal(alloc, &mut sink, refusal);
    told.number() == status
        && refusal.status().number() == status
        && sink.bytes() == report.as_bytes()
}

/// Looks at the ends of a demonstration game, which no words put out.
pub fn try_game(alloc: Global) -> Counts<'static> {
    let mut counts = Counts::NONE;
    let is_right = match demo_game(alloc, 0) {
        Ok(game) => game.len() == 3_232 && game.starts_with(FIRST) && game.ends_with(LAST),
        Err(_) => false,
    };
    counts.add(is_right, "0");
    counts
}

/// Looks at a number whose digits give a smaller one modulo 2 to the 64: no number of the program may be as large.
pub fn try_number() -> Counts<'static> {
    let mut counts = Counts::NONE;
    let number = read_decimal(b"99999999999999999999", u64::MAX);
    counts.add(matches!(number, Err(NumFault::TooLarge)), "20 digits");
    counts
}
