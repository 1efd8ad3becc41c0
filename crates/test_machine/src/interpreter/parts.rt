//! A game that passes through every part of the ROM. What lies in RAM at its stop is worked out by hand from the language.

use crate::interpreter::console::{Console, Next};
use crate::interpreter::edition::name;
use crate::keys::script_of;
use chip8_image::{Part, Places, part};
use chip8_lang::Edition;
use std::alloc::Global;

/// A cycle before which the game has come to its stop.
const LIMIT: u64 = 20_000;

/// Key 5 is down all the time.
const KEYS: &str = "0 down 5\n";

#[rattlefmt::skip]
const GAME: [u8; 30] = [
    0x12, 0x04, // 0200 go to 0204
    0x00, 0x00, // 0202 stop
    0x60, 0x05, // 0204 V0 = 05
    0x61, 0x03, // 0206 V1 = 03
    0x81, 0x04, // 0208 V1 = V1 + V0 = 08, VF = 00
    0xA3, 0x00, // 020A I = 0300
    0xF1, 0x55, // 020C 0300 = V0 and 0301 = V1
    0x62, 0x07, // 020E V2 = 07
    0xC2, 0x00, // 0210 V2 = a random byte AND 00 = 00
    0xF2, 0x29, // 0212 I = the sprite of digit 0
    0xD2, 0x25, // 0214 draw it at (0, 0); VF = 00
    0xE0, 0x9E, // 0216 skip the stop, since key 5 is down
    0x00, 0x00, // 0218 stop
    0x63, 0x09, // 021A V3 = 09
    0x00, 0x00, // 021C stop
];

/// A bit for each part that has code.
fn bit(part: Part) -> u8 {
    match part {
        Part::Fetch => 0x01,
        Part::Arith => 0x02,
        Part::Memory => 0x04,
        Part::Sprite => 0x08,
        Part::Timer => 0x10,
        Part::Keys => 0x20,
        Part::Other => 0x00,
    }
}

/// Runs the game up to its stop, and answers the bits of the parts in which instructions of main code began.
fn parts_passed(console: &mut Console) -> u8 {
    let mut passed = 0;
    for _ in 0..LIMIT {
        match console.next() {
            Next::Stop => break,
            Next::Main(address, _) => passed |= bit(part(address)),
            _ => {}
        }
        console.step(LIMIT);
    }
    passed
}

/// How many bytes of RAM aren't as they are due at the stop.
fn wrong_bytes(console: &Console, edition: Edition) -> u32 {
    let places = Places::of(edition);
    let variables = u16::from_be_bytes([places.variables, 0xF0]);
    let screen = u16::from_be_bytes([places.screen, 0]);
    let mut wrong = 0_u32;
    for (address, due) in [
        (variables, 0x05),
        (variables | 1, 0x08),
        (variables | 2, 0x00),
        (variables | 3, 0x09),
        (variables | 0xF, 0x00),
        (0x0300, 0x05),
        (0x0301, 0x08),
        // the first two rows of the digit 0
        (screen, 0xF0),
        (screen | 8, 0x90),
        // the stop of a call of machine code
        (0x01F0, 0x01),
    ] {
        if console.byte(address) != due {
            wrong = wrong.saturating_add(1);
        }
    }
    wrong
}

/// What came of the game: how many parts it passed, whether it stopped, and how many bytes aren't as they are due.
type Came = (u32, bool, u32);

/// Runs the game on an edition's ROM.
fn run(alloc: Global, edition: Edition) -> anyhow::Result<Came> {
    let keys = script_of(alloc, KEYS)?;
    let mut console = Console::start(alloc, edition, &GAME, &keys)?;
    let passed = parts_passed(&mut console).count_ones();
    let stopped = matches!(console.next(), Next::Stop);
    Ok((passed, stopped, wrong_bytes(&console, edition)))
}

/// Runs the game on an edition's ROM, and writes which parts it passed and what was wrong at its stop.
pub fn write_parts(rt: &HostRuntime, edition: Edition) -> anyhow::Result<()> {
    let (passed, stopped, wrong) = run(rt.alloc(), edition)?;
    println!(rt;
        "{}, a game through each part: {passed} of 6 passed, stopped {stopped}, {wrong} of 10 bytes not as due",
        name(edition)
    )?;
    Ok(())
}
