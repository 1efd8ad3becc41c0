//! The rows of a memory with ROM byte 69 (hexadecimal) at 8000, and 00 elsewhere in RAM and ROM.

use crate::counts::Counts;
use std::alloc::Global;
use vip_memory::Memory;

/// What is done before a row.
#[derive(Clone, Copy)]
enum Act {
    Nothing,
    Write(u16, u8),
    ClearLatch,
}

/// What is due then.
#[derive(Clone, Copy)]
enum Due {
    /// An address reads a byte.
    Reads(u16, u8),
    /// A page is lent that has 256 bytes and begins with a byte.
    Lends(u8, u8),
    /// A page isn't lent.
    Keeps(u8),
}

/// The rows, with the boot latch set at first.
#[rattlefmt::skip]
const ROWS: &[(Act, Due)] = &[
    (Act::Nothing, Due::Reads(0x0000, 0x69)),
    (Act::Write(0x0300, 0x05), Due::Lends(0x03, 0x00)),
    (Act::ClearLatch, Due::Reads(0x0000, 0x00)),
    (Act::Write(0x0300, 0x05), Due::Reads(0x0300, 0x05)),
    (Act::Nothing, Due::Reads(0x1000, 0xFF)),
    (Act::Write(0x8000, 0x01), Due::Reads(0x8000, 0x69)),
    (Act::Nothing, Due::Keeps(0x10)),
    (Act::Nothing, Due::Keeps(0x88)),
    (Act::Nothing, Due::Lends(0x80, 0x69)),
];

fn make(memory: &mut Memory, act: Act) {
    match act {
        Act::Nothing => {}
        Act::Write(address, byte) => memory.write(address, byte),
        Act::ClearLatch => memory.clear_latch(),
    }
}

fn is_met(memory: &Memory, due: Due) -> bool {
    match due {
        Due::Reads(address, byte) => memory.read(address) == byte,
        Due::Lends(high, byte) => match memory.page(high) {
            Some(page) => page.len() == 256 && page[0] == byte,
            None => false,
        },
        Due::Keeps(high) => memory.page(high).is_none(),
    }
}

fn try_rows(memory: &mut Memory) -> Counts<'static> {
    let mut counts = Counts::NONE;
    for (before, due) in ROWS {
        make(memory, *before);
        counts.add(is_met(memory, *due), "");
    }
    counts
}

/// Tries the rows: none where there is no memory.
pub fn rows(alloc: Global) -> Counts<'static> {
    let mut rom = [0; 0x800];
    rom[0] = 0x69;
    match Memory::new(alloc, &rom) {
        Ok(mut memory) => try_rows(&mut memory),
        Err(_) => Counts::NONE,
    }
}
