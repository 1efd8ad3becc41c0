//! Runs that keep what is told of their last dispatch point: with which games one starts, and what it meets up to its stop.

use crate::counts::Counts;
use chip8_lang::{Edition, Stop};
use std::alloc::Global;
use vip_keypad::Script;
use vip_relation::{Met, StartFault, Vip};
use vip_text::Limit;

/// The limit of a run, in machine cycles.
const LIMIT: u64 = 10_000;

/// The most events of a run up to its stop.
const MOST_EVENTS: u32 = 9;

/// 6A02, behind which memory has 00 alone.
const LOAD: [u8; 2] = [0x6A, 0x02];

/// A byte more than the usual edition's game memory has.
const ZEROS: [u8; 3_233] = [0; 3_233];

/// What is due of a start.
#[derive(Clone, Copy)]
enum Due {
    /// The run stops at an opcode 0000 at this address.
    StopsAt(u16),
    /// The game has so many bytes, which are too many.
    TooLarge(usize),
}

/// Starts runs of both editions, with games that fit and with one that doesn't.
pub fn start_runs(alloc: Global) -> Counts<'static> {
    let mut counts = Counts::NONE;
    for (edition, game, due) in [
        (Edition::Usual, &ZEROS[..0], Due::StopsAt(0x0200)),
        (Edition::Usual, &LOAD, Due::StopsAt(0x0202)),
        (Edition::Usual, &ZEROS[..3_232], Due::StopsAt(0x0200)),
        (Edition::Usual, &ZEROS, Due::TooLarge(3_233)),
        (Edition::Tall, &LOAD, Due::StopsAt(0x0202)),
        (Edition::Tall, &ZEROS[..2_976], Due::StopsAt(0x0200)),
        (Edition::Tall, &ZEROS[..2_977], Due::TooLarge(2_977)),
    ] {
        counts.add(comes_to(start(alloc, edition, game), due), "");
    }
    counts
}

/// Starts a run with no key down, in the usual edition by the call that names none.
fn start(alloc: Global, edition: Edition, game: &[u8]) -> Result<Vip, StartFault> {
    let keys = Script::empty(alloc);
    match edition {
        Edition::Usual => Vip::start(alloc, game, &keys),
        Edition::Tall => Vip::start_as(alloc, Edition::Tall, game, &keys),
    }
}

/// Whether a start comes to what is due.
fn comes_to(started: Result<Vip, StartFault>, due: Due) -> bool {
    match (started, due) {
        (Ok(mut vip), Due::StopsAt(pc)) => stops_at(&mut vip, pc),
        (Err(StartFault::GameTooLarge(came)), Due::TooLarge(bytes)) => came == bytes,
        _ => false,
    }
}

/// Whether a run goes from 0200 on through each opcode up to an opcode 0000 at an address, at which it stops.
fn stops_at(vip: &mut Vip, pc: u16) -> bool {
    let mut next = 0x0200u16;
    for _ in 0..MOST_EVENTS {
        match vip.advance(Limit::up_to(LIMIT)) {
            Met::Picture => {}
            Met::Dispatch => {
                if !is_told(vip, next, pc) {
                    return false;
                }
                next = next.wrapping_add(2);
            }
            Met::Stopped(record) => {
                return next == pc.wrapping_add(2)
                    && record.stop == Stop::MachineCall
                    && record.opcode == Some(0)
                    && record.pc == pc;
            }
            Met::End => return false,
        }
    }
    false
}

/// Whether what is told of the last dispatch point is its address, and its opcode: 0000 at the stop, and 6A02 before it.
fn is_told(vip: &Vip, pc: u16, stop: u16) -> bool {
    let opcode = if pc == stop { 0x0000 } else { 0x6A02 };
    match vip.last() {
        Some(view) => view.pc == pc && view.opcode == Some(opcode),
        None => false,
    }
}
