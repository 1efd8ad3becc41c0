//! The places at which a run stops.

ghost use Rattle.std.specs.Prelude.{◌≡◌, ◌≢◌, ◌↔◌, IsTrue};
ghost use Rattle.machine.specs.Instruction.{at};
ghost use Rattle.vip_device.specs.Places.{AreAt, IsAt};

use crate::codes::{BAD_LENGTH, BAD_NUMBER};
use crate::device::VipPlace;
use vip_board::Stops;
use vip_cpu::Cpu;
use vip_memory::Memory;

/// The most places.
pub const MOST_PLACES: usize = 8;

/// The P of a place that is met with any P.
const ANY: u8 = 0xFF;

/// Eight places. Where there are fewer, the first one is there again.
#[derive(Clone, Copy)]
pub struct Places {
    first: VipPlace,
    second: VipPlace,
    third: VipPlace,
    fourth: VipPlace,
    fifth: VipPlace,
    sixth: VipPlace,
    seventh: VipPlace,
    eighth: VipPlace,
}

/// Q changes.
#[derive(Clone, Copy)]
pub struct QTurns {
    pub from: bool,
}

/// The places of a caller, none if there are none, or the code of what is wrong with them.
pub fn place_set(places: &[VipPlace]) -> Result<Option<Places>, i32> {
    if places.len() > MOST_PLACES {
        return Err(BAD_LENGTH);
    }
    for place in places {
        if place.p > 15 && place.p != ANY {
            return Err(BAD_NUMBER);
        }
    }
    let Some(first) = places.first() else {
        return Ok(None);
    };
    Ok(Some(Places {
        first: *first,
        second: place_or(places, 1, first),
        third: place_or(places, 2, first),
        fourth: place_or(places, 3, first),
        fifth: place_or(places, 4, first),
        sixth: place_or(places, 5, first),
        seventh: place_or(places, 6, first),
        eighth: place_or(places, 7, first),
    }))
}

/// The place of a number, or another one where there is none.
fn place_or(places: &[VipPlace], number: usize, other: &VipPlace) -> VipPlace {
    match places.get(number) {
        Some(place) => *place,
        None => *other,
    }
}

/// Whether an instruction at an address that runs with this P is at a place.
#[inline(always)]
fn is_at(place: &VipPlace, address: u16, p: u8) -> bool
    ensures { IsTrue result ↔ IsAt place.now address p }
{
    place.address == address && (place.p == p || place.p == ANY)
}

impl Places {
    /// Whether an instruction at an address that runs with this P is at one of the places.
    #[inline(always)]
    fn has_one(&self, address: u16, p: u8) -> bool
        ensures { IsTrue result ↔ AreAt self.now address p }
    {
        is_at(&self.first, address, p)
            || is_at(&self.second, address, p)
            || is_at(&self.third, address, p)
            || is_at(&self.fourth, address, p)
            || is_at(&self.fifth, address, p)
            || is_at(&self.sixth, address, p)
            || is_at(&self.seventh, address, p)
            || is_at(&self.eighth, address, p)
    }

    /// The number of the first place of an instruction at an address that runs with this P.
    pub fn find(&self, address: u16, p: u8) -> Option<u8> {
        if !self.has_one(address, p) {
            return None;
        }
        let number = if is_at(&self.first, address, p) {
            0
        } else if is_at(&self.second, address, p) {
            1
        } else if is_at(&self.third, address, p) {
            2
        } else if is_at(&self.fourth, address, p) {
            3
        } else if is_at(&self.fifth, address, p) {
            4
        } else if is_at(&self.sixth, address, p) {
            5
        } else if is_at(&self.seventh, address, p) {
            6
        } else {
            7
        };
        Some(number)
    }
}

impl Stops for QTurns {
    ghost stands = { λ turns regs memory. regs.q ≢ turns.from };

    #[inline(always)]
    fn has(self, cpu: &Cpu, _memory: &Memory, _address: u16) -> bool {
        cpu.q() != self.from
    }
}

impl Stops for Places {
    ghost stands = { λ places regs memory. AreAt places (at regs regs.p) regs.p };

    #[inline(always)]
    fn has(self, cpu: &Cpu, _memory: &Memory, address: u16) -> bool {
        self.has_one(address, cpu.p())
    }
}
