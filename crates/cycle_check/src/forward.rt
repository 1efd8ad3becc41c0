//! The way forward from an entry: which addresses it leads to, and what is known of X, D and the
//! counter there.
//!
//! Nothing that is found here is relied on. `cycles` checks the certificate that the search makes.

use crate::closed::{
    Instruction, instruction_at, is_allowed, is_open, is_shown, lets_through, ways_from,
};
use crate::fault::{TimingCause, TimingFault, obstacle};
use crate::grammar::{Bound, Fact, Line};
use crate::known::Knowledge;
use crate::table::{Way, Ways, assigns_d};
use arrayvec::ArrayVec;
use std::alloc::Global;
use vip_isa::{Kind, Op};

/// The bytes of the ROM.
pub const ROM_SIZE: usize = 2_048;

/// An address is followed again if less is known of it: of X, and of three facts. So no more of
/// them ever wait.
const MOST_VISITS: usize = 10_240;

/// Each pass except the last one bars a fact at some address.
const MOST_PASSES: usize = 6_144;

/// The number of instructions in which a use of D is looked for.
const MOST_LOOKED: usize = 64;

/// The facts that the line of an address may not say, since a line that leads there doesn't show
/// them.
#[derive(Clone, Copy)]
struct Barred {
    copy: bool,
    some: bool,
    byte: bool,
}

/// The addresses to which the entry of a bound leads in a ROM.
#[derive(Drop)]
pub struct Forward<'a> {
    pub rom: &'a [u8],
    pub bound: Bound,
    // what is known at each place in the ROM that was met
    known: Vec<Option<Knowledge>>,
    barred: Vec<Barred>,
    // the addresses to be followed, with what is known now
    waiting: ArrayVec<u16, MOST_VISITS>,
}

/// Returns the place in the ROM of an address, if it has one.
pub fn place_of(address: u32) -> Option<u16> {
    if (0x8000..0x8800).contains(&address) {
        Some((address - 0x8000) as u16)
    } else {
        None
    }
}

/// Returns the address of a place in the ROM.
pub fn address_of(place: u16) -> u16 {
    0x8000 | place
}

/// Returns the place in the ROM at the end of a way.
pub fn end_of(way: Way) -> Option<u16> {
    place_of(way.to?)
}

/// Whether an instruction assigns the low byte of the counter register.
pub fn assigns_counter(k: u8, op: Op) -> bool {
    op.n == k && matches!(op.kind, Kind::Inc | Kind::Dec | Kind::Lda | Kind::Plo)
}

// Whether an instruction branches on D, or puts it into the counter register.
fn asks_here(k: u8, op: Op) -> bool {
    match op.kind {
        Kind::Bz | Kind::Bnz | Kind::Lbz | Kind::Lbnz => true,
        Kind::Plo => op.n == k,
        _ => false,
    }
}

// The next place in the ROM, if there is only one.
fn only_next(ways: Ways) -> Option<u16> {
    match ways.second {
        Some(_) => None,
        None => end_of(ways.first),
    }
}

/// Follows the ways from the entry of a bound on.
pub fn explore<'a>(alloc: Global, rom: &'a [u8], bound: Bound) -> Result<Forward<'a>, TimingFault> {
    let free = Barred {
        copy: false,
        some: false,
        byte: false,
    };
    let mut forward = Forward {
        rom,
        bound,
        known: vec![in alloc; None; ROM_SIZE]?,
        barred: vec![in alloc; free; ROM_SIZE]?,
        waiting: ArrayVec::new(),
    };
    // an entry outside the ROM has no place
    forward.follow_with(bound.entry, &Knowledge::nothing())?;
    forward.follow_all()?;
    for _ in 0..MOST_PASSES {
        if !forward.bar_all() {
            break;
        }
    }
    Ok(forward)
}

impl Forward<'_> {
    // Meets the entry, and all that it leads to.
    fn follow_all(&mut self) -> Result<(), TimingFault> {
        self.meet(u32::from(self.bound.entry), Knowledge::nothing());
        for _ in 0..MOST_VISITS {
            let Some(address) = self.waiting.pop() else {
                break;
            };
            if let Some(known) = self.known_at(u32::from(address)) {
                self.follow_with(address, &known)?;
            }
        }
        Ok(())
    }

    /// Returns what is known at an address that was met.
    pub fn known_at(&self, address: u32) -> Option<Knowledge> {
        match self.known.get(usize::from(place_of(address)?)) {
            Some(known) => *known,
            None => None,
        }
    }

    // Meets what comes after an address at which this is known.
    fn follow_with(&mut self, address: u16, known: &Knowledge) -> Result<(), TimingFault> {
        let line = self.line_with(address, known);
        let instruction = instruction_at(self.rom, address);
        if !is_allowed(&self.bound, &line, &instruction) {
            return Err(obstacle(self.rom, TimingCause::Opcode, address));
        }
        let ways = ways_from(&self.bound, address, &instruction);
        self.go(known, &instruction, ways.first);
        if let Some(second) = ways.second {
            self.go(known, &instruction, second);
        }
        Ok(())
    }

    // Goes a way to an address of the ROM, if what is known of D opens it.
    fn go(&mut self, known: &Knowledge, instruction: &Instruction, way: Way) {
        if let Some(to) = way.to
            && is_open(way.when, known.byte)
        {
            self.meet(to, known.behind(self.bound.k, instruction, way.when));
        }
    }

    // Meets an address at which this is known, if it lies in the ROM.
    fn meet(&mut self, address: u32, known: Knowledge) {
        let Some(place) = place_of(address) else {
            return;
        };
        let joined = match self.known_at(address) {
            Some(before) => before.join(&known),
            None => known,
        };
        if let Some(slot) = self.known.get_mut(usize::from(place))
            && *slot != Some(joined)
        {
            *slot = Some(joined);
            let _ = self.waiting.try_push(address_of(place));
        }
    }

    // The line of an address, which doesn't say yet what is left.
    fn line_with(&self, address: u16, known: &Knowledge) -> Line {
        Line {
            address,
            x: known.x,
            base: 0,
            step: 0,
            fact: self.choose(address, known),
        }
    }

    // The fact that the line of an address says, of those that hold and aren't barred. What D is
    // counts if D is asked for soon.
    fn choose(&self, address: u16, known: &Knowledge) -> Fact {
        let Some(barred) = self.barred_at(address) else {
            return Fact::Any;
        };
        let asks_d = self.asks_d(address);
        match known.byte {
            Some(byte) if asks_d && !barred.byte => Fact::Is(byte),
            _ if asks_d && known.copy && !barred.copy => Fact::Copy,
            _ if known.some && !barred.some => Fact::NonZero,
            _ => Fact::Any,
        }
    }

    fn barred_at(&self, address: u16) -> Option<Barred> {
        let place = place_of(u32::from(address))?;
        self.barred.get(usize::from(place)).copied()
    }

    /// Whether D is asked for from an address on, before it is assigned.
    pub fn asks_d(&self, address: u16) -> bool {
        let k = self.bound.k;
        let mut at = address;
        for _ in 0..MOST_LOOKED {
            let instruction = instruction_at(self.rom, at);
            if asks_here(k, instruction.op) {
                return true;
            }
            if assigns_d(instruction.op.kind) || assigns_counter(k, instruction.op) {
                return false;
            }
            match only_next(ways_from(&self.bound, at, &instruction)) {
                Some(next) => at = address_of(next),
                None => return false,
            }
        }
        false
    }

    // Bars each fact of a line that a line which leads there doesn't show. False if there is none.
    fn bar_all(&mut self) -> bool {
        let mut found = false;
        for address in 0x8000..0x8800u16 {
            if self.bar_behind(address) {
                found = true;
            }
        }
        found
    }

    // Bars the facts of the lines after an address that its line doesn't show. False if there is
    // none.
    fn bar_behind(&mut self, address: u16) -> bool {
        let Some(known) = self.known_at(u32::from(address)) else {
            return false;
        };
        let line = self.line_with(address, &known);
        let instruction = instruction_at(self.rom, address);
        let ways = ways_from(&self.bound, address, &instruction);
        let unshown = self.unshown(&known, &line, &instruction, ways.first);
        let first = self.bar(unshown);
        match ways.second {
            Some(second) => {
                let unshown = self.unshown(&known, &line, &instruction, second);
                self.bar(unshown) || first
            }
            None => first,
        }
    }

    // The fact of the line at the end of a way, with its place, if the way doesn't show it. If the
    // line says what D is and could say that the counter isn't 0, which is asked for, it is its
    // own fact instead.
    fn unshown(
        &self,
        known: &Knowledge,
        line: &Line,
        instruction: &Instruction,
        way: Way,
    ) -> Option<(u16, Fact)> {
        let k = self.bound.k;
        let place = end_of(way)?;
        let asked = self.choose(address_of(place), &self.known_at(way.to?)?);
        if !lets_through(line.fact, way.when)
            || is_shown(k, instruction, line.fact, way.when, 0, asked)
        {
            return None;
        }
        let own = place_of(u32::from(line.address))?;
        if matches!(asked, Fact::NonZero)
            && self.may_say_some(known, line)
            && is_shown(k, instruction, Fact::NonZero, way.when, 0, asked)
        {
            return Some((own, line.fact));
        }
        Some((place, asked))
    }

    // Whether a line that says what D is could say that the counter isn't 0.
    fn may_say_some(&self, known: &Knowledge, line: &Line) -> bool {
        match (line.fact, self.barred_at(line.address)) {
            (Fact::Copy | Fact::Is(_), Some(barred)) => known.some && !barred.some,
            _ => false,
        }
    }

    // Bars a fact at a place. False if there is none.
    fn bar(&mut self, found: Option<(u16, Fact)>) -> bool {
        let Some((place, fact)) = found else {
            return false;
        };
        if let Some(barred) = self.barred.get_mut(usize::from(place)) {
            match fact {
                Fact::Any => {}
                Fact::Copy => barred.copy = true,
                Fact::NonZero => barred.some = true,
                Fact::Is(_) => barred.byte = true,
            }
        }
        true
    }

    /// Returns the fact that the line of an address says, if it was met, and else that nothing is
    /// known.
    pub fn fact_at(&self, address: u16) -> Fact {
        match self.known_at(u32::from(address)) {
            Some(known) => self.choose(address, &known),
            None => Fact::Any,
        }
    }

    // Whether the instruction at an address may raise the counter, for all that is known there.
    fn may_raise(&self, address: u16) -> bool {
        let op = instruction_at(self.rom, address).op;
        let Some(known) = self.known_at(u32::from(address)) else {
            return false;
        };
        let keeps = match (op.kind, known.byte) {
            (Kind::Dec, _) => known.some,
            (Kind::Plo, Some(0)) => true,
            (Kind::Plo, Some(1)) => known.some || known.copy,
            (Kind::Plo, _) => known.copy,
            _ => false,
        };
        assigns_counter(self.bound.k, op) && !keeps
    }

    /// Whether an iteration of a loop isn't counted, whichever facts its lines say: no instruction
    /// of it assigns the counter, or one may raise it.
    pub fn is_uncounted(&self, turn: &[u16]) -> bool {
        let mut keeps = true;
        for address in turn {
            if self.may_raise(*address) {
                return true;
            }
            if assigns_counter(self.bound.k, instruction_at(self.rom, *address).op) {
                keeps = false;
            }
        }
        keeps
    }
}
