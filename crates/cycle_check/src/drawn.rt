//! The lines of a routine: one for each address to which ways lead that the facts of lines let
//! through. They don't yet say what is left.
//!
//! A line begins with X and the byte that D is, if it is to say that and the first way there shows
//! it. If a way then leads there on which X or that byte isn't shown, the line loses it, and so
//! lets through no fewer ways. What D is comes first if it is asked for, and then that the counter
//! isn't 0. At some addresses it is the other way round: if the way forward found that what comes
//! after them asks for the counter.

use crate::closed::{Instruction, fits_x, instruction_at, is_shown, lets_through, ways_from};
use crate::forward::{Forward, ROM_SIZE, address_of, end_of, place_of};
use crate::grammar::{Fact, Line};
use crate::known::{byte_after, common};
use crate::table::{Way, When, x_after};
use std::alloc::{AllocError, Global};

/// Each change gives a place its line, or takes X or the fact from it.
const MOST_CHANGES: usize = 6_144;

/// The lines of a routine by their place in the ROM.
pub type Places = Vec<Option<Line>>;

/// Draws the lines of a routine.
pub fn draw(alloc: Global, forward: &Forward) -> Result<Places, AllocError> {
    let mut wants = vec![in alloc; false; ROM_SIZE]?;
    for place in 0..ROM_SIZE {
        if let Some(wanted) = wants.get_mut(place) {
            *wanted = wants_d(forward, 0x8000 + place as u16);
        }
    }
    let mut places = draw_by(alloc, forward, wants.as_slice())?;
    for _ in 0..ROM_SIZE {
        let Some(place) = unwanted_in(forward, wants.as_slice(), places.as_slice()) else {
            break;
        };
        if let Some(wanted) = wants.get_mut(place) {
            *wanted = true;
        }
        places = draw_by(alloc, forward, wants.as_slice())?;
    }
    Ok(places)
}

// Whether D is asked for, and the line isn't to say first that the counter isn't 0.
fn wants_d(forward: &Forward, address: u16) -> bool {
    forward.asks_d(address) && !matches!(forward.fact_at(address), Fact::NonZero)
}

// A place whose line says nothing though D is asked for, and what D is isn't wanted.
fn unwanted_in(forward: &Forward, wants: &[bool], places: &[Option<Line>]) -> Option<usize> {
    for place in 0..ROM_SIZE {
        if let Some(line) = drawn_at(places, place)
            && !is_wanted(wants, place)
            && matches!(line.fact, Fact::Any)
            && forward.asks_d(line.address)
        {
            return Some(place);
        }
    }
    None
}

// The lines that say what D is if that is wanted, and else that the counter isn't 0.
fn draw_by(alloc: Global, forward: &Forward, wants: &[bool]) -> Result<Places, AllocError> {
    let mut places = vec![in alloc; None; ROM_SIZE]?;
    if let Some(place) = place_of(u32::from(forward.bound.entry)) {
        let line = Line {
            address: forward.bound.entry,
            x: None,
            base: 0,
            step: 0,
            fact: Fact::Any,
        };
        put_at(&mut places, usize::from(place), line);
    }
    close(forward, wants, &mut places);
    for fact in [Fact::Copy, Fact::NonZero] {
        raise(forward, wants, fact, &mut places);
        close(forward, wants, &mut places);
    }
    Ok(places)
}

// All lines that said nothing say a fact, except the entry's, and except what D is if that isn't
// wanted.
fn raise(forward: &Forward, wants: &[bool], fact: Fact, places: &mut Places) {
    let is_some = matches!(fact, Fact::NonZero);
    for place in 0..ROM_SIZE {
        if let Some(line) = drawn_at(places.as_slice(), place)
            && matches!(line.fact, Fact::Any)
            && line.address != forward.bound.entry
            && (is_some || is_wanted(wants, place))
        {
            put_at(places, place, Line { fact, ..line });
        }
    }
}

// Gives each place to which a way leads a line, and takes from lines what a way doesn't show.
fn close(forward: &Forward, wants: &[bool], places: &mut Places) {
    for _ in 0..MOST_CHANGES {
        let Some((place, line)) = open_end(forward, wants, places.as_slice()) else {
            break;
        };
        put_at(places, place, line);
    }
}

fn put_at(places: &mut Places, place: usize, line: Line) {
    if let Some(slot) = places.get_mut(place) {
        *slot = Some(line);
    }
}

// A line that is to be at a place, since a way leads there and it has none, or one that asks for
// more than the way shows.
fn open_end(forward: &Forward, wants: &[bool], places: &[Option<Line>]) -> Option<(usize, Line)> {
    for place in 0..ROM_SIZE {
        if let Some(line) = drawn_at(places, place) {
            let instruction = instruction_at(forward.rom, line.address);
            let ways = ways_from(&forward.bound, line.address, &instruction);
            for way in [Some(ways.first), ways.second] {
                if let Some(way) = way
                    && let Some(end) = end_on(forward, wants, places, &line, &instruction, way)
                {
                    return Some(end);
                }
            }
        }
    }
    None
}

// The same, on a way of a line.
fn end_on(
    forward: &Forward,
    wants: &[bool],
    places: &[Option<Line>],
    line: &Line,
    instruction: &Instruction,
    way: Way,
) -> Option<(usize, Line)> {
    let k = forward.bound.k;
    let end = end_of(way)?;
    let place = usize::from(end);
    if !lets_through(line.fact, way.when) {
        return None;
    }
    let x = x_after(instruction.op, line.x);
    let Some(behind) = drawn_at(places, place) else {
        let first = Line {
            address: address_of(end),
            x,
            base: 0,
            step: 0,
            fact: first_fact(is_wanted(wants, place), k, instruction, line.fact, way.when),
        };
        return Some((place, first));
    };
    let less = if !is_shown(k, instruction, line.fact, way.when, 0, behind.fact) {
        Line {
            fact: Fact::Any,
            ..behind
        }
    } else if !fits_x(behind.x, x) {
        Line {
            x: common(behind.x, x),
            ..behind
        }
    } else {
        return None;
    };
    Some((place, less))
}

// The byte that D is after an instruction, if that is wanted and shown.
fn first_fact(wanted: bool, k: u8, instruction: &Instruction, fact: Fact, when: When) -> Fact {
    let held = match fact {
        Fact::Is(byte) => Some(byte),
        _ => None,
    };
    match byte_after(instruction, held) {
        Some(byte) if wanted && is_shown(k, instruction, fact, when, 0, Fact::Is(byte)) => {
            Fact::Is(byte)
        }
        _ => Fact::Any,
    }
}

// Whether the line at a place is to say what D is.
fn is_wanted(wants: &[bool], place: usize) -> bool {
    match wants.get(place) {
        Some(wanted) => *wanted,
        None => false,
    }
}

/// Returns the line at a place.
pub fn drawn_at(places: &[Option<Line>], place: usize) -> Option<Line> {
    match places.get(place) {
        Some(line) => *line,
        None => None,
    }
}
