//! A certificate that is found for a routine.
//!
//! A search draws lines, and the checker of `cycles` reads what is written of them. So what is
//! found is right however the search works.

ghost use Rattle.std.specs.Prelude.{◌≡◌, ◌≤◌, true, length, IfOk, IfErr, MatchOption};
ghost use Rattle.std.specs.List.{All};
ghost use Rattle.cycle_check.specs.Found.{HasLimit, IsFound, IsRefused, IsTimingFault, leaves_rom};
ghost use Rattle.cycle_check.specs.Reading.{AreRising};

use crate::accept;
use crate::certificate::{Draft, is_behind};
use crate::closed::{instruction_at, is_allowed, left, line_at};
use crate::components::find_components;
use crate::cost::find_costs;
use crate::drawn::draw;
use crate::exits::{Exit, exits_of};
use crate::fault::{CertFault, TimingCause, TimingFault, obstacle};
use crate::forward::explore;
use crate::grammar::{Bound, Fact, Line, MOST_LEFT};
use crate::graph::{Graph, PLACES, graph_of};
use crate::write::text_of;
use std::alloc::{AllocError, Global};
use vip_byte::MOST_TEXT;

// What a search found: lines with what is left at each, and an iteration of a loop that isn't
// counted, if it met one, with the cause that is reported of it.
#[derive(Drop)]
struct Found {
    lines: Draft,
    turn: Vec<u16>,
    cause: TimingCause,
}

/// Finds a certificate for the routine that is entered at an address with R(P) as its program
/// counter and counts by R(K).
///
/// `check_cycles` accepts it. It is written with single blanks, upper-case digits and no leading
/// zeros, and has a remark for each exit after its lines. Each exit is by SEP of another register,
/// or leads out of the ROM.
///
/// If the search finds none, the error says where it gave up. Of `Opcode` it is checked that the
/// instruction isn't allowed there if X isn't known. The other causes promise nothing: another
/// certificate may exist. Memory may run out. Nothing is promised about which routines have one
/// found.
pub fn find_timing(
    alloc: Global,
    rom: &[u8; 2048],
    entry: u16,
    p: u8,
    k: u8,
) -> Result<Vec<u8>, TimingFault>
    ensures found { IfOk result (λ text. IsFound rom.now entry p k text.items) }
    ensures fits { IfOk result (λ text. length text.items ≤ MOST_TEXT) }
    ensures fault { IfErr result (IsTimingFault rom.now (record { entry = entry; p = p; k = k; limit = 0 })) }
{
    let start = Bound {
        entry,
        p,
        k,
        limit: 0,
    };
    match search(alloc, rom, &start) {
        Ok(found) => judge(alloc, rom, &start, &found),
        Err(TimingFault::NotFound(at)) => Err(report(rom, &start, at.cause, at.address)),
        Err(TimingFault::NoMemory) => Err(TimingFault::NoMemory),
    }
}

// Searches for lines of a routine.
fn search(alloc: Global, rom: &[u8], start: &Bound) -> Result<Found, TimingFault> {
    let forward = explore(alloc, rom, *start)?;
    let places = draw(alloc, &forward)?;
    let mut graph = graph_of(alloc, rom, start, places.as_slice())?;
    let found = find_components(alloc, &graph)?;
    find_costs(&mut graph, found.members.as_slice());
    let cause = if forward.is_uncounted(found.turn.as_slice()) {
        TimingCause::Loop
    } else {
        TimingCause::Fact
    };
    Ok(Found {
        lines: lines_of(alloc, &graph)?,
        turn: found.turn,
        cause,
    })
}

// The lines of a graph, in their order.
fn lines_of(alloc: Global, graph: &Graph) -> Result<Draft, AllocError> {
    let mut lines = Draft::empty(alloc);
    for place in 0..PLACES {
        if let Some(node) = graph.node(place)
            && is_behind(lines.lines(), node.line.address)
        {
            lines.push(node.line)?;
        }
    }
    Ok(lines)
}

// Writes a certificate of lines, and has it checked.
fn judge(
    alloc: Global,
    rom: &[u8; 2048],
    start: &Bound,
    found: &Found,
) -> Result<Vec<u8>, TimingFault>
    ensures found { IfOk result (λ text. IsFound rom.now start.now.entry start.now.p start.now.k text.items) }
    ensures fits { IfOk result (λ text. length text.items ≤ MOST_TEXT) }
    ensures fault { IfErr result (IsTimingFault rom.now start.now) }
{
    let lines = found.lines.lines();
    let text = write(alloc, rom, start, lines)?;
    if text.len() > MOST_TEXT {
        return Err(report(rom, start, TimingCause::Fact, start.entry));
    }
    match refused_in(alloc, rom, start, text.as_slice())? {
        None => Ok(text),
        Some(line) => Err(give_up(rom, start, found, line)),
    }
}

// The text of a certificate whose limit is what is left at the entry's line if the counter is 255.
fn write(alloc: Global, rom: &[u8], start: &Bound, lines: &[Line]) -> Result<Vec<u8>, AllocError>
    requires { AreRising lines.now }
{
    let limit = match line_at(lines, u32::from(start.entry)) {
        Some(line) => left(&line, 255).min(u64::from(u32::MAX)) as u32,
        None => 0,
    };
    let bound = Bound { limit, ..*start };
    let exits = exits_of(alloc, rom, &bound, lines)?;
    text_of(alloc, &bound, lines, exits.as_slice())
}

// The number of the first line of a text that `cycles` refuses. If it accepts the text, and that
// is no certificate as it is written of this routine, the number is 1.
fn refused_in(
    alloc: Global,
    rom: &[u8; 2048],
    start: &Bound,
    text: &[u8],
) -> Result<Option<u32>, AllocError>
    requires { length text.now ≤ MOST_TEXT }
    ensures { IfOk result (λ refused. MatchOption refused
        (IsFound rom.now start.now.entry start.now.p start.now.k text.now) (λ line. Unit {0})) }
{
    match accept(alloc, rom, text) {
        Ok((_, bound, draft)) => {
            let exits = exits_of(alloc, rom, &bound, draft.lines())?;
            let again = text_of(alloc, &bound, draft.lines(), exits.as_slice())?;
            if is_of(start, &bound)
                && again.as_slice() == text
                && leave_rom(exits.as_slice())
                && has_limit(&bound, draft.lines())
            {
                Ok(None)
            } else {
                Ok(Some(1))
            }
        }
        Err(CertFault::Fault { line, .. }) => Ok(Some(line)),
        Err(CertFault::NoMemory) => Err(AllocError),
    }
}

// Whether a bound is of this entry, program counter and counter.
fn is_of(start: &Bound, bound: &Bound) -> bool
    ensures entry { result ≡ true → bound.now.entry ≡ start.now.entry }
    ensures counter { result ≡ true → bound.now.p ≡ start.now.p }
    ensures counts { result ≡ true → bound.now.k ≡ start.now.k }
{
    bound.entry == start.entry && bound.p == start.p && bound.k == start.k
}

// Whether each exit is by SEP of another register or out of the ROM.
fn leave_rom(exits: &[Exit]) -> bool
    ensures { result ≡ true → All (λ exit. leaves_rom exit.to) exits.now }
{
    for exit in exits {
        if let Some(to) = exit.to
            && (0x8000..0x8800).contains(&to)
        {
            return false;
        }
    }
    true
}

// Whether the limit is what is left at the entry's line if the counter is 255.
fn has_limit(bound: &Bound, lines: &[Line]) -> bool
    requires { AreRising lines.now }
    ensures { result ≡ true → HasLimit bound.now lines.now }
{
    match line_at(lines, u32::from(bound.entry)) {
        Some(line) => left(&line, 255) == u64::from(bound.limit),
        None => false,
    }
}

// Where a search gave up whose certificate is refused in a line: at an iteration that isn't
// counted, or at the address of that line.
fn give_up(rom: &[u8], start: &Bound, found: &Found, number: u32) -> TimingFault
    ensures { IsTimingFault rom.now start.now result }
{
    if let [address, ..] = found.turn.as_slice() {
        return report(rom, start, found.cause, *address);
    }
    // the first line of an address is the second one of the text
    match found.lines.lines().get(number.wrapping_sub(2) as usize) {
        Some(line) if is_most(line) => report(rom, start, TimingCause::Most, line.address),
        Some(line) => report(rom, start, TimingCause::Fact, line.address),
        None => report(rom, start, TimingCause::Fact, start.entry),
    }
}

// Whether a line leaves more cycles than a certificate may say.
fn is_most(line: &Line) -> bool {
    u64::from(line.base) > MOST_LEFT || u64::from(line.step) > MOST_LEFT
}

// What is reported of an address at which a search gave up: `Opcode` only if a look at the
// instruction there shows it.
fn report(rom: &[u8], start: &Bound, cause: TimingCause, address: u16) -> TimingFault
    ensures { IsTimingFault rom.now start.now result }
{
    match cause {
        TimingCause::Opcode if is_refused(rom, start, address) => {
            obstacle(rom, TimingCause::Opcode, address)
        }
        TimingCause::Opcode | TimingCause::Fact => obstacle(rom, TimingCause::Fact, address),
        TimingCause::Loop => obstacle(rom, TimingCause::Loop, address),
        TimingCause::Most => obstacle(rom, TimingCause::Most, address),
    }
}

// Whether no line of an address is allowed that knows no X.
fn is_refused(rom: &[u8], start: &Bound, address: u16) -> bool
    ensures { result ≡ true → IsRefused rom.now start.now address }
{
    let bare = Line {
        address,
        x: None,
        base: 0,
        step: 0,
        fact: Fact::Any,
    };
    !is_allowed(start, &bare, &instruction_at(rom, address))
}
