//! Runs that are cut: random games under random key scripts, up to a limit, saved there, and gone on with up to another one. What goes on has to be the
//! rest of the trace in one go.

use crate::interpreter::edition::EDITIONS;
use crate::interpreter::numbers::Numbers;
use crate::keys::script_of;
use asm_core::Origins;
use chip8_lang::Edition;
use std::alloc::{AllocError, Global};
use vip_keypad::Script;
use vip_outside::MemSink;
use vip_relation::Run;
use vip_show::{show_saved, show_trace};
use vip_text::{Limit, RunEnd, TIMED};

/// How many games are cut, each in both editions.
const GAMES: u32 = 200;

/// The most events of a key script, and the most cycles between two of them.
const MOST_EVENTS: u16 = 24;

const MOST_APART: u16 = 9_000;

/// The limits lie below this one, in machine cycles.
const LIMITS: u64 = 120_000;

/// The bytes of the longest output.
const ROOM: usize = 262_144;

/// What was seen of the runs.
#[derive(Clone, Copy)]
pub struct Seen {
    pub cut: u64,
    /// Those without a dispatch point up to the first limit.
    pub unsaved: u64,
    /// The dispatch points and the stops behind what was saved.
    pub records: u64,
    pub stops: u64,
    /// Those that aren't the run in one go.
    pub wrong: u64,
}

/// A game, a key script and two limits.
#[derive(Clone, Copy)]
struct Cut<'a> {
    edition: Edition,
    game: &'a [u8],
    script: &'a Script,
    first: Limit,
    last: Limit,
}

/// What a cut run writes: the trace up to the first limit, the file, the trace of what goes on from it, and the trace in one go.
#[derive(Drop)]
struct Written {
    early: MemSink,
    file: MemSink,
    late: MemSink,
    whole: MemSink,
}

impl Numbers {
    /// An event of a key script in a cycle.
    fn event(&mut self, alloc: Global, cycle: u32) -> Result<String, AllocError> {
        let turn = if self.next() % 2 == 0 { "down" } else { "up" };
        let key = self.next() % 16;
        format!(in alloc; "{cycle} {turn} {key:X}\n")
    }

    /// The text of a key script.
    fn events(&mut self, alloc: Global) -> Result<String, AllocError> {
        let mut text = String::new(alloc);
        let mut cycle = 0u32;
        for _ in 0..self.next() % MOST_EVENTS {
            cycle = cycle.saturating_add(u32::from(self.next() % MOST_APART));
            text.push_str(&self.event(alloc, cycle)?)?;
        }
        Ok(text)
    }

    /// A limit.
    fn limit(&mut self) -> u64 {
        (u64::from(self.next()) * 65_536 + u64::from(self.next())) % LIMITS
    }
}

/// Writes the trace of the run up to a limit.
fn trace(alloc: Global, cut: &Cut<'_>, limit: Limit, out: &mut MemSink) -> anyhow::Result<RunEnd> {
    let mut run = Run::start_as(alloc, cut.edition, cut.game, cut.script)?;
    Ok(show_trace(&mut run, limit, TIMED, &Origins::none(alloc), out)?)
}

/// Writes the file of the run at its last dispatch point up to the first limit.
fn save(alloc: Global, cut: &Cut<'_>, out: &mut MemSink) -> anyhow::Result<Option<RunEnd>> {
    let mut run = Run::start_as(alloc, cut.edition, cut.game, cut.script)?;
    Ok(show_saved(&mut run, cut.first, out)?)
}

/// Writes the records of what goes on from a file up to the last limit.
fn resume(alloc: Global, cut: &Cut<'_>, file: &[u8], out: &mut MemSink) -> anyhow::Result<RunEnd> {
    let mut run = Run::resume(alloc, file, cut.script)?;
    Ok(show_trace(&mut run, cut.last, TIMED, &Origins::none(alloc), out)?)
}

impl Written {
    /// Nothing yet.
    fn new(alloc: Global) -> Result<Written, AllocError> {
        let early = MemSink::new(alloc, ROOM)?;
        let file = MemSink::new(alloc, ROOM)?;
        let late = MemSink::new(alloc, ROOM)?;
        let whole = MemSink::new(alloc, ROOM)?;
        Ok(Written {
            early,
            file,
            late,
            whole,
        })
    }

    /// Cuts a run. Answers whether its parts are the whole: the file was written at once, the run ended there as its trace did, and what goes on from
    /// the file is the rest of the trace in one go. Where there is nothing to save, no file is written.
    fn compare(&mut self, alloc: Global, cut: &Cut<'_>, seen: &mut Seen) -> anyhow::Result<bool> {
        let early = trace(alloc, cut, cut.first, &mut self.early)?;
        let saved = save(alloc, cut, &mut self.file)?;
        if self.early.calls() == 0 {
            seen.unsaved = seen.unsaved.saturating_add(1);
            return Ok(saved.is_none() && self.file.calls() == 0);
        }
        let goes_on = self.goes_on(alloc, cut, seen)?;
        Ok(goes_on && saved == Some(early) && self.file.calls() == 1)
    }

    // Goes on from the file of a run up to its last limit. Answers whether that is the rest of the trace in one go.
    fn goes_on(&mut self, alloc: Global, cut: &Cut<'_>, seen: &mut Seen) -> anyhow::Result<bool> {
        let late = resume(alloc, cut, self.file.bytes(), &mut self.late)?;
        let whole = trace(alloc, cut, cut.last, &mut self.whole)?;
        seen.records = seen.records.saturating_add(u64::from(self.late.calls()));
        if let RunEnd::AtStop(_) = late {
            seen.stops = seen.stops.saturating_add(1);
        }
        let rest = self.whole.bytes().strip_prefix(self.early.bytes());
        Ok(whole == late && rest == Some(self.late.bytes()))
    }
}

/// Cuts a run. Answers whether its parts are the whole.
fn is_whole(alloc: Global, cut: &Cut<'_>, seen: &mut Seen) -> anyhow::Result<bool> {
    let mut written = Written::new(alloc)?;
    written.compare(alloc, cut, seen)
}

/// Cuts the runs of a random game in both editions.
fn cut_game(alloc: Global, numbers: &mut Numbers, seen: &mut Seen) -> anyhow::Result<()> {
    let game = numbers.game();
    let script = script_of(alloc, &numbers.events(alloc)?)?;
    for edition in EDITIONS {
        let one = numbers.limit();
        let other = numbers.limit();
        let cut = Cut {
            edition,
            game: game.bytes(),
            script: &script,
            first: Limit::up_to(one.min(other)),
            last: Limit::up_to(one.max(other)),
        };
        seen.cut = seen.cut.saturating_add(1);
        if !is_whole(alloc, &cut, seen)? {
            seen.wrong = seen.wrong.saturating_add(1);
        }
    }
    Ok(())
}

/// Cuts the runs of random games.
pub fn cut_runs(alloc: Global) -> anyhow::Result<Seen> {
    let mut numbers = Numbers::new(2);
    let mut seen = Seen {
        cut: 0,
        unsaved: 0,
        records: 0,
        stops: 0,
        wrong: 0,
    };
    for _ in 0..GAMES {
        cut_game(alloc, &mut numbers, &mut seen)?;
    }
    Ok(seen)
}
