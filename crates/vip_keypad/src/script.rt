//! Key scripts: how they are read, and which keys their events hold down.

ghost use Rattle.std.specs.Prelude.{◌≡◌, ℕ, ◌+◌, ◌<◌, ◌≤◌, ◌⊎◌, true, false, nat_le, [], ◌∷◌, ◌++◌, length, map, take, Some, OnOk, OnErr, IfOk, IfErr};
ghost use Rattle.std.specs.List.{AllWithin};
ghost use Rattle.std.specs.List.Sorted.{IsNonDecreasingBy};
ghost use Rattle.std.specs.Option.{ForSome, option_to_list};
ghost use Rattle.std.specs.Result.{result_err};
ghost use Rattle.machine.specs.Keys.{held_at};
ghost use Rattle.vip_keypad.specs.Entries.{AreSearchable, event_of_entry, held_after};
ghost use Rattle.vip_keypad.specs.FaultNames.{script_cause_name};
ghost use Rattle.vip_keypad.specs.KeySet.{has_key};
ghost use Rattle.vip_keypad.specs.KeyScript.{cause_after, last_cycle, said, script_of};
ghost use Rattle.vip_keypad.specs.Stretches.{HoldsIn};

use crate::key_set::KeySet;
use crate::line::{Event, read_line};
use crate::stretch::Stretch;
use std::alloc::{AllocError, Global};
use std::marker::Model;
use thiserror::Error;
use vip_byte::{Lines, MOST_TEXT};

/// Why a line of a key script is no event, in the order in which the causes are looked for.
#[derive(Clone, Copy, Debug, Error)]
#[error("{}", self.name())]
pub enum ScriptCause {
    /// The line has not exactly three words, or the second is neither `down` nor `up`.
    BadLine,
    /// The first word is no decimal number from 0 to 4,000,000,000.
    BadCycle,
    /// The third word is not one hexadecimal digit.
    BadKey,
    /// The cycle is below that of the event before.
    OutOfOrder,
    /// The line has event 100,001.
    TooMany,
}

impl ScriptCause {
    /// Its name, which its text and the reports show.
    pub fn name(self) -> &'static str
        ensures { result.now ≡ script_cause_name self }
    {
        match self {
            ScriptCause::BadLine => "BadLine",
            ScriptCause::BadCycle => "BadCycle",
            ScriptCause::BadKey => "BadKey",
            ScriptCause::OutOfOrder => "OutOfOrder",
            ScriptCause::TooMany => "TooMany",
        }
    }
}

/// Why a key script was not read.
#[derive(Clone, Copy, Debug, Error)]
pub enum ScriptFault {
    /// The first faulty line, counted from 1, and the first cause in it.
    #[error("line {line}: {cause}")]
    Fault { line: u32, cause: ScriptCause },
    /// No memory was left for the events.
    #[error("NoMemory")]
    NoMemory,
}

impl From<AllocError> for ScriptFault {
    ghost use Rattle.std.specs.Prelude.{◌≡◌};
    ghost use Rattle.vip_keypad.specs.declared.script.ScriptFault.TheVariants.{NoMemory};

    ghost from_gives = { λ _ fault. fault ≡ NoMemory };

    fn from(_error: AllocError) -> ScriptFault {
        ScriptFault::NoMemory
    }
}

/// The most events of a script (this project's profile).
pub const MOST_EVENTS: usize = 100_000;

// An event, and the keys that are down after it.
#[derive(Clone, Copy)]
struct Entry {
    cycle: u32,
    key: u8,
    down: bool,
    keys: KeySet,
}

/// The events of a key script: which key goes down or up at which machine cycle, counted from reset, in the order of the script, in which
/// the cycles never fall. A clause sees the list of its events.
#[derive(Drop)]
pub struct Script {
    // With each event stand the keys that are down after it, so that those at any cycle are found by halving.
    entries: Vec<Entry>,
}

impl Model for Script {
    ghost use Rattle.std.specs.Prelude.{List, map};
    ghost use Rattle.machine.specs.Keys.{Event};
    ghost use Rattle.vip_keypad.specs.Entries.{AreSearchable, event_of_entry};

    ghost Value = { List Event };

    ghost view = { λ inside. map event_of_entry inside.entries.items };

    ghost invariant = { λ inside. AreSearchable inside.entries.items };
}

impl Script {
    /// A script without events. It takes no memory.
    pub fn empty(alloc: Global) -> Script
        ensures { result ≡ [] }
    {
        Script {
            entries: Vec::new(alloc),
        }
    }

    /// How many events it has.
    pub fn len(&self) -> usize
        ensures { result ≡ length self.now }
    {
        self.entries.len()
    }

    // Whether the key is held down at cycle t.
    pub(crate) fn is_down(&self, t: u64, key: u8) -> bool
        requires { key < 16 }
        ensures { result ≡ held_at self.now t key }
    {
        keys_at(self.entries.as_slice(), t).contains(key)
    }

    // The stretch of cycles about cycle t, from the last event at or before it up to the next one.
    pub(crate) fn stretch_about(&self, t: u64) -> Stretch
        ensures { HoldsIn self.now result }
    {
        stretch_in(self.entries.as_slice(), t)
    }

    // A copy of the script.
    pub(crate) fn copy(&self, alloc: Global) -> Result<Script, AllocError>
        ensures { IfOk result (λ script. script ≡ self.now) }
    {
        Ok(Script {
            entries: Vec::from_slice(alloc, self.entries.as_slice())?,
        })
    }

    // The cycle of the last event, or 0.
    fn last_cycle(&self) -> u32
        ensures { result ≡ last_cycle self.now }
    {
        match self.entries.last() {
            Some(entry) => entry.cycle,
            None => 0,
        }
    }

    // Adds an event behind the others.
    fn push(&mut self, event: Event) -> Result<(), AllocError>
        requires { last_cycle self.old ≤ event.cycle }
        ensures ok { OnOk result (self.new ≡ self.old ++ event ∷ []) }
        ensures err { OnErr result (self.new ≡ self.old) }
    {
        let keys = self.last_keys().after(event.key, event.down);
        self.entries.push(Entry {
            cycle: event.cycle,
            key: event.key,
            down: event.down,
            keys,
        })?;
        Ok(())
    }

    // Adds the event that a line says, if it says one, behind the others.
    fn extend(&mut self, event: Option<Event>) -> Result<(), AllocError>
        requires { ForSome event (λ event. last_cycle self.old ≤ event.cycle) }
        ensures ok { OnOk result (self.new ≡ self.old ++ option_to_list event) }
        ensures err { OnErr result (self.new ≡ self.old) }
    {
        match event {
            Some(event) => self.push(event),
            None => Ok(()),
        }
    }

    // The keys that are down after all events.
    fn last_keys(&self) -> KeySet
        ensures { (k : ℕ) → k < 16 → has_key result.bits k ≡ held_after self.now k }
    {
        match self.entries.last() {
            Some(entry) => entry.keys,
            None => KeySet::empty(),
        }
    }
}

// The keys that are held down at cycle t: those after the last entry at or before it.
fn keys_at(entries: &[Entry], t: u64) -> KeySet
    requires { AreSearchable entries.now }
    ensures { (k : ℕ) → k < 16
        → has_key result.bits k ≡ held_at (map event_of_entry entries.now) t k }
{
    keys_after(entries, count_until(entries, t))
}

// The stretch from the last entry at or before cycle t up to the next one.
fn stretch_in(entries: &[Entry], t: u64) -> Stretch
    requires { AreSearchable entries.now }
    ensures { HoldsIn (map event_of_entry entries.now) result }
{
    let count = count_until(entries, t);
    Stretch {
        from: start_after(entries, count),
        until: end_after(entries, count),
        keys: keys_after(entries, count),
    }
}

// The keys that are down after so many entries.
fn keys_after(entries: &[Entry], count: usize) -> KeySet
    requires searchable { AreSearchable entries.now }
    requires within { count ≤ length entries.now }
    ensures { (k : ℕ) → k < 16
        → has_key result.bits k ≡ held_after (map event_of_entry (take count entries.now)) k }
{
    match count {
        0 => KeySet::empty(),
        count => entries[count - 1].keys,
    }
}

// The first cycle at which so many entries stand at or before it.
fn start_after(entries: &[Entry], count: usize) -> u64
    requires in_order { IsNonDecreasingBy (λ entry. entry.cycle) entries.now }
    requires within { count ≤ length entries.now }
    ensures { (t : ℕ) → result ≤ t
        → AllWithin (λ entry. nat_le entry.cycle t ≡ true) entries.now 0 count }
{
    match count {
        0 => 0,
        count => u64::from(entries[count - 1].cycle),
    }
}

// The cycle of the entry behind so many, or the greatest number.
fn end_after(entries: &[Entry], count: usize) -> u64
    requires in_order { IsNonDecreasingBy (λ entry. entry.cycle) entries.now }
    ensures { (t : ℕ) → t < result
        → AllWithin (λ entry. nat_le entry.cycle t ≡ false) entries.now count (length entries.now) }
{
    match entries.get(count) {
        Some(entry) => u64::from(entry.cycle),
        None => u64::MAX,
    }
}

// How many entries stand at or before cycle t, found by halving.
fn count_until(entries: &[Entry], t: u64) -> usize
    requires { IsNonDecreasingBy (λ entry. entry.cycle) entries.now }
    ensures within { result ≤ length entries.now }
    ensures past { AllWithin (λ entry. nat_le entry.cycle t ≡ true) entries.now 0 result }
    ensures future { AllWithin (λ entry. nat_le entry.cycle t ≡ false) entries.now result (length entries.now) }
{
    entries.partition_point(|entry| u64::from(entry.cycle) <= t)
}

/// Reads a key script of at most 1,048,576 bytes (this project's format).
///
/// | A line | Says |
/// |---|---|
/// | no word, or a first word that begins with `#` | nothing |
/// | `CYCLE down KEY` | the key goes down at the machine cycle |
/// | `CYCLE up KEY` | it goes up |
///
/// Lines end with a newline, a carriage return directly before which is dropped; what stands behind the last newline is a line too. Words
/// are separated by spaces and tabs. CYCLE is a decimal number up to 4,000,000,000, and never below that of the event before. KEY is one
/// hexadecimal digit. There are at most 100,000 events. An event may repeat a key's state, and of two events of a key at one cycle the later
/// one counts.
///
/// The answer is the list of the events, or the first fault, which is the first cause in the first faulty line; or memory was wanting.
pub fn read_script(alloc: Global, text: &[u8]) -> Result<Script, ScriptFault>
    requires { length text.now ≤ MOST_TEXT }
    ensures events { IfOk result (λ script. script_of text.now ≡ Ok script) }
    ensures fault { IfErr result
        (λ fault. (fault ≡ ScriptFault.NoMemory) ⊎ (script_of text.now ≡ Err fault)) }
{
    let mut script = Script::empty(alloc);
    let mut number = 0;
    for line in Lines::new(text) {
        number += 1;
        match next_event(&script, line) {
            Ok(event) => script.extend(event)?,
            Err(cause) => return Err(ScriptFault::Fault {
                line: number,
                cause,
            }),
        }
    }
    Ok(script)
}

// What a line says behind the events before it, or the first cause for which it is refused.
#[tactic(auto, unfolding(crate::specs::KeyScript::cause_after))]
fn next_event(before: &Script, line: &[u8]) -> Result<Option<Event>, ScriptCause>
    ensures refused { result_err result ≡ cause_after before.now (said line.now) }
    ensures event { IfOk result (λ event. said line.now ≡ Ok event) }
    ensures in_order { IfOk result
        (λ event. ForSome event (λ event. last_cycle before.now ≤ event.cycle)) }
{
    let Some(event) = read_line(line)? else {
        return Ok(None);
    };
    if event.cycle < before.last_cycle() {
        return Err(ScriptCause::OutOfOrder);
    }
    if before.len() >= MOST_EVENTS {
        return Err(ScriptCause::TooMany);
    }
    Ok(Some(event))
}
