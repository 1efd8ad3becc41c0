//! One line of a key script.

ghost use Rattle.std.specs.Prelude.{◌≡◌, ◌<◌, ◌∷◌, IfOk};
ghost use Rattle.vip_keypad.specs.KeyScript.{cycle_of, direction_of, event_of, key_of, said};

use crate::script::ScriptCause;
use std::marker::Model;
use vip_byte::{MOST_CYCLE, Words, read_decimal};

/// A key goes down, or up, at a machine cycle.
#[derive(Clone, Copy)]
pub struct Event {
    pub cycle: u32,
    pub key: u8,
    pub down: bool,
}

impl Model for Event {
    ghost use Rattle.std.specs.Prelude.{◌<◌};
    ghost use Rattle.machine.specs.Keys.{Event};

    ghost Value = { Event };

    ghost view = { λ inside. record { cycle = inside.cycle; key = inside.key; down = inside.down } };

    ghost invariant = { λ inside. inside.key < 16 };

    ghost inverse = { λ event. record { cycle = event.cycle; key = event.key; down = event.down } };
}

/// What a line says by itself: nothing or an event, or the first cause for which it says neither.
#[tactic(auto, unfolding(crate::specs::KeyScript::said))]
pub fn read_line(line: &[u8]) -> Result<Option<Event>, ScriptCause>
    ensures { result ≡ said line.now }
{
    let mut words = Words::new(line);
    let Some(first) = words.next() else {
        return Ok(None);
    };
    if let [b'#', ..] = first {
        return Ok(None);
    }
    let event = read_event(first, words)?;
    Ok(Some(event))
}

// The event of a line that begins with this word and goes on with these.
#[tactic(auto, unfolding(crate::specs::KeyScript::event_of))]
fn read_event(first: &[u8], mut words: Words) -> Result<Event, ScriptCause>
    ensures { result ≡ event_of (first.now ∷ words.entry) }
{
    let Some(second) = words.next() else {
        return Err(ScriptCause::BadLine);
    };
    let Some(third) = words.next() else {
        return Err(ScriptCause::BadLine);
    };
    if words.next().is_some() {
        return Err(ScriptCause::BadLine);
    }
    let down = read_direction(second)?;
    let cycle = read_cycle(first)?;
    let key = read_key(third)?;
    Ok(Event { cycle, key, down })
}

fn read_direction(word: &[u8]) -> Result<bool, ScriptCause>
    ensures { result ≡ direction_of word.now }
{
    match word {
        b"down" => Ok(true),
        b"up" => Ok(false),
        _ => Err(ScriptCause::BadLine),
    }
}

fn read_cycle(word: &[u8]) -> Result<u32, ScriptCause>
    ensures { result ≡ cycle_of word.now }
{
    match read_decimal(word, MOST_CYCLE) {
        Ok(cycle) => Ok(cycle as u32),
        Err(_) => Err(ScriptCause::BadCycle),
    }
}

fn read_key(word: &[u8]) -> Result<u8, ScriptCause>
    ensures value { result ≡ key_of word.now }
    ensures within { IfOk result (λ key. key < 16) }
{
    match word {
        [digit] => match char::from(*digit).to_digit(16) {
            Some(key) => Ok(key as u8),
            None => Err(ScriptCause::BadKey),
        },
        _ => Err(ScriptCause::BadKey),
    }
}
