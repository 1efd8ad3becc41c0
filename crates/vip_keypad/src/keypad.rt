//! The keypad: what holds keys down, and the key that the processor selected.

ghost use Rattle.std.specs.Prelude.{◌≡◌, ◌%◌, ◌<◌, IfOk};
ghost use Rattle.machine.specs.Keys.{held_at};

use crate::keys::Keys;
use crate::script::Script;
use crate::stretch::Stretch;
use std::alloc::{AllocError, Global};
use std::marker::Model;

/// What holds keys down, a script where nothing else is said, and the number of the key that port 2 latched.
#[derive(Drop)]
pub struct Keypad<K: Keys = Script> {
    keys: K,
    latched: u8,
    // the cycles in which the keys that were found last stay the same
    stretch: Stretch,
}

impl<K: Keys> Model for Keypad<K> {
    ghost use Rattle.std.specs.Prelude.{◌<◌};
    ghost use Rattle.vip_keypad.specs.KeypadState.{KeypadState};
    ghost use Rattle.vip_keypad.specs.Stretches.{HoldsIn};

    ghost Value = { KeypadState };

    ghost view = { λ inside. record { script = K.events inside.keys; latched = inside.latched } };

    ghost invariant = { λ inside. record { latched : inside.latched < 16; stretch : HoldsIn (K.events inside.keys) inside.stretch } };
}

impl Keypad<Script> {
    /// A keypad with a copy of the script, as it is after reset: the latched key is 0 (this project's profile).
    pub fn new(alloc: Global, script: &Script) -> Result<Keypad<Script>, AllocError>
        ensures { IfOk result (λ keypad. keypad ≡ record { script = script.now; latched = 0 }) }
    {
        Ok(Keypad {
            keys: script.copy(alloc)?,
            latched: 0,
            stretch: Stretch::empty(),
        })
    }
}

impl<K: Keys> Keypad<K> {
    /// A keypad with these keys and a latched key, below 16. It needs no allocator.
    #[inline(always)]
    pub fn of(keys: K, latched: u8) -> Keypad<K>
        requires { latched < 16 }
        ensures { result ≡ record { script = K.events keys; latched = latched } }
    {
        Keypad {
            keys,
            latched,
            stretch: Stretch::empty(),
        }
    }

    /// Whether the key is held down at machine cycle t, counted from reset.
    pub fn down(&self, t: u64, key: u8) -> bool
        requires { key < 16 }
        ensures { result ≡ held_at self.now.script t key }
    {
        if self.stretch.contains(t) {
            self.stretch.keys.contains(key)
        } else {
            self.keys.is_held(t, key)
        }
    }

    /// The flag EF3 in machine cycle t: whether the latched key is held down. The keys about t are searched for only where t lies
    /// outside the cycles in which the last answer stays the same; nothing else changes.
    pub fn ef3(&mut self, t: u64) -> bool
        ensures down { result ≡ held_at self.old.script t self.old.latched }
        ensures kept { self.new ≡ self.old }
    {
        if !self.stretch.contains(t) {
            self.stretch = self.keys.stretch_at(t);
        }
        self.down(t, self.latched)
    }

    /// Latches the low four bits of a byte as the key number, as OUT 2 does.
    pub fn latch(&mut self, value: u8)
        ensures { self.new ≡ record self.old { latched = value % 16 } }
    {
        self.latched = vip_byte::low(value);
    }

    /// The number of the key that was latched last.
    pub fn latched(&self) -> u8
        ensures value { result ≡ self.now.latched }
        ensures within { result < 16 }
    {
        self.latched
    }
}
