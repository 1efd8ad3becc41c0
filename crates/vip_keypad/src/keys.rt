//! What holds keys down: a key script, or the set of the keys that are held now.

ghost use Rattle.std.specs.Prelude.{◌≡◌, ◌<◌, List};
ghost use Rattle.machine.specs.Keys.{Event, held_at};
ghost use Rattle.vip_keypad.specs.Stretches.{HoldsIn};

use crate::key_set::KeySet;
use crate::script::Script;
use crate::stretch::Stretch;

/// What holds keys down at each machine cycle, as a script does.
///
/// Clauses see the events of a script that holds the same keys down.
pub trait Keys: Drop {
    ghost events: { Self → List Event };

    /// Whether the key is held down at machine cycle t.
    fn is_held(&self, t: u64, key: u8) -> bool
        requires { key < 16 }
        ensures { result ≡ held_at (events self.now) t key };

    /// Cycles about cycle t in which the same keys are held down, and these.
    fn stretch_at(&self, t: u64) -> Stretch
        ensures { HoldsIn (events self.now) result };
}

impl Keys for Script {
    ghost events = { λ script. script };

    fn is_held(&self, t: u64, key: u8) -> bool {
        self.is_down(t, key)
    }

    fn stretch_at(&self, t: u64) -> Stretch {
        self.stretch_about(t)
    }
}

impl Keys for KeySet {
    ghost use Rattle.vip_keypad.specs.Held.{held_events};

    ghost events = { λ keys. held_events keys.bits };

    fn is_held(&self, _t: u64, key: u8) -> bool {
        self.contains(key)
    }

    fn stretch_at(&self, _t: u64) -> Stretch {
        Stretch {
            from: 0,
            until: u64::MAX,
            keys: *self,
        }
    }
}
