//! A set of the sixteen keys.

ghost use Rattle.std.specs.Prelude.{◌≡◌, ℕ, ◌==◌, ◌<◌, if◌then◌else◌, false};
ghost use Rattle.vip_keypad.specs.KeySet.{has_key};

/// Bit k says whether key k is in the set.
#[derive(Clone, Copy)]
pub struct KeySet {
    pub bits: u16,
}

impl KeySet {
    /// No key is in it.
    pub fn empty() -> KeySet
        ensures { (k : ℕ) → has_key result.bits k ≡ false }
    {
        KeySet { bits: 0 }
    }

    /// Whether the key is in the set.
    pub fn contains(self, key: u8) -> bool
        requires { key < 16 }
        ensures { result ≡ has_key self.bits key }
    {
        self.bits >> key & 1 == 1
    }

    /// The set after the key went down, which puts it in, or up, which takes it out.
    pub fn after(self, key: u8, down: bool) -> KeySet
        requires { key < 16 }
        ensures { (k : ℕ) → k < 16 → has_key result.bits k ≡ (if key == k then down else has_key self.bits k) }
    {
        let bit = 1 << key;
        KeySet {
            bits: if down {
                self.bits | bit
            } else {
                self.bits & !bit
            },
        }
    }
}
