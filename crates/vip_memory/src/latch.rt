//! The boot latch.

ghost use Rattle.std.specs.Prelude.{◌≡◌, false};
ghost use Rattle.machine.specs.Memory.{mapped_address};

use std::marker::Model;

/// The boot latch, seen as whether it is set.
#[derive(Drop)]
pub struct Latch {
    // what it sets in each address: 8000 while it is set, else nothing
    bits: u16,
}

impl Model for Latch {
    ghost use Rattle.std.specs.Prelude.{◌≡◌, ◌⊎◌, ◌==◌, Bool};

    ghost Value = { Bool };

    ghost view = { λ a. a.bits == 0x8000 };

    ghost invariant = { λ a. (a.bits ≡ 0) ⊎ (a.bits ≡ 0x8000) };
}

impl Latch {
    /// A latch that is set, or clear.
    #[inline(always)]
    pub fn of(set: bool) -> Latch
        ensures { result ≡ set }
    {
        Latch {
            bits: if set { 0x8000 } else { 0 },
        }
    }

    /// Clears it.
    pub fn clear(&mut self)
        ensures { self.new ≡ false }
    {
        self.bits = 0;
    }

    /// Whether it is set.
    #[inline(always)]
    pub fn is_set(&self) -> bool
        ensures { result ≡ self.now }
    {
        self.bits == 0x8000
    }

    /// The address that is read in place of `address`: with its highest bit set while the latch is set.
    #[inline(always)]
    pub fn place(&self, address: u16) -> u16
        ensures { result ≡ mapped_address self.now address }
    {
        address | self.bits
    }
}
