//! The limit of a run.

ghost use Rattle.std.specs.Prelude.{◌≡◌, ◌≤◌, min};
ghost use Rattle.std.specs.Result.{result_ok};
ghost use Rattle.vip_byte.specs.Number.{decimal_number, most_cycles};

use std::marker::Model;
use vip_byte::{MOST_CYCLE, read_decimal};

/// The machine cycle up to which a run goes, at most `MOST_CYCLE`. A contract sees it as the number.
#[derive(Clone, Copy)]
pub struct Limit(u64);

impl Model for Limit {
    ghost use Rattle.std.specs.Prelude.{ℕ, ◌≤◌};
    ghost use Rattle.vip_byte.specs.Number.{most_cycles};

    ghost Value = { ℕ };

    ghost view = { λ limit. limit.0 };

    ghost invariant = { λ limit. limit.0 ≤ most_cycles };

    ghost inverse = { λ cycles. record { 0 = cycles } };
}

impl Limit {
    /// The limit that decimal digits say. A number above the most is refused, as is a text that is none.
    pub fn read(text: &[u8]) -> Option<Limit>
        ensures { result ≡ result_ok (decimal_number text.now most_cycles) }
    {
        let cycles = read_decimal(text, MOST_CYCLE).ok()?;
        Some(Limit(cycles))
    }

    /// A cycle as a limit, or the most where it is later.
    pub fn up_to(cycle: u64) -> Limit
        ensures { result ≡ min cycle most_cycles }
    {
        Limit(cycle.min(MOST_CYCLE))
    }

    /// The cycle.
    pub fn cycles(self) -> u64
        ensures value { result ≡ self }
        ensures bound { result ≤ most_cycles }
    {
        self.0
    }
}
