//! The schedule that a number gives.

ghost use Rattle.std.specs.Prelude.{◌≡◌};
ghost use Rattle.vip_link.specs.Schedules.{next_random, side_by};

use crate::side::Side;

/// The linear congruence of the random numbers.
const FACTOR: u64 = 1_664_525;

const SUMMAND: u64 = 1_013_904_223;

const MODULUS: u64 = 1 << 32;

/// The random number that follows one: the next of a linear congruence modulo 2 to the 32, by which schedules and the demonstration games are made.
pub fn next_random(x: u32) -> u32
    ensures { result ≡ next_random x }
{
    ((u64::from(x) * FACTOR + SUMMAND) % MODULUS) as u32
}

/// The side that moves by a random number: A where its high half is even.
pub(crate) fn side_by(x: u32) -> Side
    ensures { result ≡ side_by x }
{
    if x / 65_536 % 2 == 0 {
        Side::A
    } else {
        Side::B
    }
}
