//! How many moves two joined boards make.

ghost use Rattle.std.specs.Prelude.{◌≡◌, ◌≤◌};
ghost use Rattle.vip_words.specs.Asked.{moves_of};
ghost use Rattle.vip_words.specs.Numbers.{most_moves};

use std::marker::Model;
use vip_byte::read_decimal;

/// A number of moves of joined boards, from 0 to 10,000,000. A contract sees it as the number.
#[derive(Clone, Copy)]
pub struct Moves(u32);

impl Model for Moves {
    ghost use Rattle.std.specs.Prelude.{ℕ, ◌≤◌};
    ghost use Rattle.vip_words.specs.Numbers.{most_moves};

    ghost Value = { ℕ };

    ghost view = { λ moves. moves.0 };

    ghost invariant = { λ moves. moves.0 ≤ most_moves };

    ghost inverse = { λ count. record { 0 = count } };
}

/// The most moves of joined boards.
const MOST_MOVES: u64 = 10_000_000;

impl Moves {
    /// The number that decimal digits say.
    pub fn read(word: &[u8]) -> Option<Moves>
        ensures { result ≡ moves_of word.now }
    {
        let moves = read_decimal(word, MOST_MOVES).ok()?;
        Some(Moves(moves as u32))
    }

    /// The number.
    pub fn count(self) -> u32
        ensures value { result ≡ self }
        ensures bound { result ≤ most_moves }
    {
        self.0
    }
}
