//! Games by their opcodes.

use crate::interpreter::numbers::Numbers;
use hex::FromHex;

/// The opcodes of the longest game.
const MOST_OPCODES: usize = 1_616;

/// The opcodes of a game that is cut, which fits into the game memory of both editions.
const CUT_OPCODES: usize = 1_488;

#[derive(Clone, Copy)]
pub struct Game {
    opcodes: [[u8; 2]; MOST_OPCODES],
    count: usize,
}

impl Game {
    /// A game without an opcode.
    pub const NONE: Game = Game {
        opcodes: [[0; 2]; MOST_OPCODES],
        count: 0,
    };

    /// Puts an opcode behind the others. What is longer than the longest game is left out.
    pub fn push(&mut self, opcode: u16) {
        if let Some(place) = self.opcodes.get_mut(self.count) {
            *place = opcode.to_be_bytes();
            self.count = self.count.saturating_add(1);
        }
    }

    /// Puts an opcode behind the others so many times.
    pub fn push_times(&mut self, times: usize, opcode: u16) {
        for _ in 0..times {
            self.push(opcode);
        }
    }

    /// Puts opcodes in hexadecimal behind the others. None where a word is no opcode.
    pub fn push_words(&mut self, words: &str) -> Option<()> {
        for word in words.split_whitespace() {
            let bytes = <[u8; 2]>::from_hex(word).ok()?;
            self.push(u16::from_be_bytes(bytes));
        }
        Some(())
    }

    pub fn bytes(&self) -> &[u8] {
        self.opcodes[..self.count.min(MOST_OPCODES)].as_flattened()
    }
}

/// The demo game of a number, with so many opcodes, which never stops. Opcode 0 points I to the font. The last two jump to the start. The others are
/// chosen by the random numbers behind that of the game.
pub fn demo(number: u32, opcodes: usize) -> Game {
    let mut numbers = Numbers::new(number);
    let mut game = Game::NONE;
    game.push(0xF029);
    for _ in 3..opcodes {
        game.push(numbers.lasting());
    }
    game.push_times(2, 0x1200);
    game
}

impl Numbers {
    /// The opcode that a random number chooses for a demo game.
    fn lasting(&mut self) -> u16 {
        let r = self.next();
        let x = r / 8 % 16 * 256;
        let y = r / 128 % 16 * 16;
        let kk = r / 256 % 256;
        match r % 8 {
            0 => 0x6000 + x + kk,
            1 => 0x7000 + x + kk,
            2 => 0x8004 + x + y,
            3 => 0x8005 + x + y,
            4 => 0x8006 + x + y,
            5 => 0xC000 + x + kk,
            6 => 0x3000 + x + kk,
            _ => 0xD005 + x + y,
        }
    }

    /// A game of opcodes most of which stop nothing, and some of which wait for a key. Its last opcode jumps to the first.
    pub fn game(&mut self) -> Game {
        let mut game = Game::NONE;
        for _ in 1..CUT_OPCODES {
            let opcode = match self.next() % 64 {
                0 => 0xF00A + self.next() % 16 * 256,
                1..=3 => self.opcode(false),
                _ => self.opcode(true),
            };
            game.push(opcode);
        }
        game.push(0x1200);
        game
    }
}
