//! Random numbers, and what is chosen by them.

use crate::interpreter::edition::GAME;

/// Random numbers: x(k) = 1664525 x(k - 1) + 1013904223 modulo 2 ^ 32, of which the high half is taken.
#[derive(Drop)]
pub struct Numbers {
    x: u32,
}

impl Numbers {
    /// Those behind x(0).
    pub fn new(x: u32) -> Numbers {
        Numbers { x }
    }

    pub fn next(&mut self) -> u16 {
        self.x = self.x.wrapping_mul(1_664_525).wrapping_add(1_013_904_223);
        (self.x / 65_536) as u16
    }

    pub fn byte(&mut self) -> u8 {
        (self.next() / 256) as u8
    }

    /// An opcode of the language. A calm one leaves memory and the stack alone, and stops nothing.
    pub fn opcode(&mut self, calm: bool) -> u16 {
        let x = self.next() % 16 * 256;
        let y = self.next() % 16 * 16;
        let kk = self.next() % 256;
        let address = GAME + self.next() % 0xB00 / 2 * 2;
        match self.next() % if calm { 24 } else { 32 } {
            0..=4 => 0x6000 + x + kk,
            5 | 6 => 0x7000 + x + kk,
            7..=11 => 0x8000 + x + y + kk % 8,
            12 => 0x800E + x + y,
            13 => 0xC000 + x + kk,
            14 => 0x3000 + x + kk,
            15 => 0x4000 + x + kk,
            16 => 0x5000 + x + y,
            17 => 0x9000 + x + y,
            18 | 19 => 0xA000 + address,
            20 => 0xF029 + x,
            21 => 0xF007 + x,
            22 => 0xF015 + x,
            23 => 0xF018 + x,
            24 => 0xF01E + x,
            25 => 0xD000 + x + y + kk % 16,
            26 => 0xF033 + x,
            27 => 0xF055 + x,
            28 => 0xF065 + x,
            29 => 0x1000 + address,
            30 => 0x2000 + address,
            _ => 0xE000 + x + if kk % 2 == 0 { 0x9E } else { 0xA1 },
        }
    }
}
