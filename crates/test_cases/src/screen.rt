//! Screens and pictures by their lit rows.

use crate::block::words_of;
use crate::pattern::number;
use hex::FromHex;

/// The rows of the greatest screen.
const MOST_ROWS: usize = 64;

/// The bytes of a row in the text of a screen.
const ROW: usize = 65;

/// The lines of a picture.
const LINES: usize = 128;

/// What a picture in the form P4 of PBM begins with.
const HEAD: &[u8] = b"P4\n64 128\n";

/// The pixels of a screen: eight bytes a row, the leftmost pixel the highest bit.
#[derive(Clone, Copy)]
pub struct Screen {
    rows: [[u8; 8]; MOST_ROWS],
}

impl Screen {
    /// A screen on which nothing is lit.
    const DARK: Screen = Screen {
        rows: [[0; 8]; MOST_ROWS],
    };

    /// The screen of some rows, a line each.
    pub fn read(lines: &str) -> Option<Screen> {
        let mut screen = Screen::DARK;
        for line in lines.lines() {
            match words_of(line) {
                ("row", rest) => screen.set(rest)?,
                ("", _) => {}
                _ => return None,
            }
        }
        Some(screen)
    }

    /// Puts pixels into a row: its number, and their digits. None where there is no such row.
    fn set(&mut self, text: &str) -> Option<()> {
        let (row, pixels) = text.split_once(' ')?;
        *self.rows.get_mut(number(row)? as usize)? = <[u8; 8]>::from_hex(pixels).ok()?;
        Some(())
    }

    /// Whether bytes end with the text of the screen, which has so many rows.
    pub fn ends(&self, bytes: &[u8], height: usize) -> bool {
        let size = height.saturating_mul(ROW);
        let Some(start) = bytes.len().checked_sub(size) else {
            return false;
        };
        for (text, row) in bytes[start..].chunks(ROW).zip(self.rows.iter()) {
            if !is_row(text, row) {
                return false;
            }
        }
        true
    }
}

/// Whether this is the text of a row.
fn is_row(text: &[u8], row: &[u8; 8]) -> bool {
    for (place, byte) in text.iter().enumerate() {
        let due = match row.get(place / 8) {
            Some(dots) if dots & (0x80 >> (place % 8)) != 0 => b'#',
            Some(_) => b'.',
            None => b'\n',
        };
        if *byte != due {
            return false;
        }
    }
    true
}

/// What is left of an output of pictures, and how many came.
#[derive(Clone, Copy)]
pub struct Pictures<'a> {
    rest: &'a [u8],
    height: usize,
    count: u64,
    /// One that was due didn't come.
    wrong: bool,
}

impl<'a> Pictures<'a> {
    /// An output, from a screen with so many rows.
    pub fn of(rest: &'a [u8], height: usize) -> Pictures<'a> {
        Pictures {
            rest,
            height,
            count: 0,
            wrong: false,
        }
    }

    /// Takes so many pictures of a screen.
    pub fn take(&mut self, screen: &Screen, count: u64) {
        for _ in 0..count {
            self.take_one(screen);
            self.count = self.count.saturating_add(1);
        }
    }

    // Takes a picture, of which each row is as high as fits.
    fn take_one(&mut self, screen: &Screen) {
        self.take_bytes(HEAD);
        for row in screen.rows.iter().take(self.height) {
            for _line in 0..LINES / self.height.max(1) {
                self.take_bytes(row);
            }
        }
    }

    fn take_bytes(&mut self, bytes: &[u8]) {
        match self.rest.strip_prefix(bytes) {
            Some(rest) => self.rest = rest,
            None => self.wrong = true,
        }
    }

    /// Whether those that were taken are all of the output, one put each.
    pub fn are_all(&self, puts: u32) -> bool {
        !self.wrong && self.rest.is_empty() && self.count == u64::from(puts)
    }
}
