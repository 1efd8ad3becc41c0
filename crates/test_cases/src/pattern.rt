//! Lines and numbers that are due, in which a word `A..B` stands for each number from A to B.

use vip_byte::read_decimal;

/// The greatest number in a text of cases.
const MOST: u64 = 4_294_967_295;

/// The numbers from the least to the most.
#[derive(Clone, Copy)]
pub struct Range {
    least: u64,
    most: u64,
}

impl Range {
    /// The range of a word: a number, or two with `..` between.
    pub fn read(word: &str) -> Option<Range> {
        let (least, most) = word.split_once("..").unwrap_or((word, word));
        Some(Range {
            least: number(least)?,
            most: number(most)?,
        })
    }

    pub fn contains(&self, count: u64) -> bool {
        self.least <= count && count <= self.most
    }
}

/// The decimal number of a word.
pub fn number(word: &str) -> Option<u64> {
    read_decimal(word.as_bytes(), MOST).ok()
}

/// Whether a line is the one that is due.
pub fn fits(due: &str, line: &[u8]) -> bool {
    let mut words = line.split(|byte| *byte == b' ');
    for word in due.split(' ') {
        match words.next() {
            Some(came) if fits_word(word, came) => {}
            _ => return false,
        }
    }
    words.next().is_none()
}

fn fits_word(due: &str, came: &[u8]) -> bool {
    match due.split_once("..") {
        Some((least, most)) => {
            came.iter().all(|byte| byte.is_ascii_hexdigit())
                && is_up_to(least.as_bytes(), came)
                && is_up_to(came, most.as_bytes())
        }
        None => due.as_bytes() == came,
    }
}

// The order of numbers: of decimal ones without leading zeros, and of hexadecimal ones with as many digits.
fn is_up_to(a: &[u8], b: &[u8]) -> bool {
    a.len() < b.len() || a.len() == b.len() && a <= b
}
