//! The blocks of a case: a line, and the lines behind it that say more of it. The head of `data/cases.txt` says what they mean.

use crate::pattern::number;
use hex::FromHex;

/// A line with the lines behind it that say more of it.
#[derive(Clone, Copy)]
pub struct Block<'a> {
    /// The first word of the line, and what is behind it.
    pub word: &'a str,
    pub rest: &'a str,
    /// The lines behind it.
    pub more: &'a str,
    /// All lines.
    pub text: &'a str,
}

impl Block<'_> {
    /// It says what is due, and not how the case is run.
    pub fn is_due(&self) -> bool {
        !matches!(self.word, "" | "words" | "both" | "fails" | "file")
    }
}

/// The first word of a line and what is behind it: nothing, where the line is empty or begins with #.
pub fn words_of(line: &str) -> (&str, &str) {
    let line = line.trim_start();
    if line.starts_with('#') {
        return ("", "");
    }
    line.split_once(' ').unwrap_or((line, ""))
}

/// Whether a line with the second word says more of one with the first.
fn continues(first: &str, word: &str) -> bool {
    match first {
        "file" | "err" | "out" => is_piece(word),
        "screen" => matches!(word, "" | "row"),
        "pictures" => matches!(word, "" | "row" | "pictures"),
        "last" => matches!(word, "" | "last"),
        _ => word.is_empty(),
    }
}

/// Whether a line with the word gives bytes, or says nothing.
fn is_piece(word: &str) -> bool {
    matches!(word, "" | "hex" | "text" | "part" | "repeat")
}

/// How many bytes a block has: the line of its word and those that say more of it.
fn length_of(text: &str, first: &str) -> usize {
    let mut length = 0usize;
    for line in text.lines() {
        let (word, _) = words_of(line);
        if length > 0 && !continues(first, word) {
            break;
        }
        length = length.saturating_add(line.len()).saturating_add(1);
    }
    length.min(text.len())
}

/// The first block of a text and what is behind it. None where the text is empty.
pub fn split_block(text: &str) -> Option<(Block<'_>, &str)> {
    if text.is_empty() {
        return None;
    }
    let (line, _) = text.split_once('\n').unwrap_or((text, ""));
    let (word, rest) = words_of(line);
    let length = length_of(text, word);
    let start = line.len().saturating_add(1).min(length);
    let block = Block {
        word,
        rest,
        more: text.get(start..length)?,
        text: text.get(..length)?,
    };
    Some((block, text.get(length..)?))
}

/// Adds the bytes that hexadecimal words give. False where one of them gives none, or there is no memory.
pub fn push_hex(bytes: &mut Vec<u8>, text: &str) -> bool {
    let mut all = true;
    for word in text.split_whitespace() {
        for digits in word.as_bytes().chunks(2) {
            all = push_byte(bytes, digits) && all;
        }
    }
    all
}

fn push_byte(bytes: &mut Vec<u8>, digits: &[u8]) -> bool {
    match <[u8; 1]>::from_hex(digits) {
        Ok(byte) => bytes.extend_from_slice(&byte).is_ok(),
        Err(_) => false,
    }
}

/// Adds the bytes of the lines behind another. False where one of them gives none, or there is no memory.
pub fn push_pieces(bytes: &mut Vec<u8>, lines: &str) -> bool {
    let mut all = true;
    for line in lines.lines() {
        let (word, rest) = words_of(line);
        all = push_piece(bytes, word, rest) && all;
    }
    all
}

fn push_piece(bytes: &mut Vec<u8>, word: &str, rest: &str) -> bool {
    match word {
        "" => true,
        "hex" => push_hex(bytes, rest),
        "repeat" => push_repeated(bytes, rest),
        "text" => bytes.extend_from_slice(rest.as_bytes()).is_ok() && bytes.push(b'\n').is_ok(),
        "part" => bytes.extend_from_slice(rest.as_bytes()).is_ok(),
        _ => false,
    }
}

fn push_repeated(bytes: &mut Vec<u8>, text: &str) -> bool {
    let (count, digits) = text.split_once(' ').unwrap_or(("", ""));
    let Some(count) = number(count) else {
        return false;
    };
    let mut all = true;
    for _ in 0..count {
        all = push_hex(bytes, digits) && all;
    }
    all
}
