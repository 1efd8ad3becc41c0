//! A run of the program: what it is given, and what it came to.

use crate::block::{Block, push_hex, push_pieces, split_block};
use crate::pattern::number;
use std::alloc::{AllocError, Global};
use vip_byte::Lines;
use vip_call::vip_main;
use vip_outside::{MemFiles, MemSink};

/// The room for the output of a case, in bytes.
const OUT_ROOM: usize = 6_000_000;

/// The room for its report.
const ERR_ROOM: usize = 200;

/// The words, the files, the output, the report and the status of a run.
#[derive(Drop)]
pub struct Run {
    words: Vec<String>,
    files: MemFiles,
    pub out: MemSink,
    pub err: MemSink,
    pub status: u8,
    /// The rows of the edition's screen.
    pub height: usize,
}

impl Run {
    /// A run without words and files.
    pub fn new(alloc: Global) -> Result<Run, AllocError> {
        let files = MemFiles::new(alloc)?;
        let out = MemSink::new(alloc, OUT_ROOM)?;
        let err = MemSink::new(alloc, ERR_ROOM)?;
        Ok(Run {
            words: Vec::new(alloc),
            files,
            out,
            err,
            status: 0,
            height: 32,
        })
    }

    /// Runs the program as a case says, with `--tall` behind its words where that is asked for. False where it says no such thing, or there is no
    /// memory for what it gives.
    pub fn make(&mut self, alloc: Global, case: &str, tall: bool) -> bool {
        let mut is_right = true;
        let mut rest = case;
        for _block in 0..case.len() {
            let Some((block, behind)) = split_block(rest) else {
                break;
            };
            is_right = self.add(alloc, &block) && is_right;
            rest = behind;
        }
        if tall {
            is_right = self.add_word(alloc, "--tall") && is_right;
        }
        let words = self.words.as_slice();
        let status = vip_main(alloc, words, &mut self.files, &mut self.out, &mut self.err);
        self.status = status.number();
        is_right
    }

    /// Takes a block of the case. One of what is due says nothing here.
    fn add(&mut self, alloc: Global, block: &Block<'_>) -> bool {
        match block.word {
            "words" if !block.rest.is_empty() => self.add_words(alloc, block.rest),
            "fails" => self.fail(block.rest).is_some(),
            "file" => self.add_file(alloc, block),
            _ => true,
        }
    }

    // The words between single blanks, so that an empty one stands between two blanks.
    fn add_words(&mut self, alloc: Global, text: &str) -> bool {
        let mut all = true;
        for word in text.split(' ') {
            all = self.add_word(alloc, word) && all;
        }
        all
    }

    fn add_word(&mut self, alloc: Global, word: &str) -> bool {
        if word == "--tall" {
            self.height = 64;
        }
        match String::from_str(alloc, word) {
            Ok(word) => self.words.push(word).is_ok(),
            Err(_) => false,
        }
    }

    fn add_file(&mut self, alloc: Global, block: &Block<'_>) -> bool {
        let (name, digits) = block.rest.split_once(' ').unwrap_or((block.rest, ""));
        let mut bytes = Vec::new(alloc);
        let is_right = push_hex(&mut bytes, digits) && push_pieces(&mut bytes, block.more);
        is_right && self.files.add(name, &bytes).is_ok()
    }

    // Which read or put fails: `read N`, `out N keeps K` or `err N keeps K`.
    fn fail(&mut self, text: &str) -> Option<()> {
        let (what, rest) = text.split_once(' ')?;
        match what {
            "read" => self.files.fail_at(&[index(rest)?]),
            "out" => self.out.fail_at(&[failing_put(rest)?]),
            "err" => self.err.fail_at(&[failing_put(rest)?]),
            _ => return None,
        }
        Some(())
    }

    /// The lines of the output.
    pub fn lines(&self) -> Lines<'_> {
        Lines::new(self.out.bytes())
    }

    /// How many of these it has: bytes of output and puts to it, and puts to the report.
    pub fn count(&self, what: &str) -> Option<u64> {
        match what {
            "bytes" => Some(self.out.bytes().len() as u64),
            "puts" => Some(u64::from(self.out.calls())),
            "reports" => Some(u64::from(self.err.calls())),
            _ => None,
        }
    }

    /// How many records the output has.
    pub fn records(&self) -> u64 {
        let mut count = 0u64;
        for line in self.lines() {
            count = count.saturating_add(u64::from(is_record(line)));
        }
        count
    }

    /// The last record of the output.
    pub fn last_record(&self) -> Option<&[u8]> {
        let mut last = None;
        for line in self.lines() {
            if is_record(line) {
                last = Some(line);
            }
        }
        last
    }

    /// Each record is one put, and the screen behind them is one.
    pub fn puts_records(&self) -> bool {
        let mut screens = 0u64;
        for line in self.lines() {
            screens = screens.max(u64::from(!is_record(line)));
        }
        u64::from(self.out.calls()) == self.records().saturating_add(screens)
    }
}

// The place, counted from 0, of a number counted from 1.
fn index(word: &str) -> Option<u32> {
    u32::try_from(number(word)?).ok()?.checked_sub(1)
}

// A put that fails, by its place, and how many bytes of it are kept: `N keeps K`.
fn failing_put(text: &str) -> Option<(u32, usize)> {
    let (put, kept) = text.split_once(" keeps ")?;
    Some((index(put)?, number(kept)? as usize))
}

/// Whether a line is none of a screen's.
pub fn is_record(line: &[u8]) -> bool {
    !line.starts_with(b"#") && !line.starts_with(b".")
}
