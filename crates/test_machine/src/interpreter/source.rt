//! The form of the interpreter's source: what is written in mnemonics, what is a table, where its labels lie, and which bytes the text of each part gives.

ghost use Rattle.std.specs.Prelude.{◌≤◌, IfOk, vec_len};

use crate::interpreter::watch::KeyTests;
use anyhow::Context;
use asm_core::{Assembly, assemble, next_line};
use asm_lex::{Isa, Symbols, Word, line};
use chip8_image::{ENTRY, FETCH, HALT, Part, TALL_ENTRY, TALL_FETCH, TALL_HALT, part};
use chip8_lang::Edition;
use chip8_source::{source, tall_source};
use std::alloc::{AllocError, Global};

/// The first address of the font, and the first one behind it.
const FONT: u16 = 0x8700;

const FONT_END: u16 = 0x8750;

/// The bytes of the dispatch table.
const TABLE_SIZE: u16 = 32;

/// The labels in the dispatch table, by the first digit of an opcode.
const ROUTINES: &[&str] = &[
    "system",
    "jump",
    "call",
    "skip_eq",
    "skip_ne",
    "skip_same",
    "load",
    "add",
    "arith",
    "skip_differ",
    "index",
    "jump_plus",
    "random",
    "draw",
    "key_skip",
    "misc",
];

/// GHI RC, SHR, PHI RC, GLO RC, SHRC, PLO RC: a shift of RC to the right.
const SHIFT: [u8; 6] = [0x9C, 0xF6, 0xBC, 0x8C, 0x76, 0xAC];

/// The labels of the shifts, in order.
const SHIFTS: &[&str] = &[
    "shift7", "shift6", "shift5", "shift4", "shift3", "shift2", "shift1",
];

/// The labels whose addresses `chip8_image` has, in the order of these addresses' names there.
const LABELS: &[&str] = &["fetch", "halt", "entry"];

/// The headings of the texts of the parts, in order. Each stands at the head of the one file that has the part's text.
const HEADINGS: &[(&str, Part)] = &[
    ("; FETCH: ", Part::Fetch),
    ("; ARITH: ", Part::Arith),
    ("; MEMORY: ", Part::Memory),
    ("; SPRITE: ", Part::Sprite),
    ("; TIMER: ", Part::Timer),
    ("; KEYS: ", Part::Keys),
    ("; THE FONT, ", Part::Other),
];

/// What is found in a source.
#[derive(Clone, Copy)]
pub struct Form {
    /// Lines with an instruction.
    pub instructions: u64,
    /// Lines with DB, DW or DS that give a byte outside the font and the dispatch table.
    pub stray: u64,
    /// Words of the dispatch table that are those of its routines.
    pub routines: u64,
    /// Shifts of a sprite's row that stand in line, one behind the other.
    pub shifts: u64,
    /// Labels that have the addresses of `chip8_image`.
    pub labels: u64,
    /// Addresses whose byte isn't given by the text of the part that they belong to.
    pub misplaced: u64,
    /// Where keys are tested.
    pub key_tests: KeyTests,
}

/// The word of a line.
fn word_of(alloc: Global, bytes: &[u8]) -> Option<Word> {
    match line(Isa::Cdp1802, &Symbols::new(alloc), bytes) {
        Ok(line) => line.word,
        Err(_) => None,
    }
}

/// The addresses of the labels of an edition.
fn addresses_of(edition: Edition) -> [u16; 3] {
    match edition {
        Edition::Usual => [FETCH, HALT, ENTRY],
        Edition::Tall => [TALL_FETCH, TALL_HALT, TALL_ENTRY],
    }
}

/// The part whose text begins with this line.
fn heading_of(bytes: &[u8]) -> Option<Part> {
    for (heading, part) in HEADINGS {
        if bytes.starts_with(heading.as_bytes()) {
            return Some(*part);
        }
    }
    None
}

/// The part whose text gives the byte at an address. The dispatch table, which is no code, stands with the fetch.
fn part_due(address: u16, table: u16) -> Option<Part> {
    let in_table = address.wrapping_sub(table) < TABLE_SIZE;
    let in_font = (FONT..FONT_END).contains(&address);
    match part(address) {
        Part::Other if in_table => Some(Part::Fetch),
        Part::Other if !in_font => None,
        part => Some(part),
    }
}

/// The source of an edition.
fn text_of(alloc: Global, edition: Edition) -> Result<Vec<u8>, AllocError>
    ensures { IfOk result (λ text. vec_len text ≤ 1048576) }
{
    match edition {
        Edition::Usual => source(alloc),
        Edition::Tall => tall_source(alloc),
    }
}

/// What is found in the source of an edition.
pub fn form_of(alloc: Global, edition: Edition) -> anyhow::Result<Form> {
    let source = Source::new(alloc, edition)?;
    source.form(alloc).context("a label is missing")
}

/// A source and its assembly.
#[derive(Drop)]
struct Source {
    edition: Edition,
    text: Vec<u8>,
    made: Assembly,
}

impl Source {
    /// Those of an edition.
    fn new(alloc: Global, edition: Edition) -> anyhow::Result<Source> {
        let text = text_of(alloc, edition)?;
        let made = assemble(alloc, Isa::Cdp1802, &text)?;
        Ok(Source {
            edition,
            text,
            made,
        })
    }

    // None where a label is missing.
    fn form(&self, alloc: Global) -> Option<Form> {
        let table = self.made.symbol("table")?;
        let key_tests = KeyTests {
            first: self.made.symbol("key_test")?,
            last: self.made.symbol("key_held")?,
        };
        let (instructions, stray) = self.lines(alloc, table);
        Some(Form {
            instructions,
            stray,
            routines: self.routines(table),
            shifts: self.shifts(),
            labels: self.labels(),
            misplaced: self.count_misplaced(table),
            key_tests,
        })
    }

    // How many lines have an instruction, and how many give bytes by DB, DW or DS elsewhere.
    fn lines(&self, alloc: Global, table: u16) -> (u64, u64) {
        let mut instructions = 0u64;
        let mut stray = 0u64;
        let mut rest = self.text.as_slice();
        for number in 1..u32::MAX {
            let Some((bytes, more)) = next_line(rest) else {
                break;
            };
            rest = more;
            match word_of(alloc, bytes) {
                Some(Word::Code(_)) => instructions = instructions.saturating_add(1),
                Some(Word::Db | Word::Dw | Word::Ds) if self.is_stray(number, table) => {
                    stray = stray.saturating_add(1);
                }
                _ => {}
            }
        }
        (instructions, stray)
    }

    // A line gives a byte outside the font and the dispatch table.
    fn is_stray(&self, number: u32, table: u16) -> bool {
        (0..=u16::MAX).any(|address| {
            let in_font = (FONT..FONT_END).contains(&address);
            let in_table = address.wrapping_sub(table) < TABLE_SIZE;
            !in_font && !in_table && self.made.line_of(address) == Some(number)
        })
    }

    // These two bytes lie at an address.
    fn has_word(&self, at: u16, word: u16) -> bool {
        let [high, low] = word.to_be_bytes();
        self.made.byte(at) == Some(high) && self.made.byte(at.wrapping_add(1)) == Some(low)
    }

    fn routines(&self, table: u16) -> u64 {
        let mut count = 0u64;
        let mut at = table;
        for name in ROUTINES {
            if let Some(routine) = self.made.symbol(*name)
                && self.has_word(at, routine)
            {
                count = count.saturating_add(1);
            }
            at = at.wrapping_add(2);
        }
        count
    }

    fn shifts(&self) -> u64 {
        let mut count = 0u64;
        let mut at = self.made.symbol(SHIFTS[0]).unwrap_or(0);
        for name in SHIFTS {
            if self.is_shift(at) && self.made.symbol(*name) == Some(at) {
                count = count.saturating_add(1);
            }
            at = at.wrapping_add(6);
        }
        count
    }

    fn labels(&self) -> u64 {
        let mut count = 0u64;
        for (name, address) in LABELS.iter().zip(addresses_of(self.edition)) {
            if self.made.symbol(*name) == Some(address) {
                count = count.saturating_add(1);
            }
        }
        count
    }

    // The part in whose text a line stands: that of the last heading before it.
    fn part_of_line(&self, number: u32) -> Option<Part> {
        let mut found = None;
        let mut rest = self.text.as_slice();
        for _line in 1..number {
            let Some((bytes, more)) = next_line(rest) else {
                break;
            };
            rest = more;
            found = heading_of(bytes).or(found);
        }
        found
    }

    // How many addresses have a byte of another part's text, or none where one is due.
    fn count_misplaced(&self, table: u16) -> u64 {
        let mut count = 0u64;
        for address in 0..=u16::MAX {
            let given = match self.made.line_of(address) {
                Some(number) => self.part_of_line(number),
                None => None,
            };
            if given != part_due(address, table) {
                count = count.saturating_add(1);
            }
        }
        count
    }

    // The bytes from an address on are those of a shift.
    fn is_shift(&self, at: u16) -> bool {
        SHIFT.iter().zip(0u16..6).all(|(byte, offset)| self.made.byte(at.wrapping_add(offset))
            == Some(*byte))
    }
}
