//! Whether what is due to a case came.

use crate::block::{Block, push_hex, push_pieces, words_of};
use crate::pattern::{Range, fits, number};
use crate::run::Run;
use crate::screen::{Pictures, Screen};
use std::alloc::Global;

/// Whether what a block says is due came. A block that says something else is never met.
pub fn is_met(alloc: Global, block: &Block<'_>, run: &Run) -> bool {
    match block.word {
        "err" => is_all(alloc, block.more, run.err.bytes()),
        "out" => is_all(alloc, block.more, run.out.bytes()),
        "from" => is_placed(alloc, block.rest, run.out.bytes()),
        _ => is_said(block, run).unwrap_or(false),
    }
}

/// The same of a block without bytes.
fn is_said(block: &Block<'_>, run: &Run) -> Option<bool> {
    let rest = block.rest;
    match block.word {
        "status" => has_number(rest, u64::from(run.status)),
        "report" => Some(is_report(rest, run.err.bytes())),
        "records" => Some(Range::read(rest)?.contains(run.records()) && run.puts_records()),
        "last" => Some(is_last(block.text, run)),
        "line" => has_line(rest, run),
        "screen" => Some(Screen::read(block.more)?.ends(run.out.bytes(), run.height)),
        "pictures" => shows(block, run),
        what => Some(Range::read(rest)?.contains(run.count(what)?)),
    }
}

// These bytes are those of the lines.
fn is_all(alloc: Global, lines: &str, came: &[u8]) -> bool {
    let mut bytes = Vec::new(alloc);
    push_pieces(&mut bytes, lines) && came == bytes.as_slice()
}

// The output has these bytes from this one on, counted from 0.
fn is_placed(alloc: Global, text: &str, out: &[u8]) -> bool {
    let (place, digits) = text.split_once(' ').unwrap_or((text, ""));
    let mut bytes = Vec::new(alloc);
    if !push_hex(&mut bytes, digits) {
        return false;
    }
    match number(place) {
        Some(place) => out.get(place as usize..).unwrap_or(b"").starts_with(&bytes),
        None => false,
    }
}

// One of these numbers is this one.
fn has_number(text: &str, came: u64) -> Option<bool> {
    let mut has = false;
    for word in text.split_whitespace() {
        has |= number(word)? == came;
    }
    Some(has)
}

// The report is this line, or none where the text is empty.
fn is_report(text: &str, report: &[u8]) -> bool {
    match report.strip_suffix(b"\n") {
        Some(line) => !text.is_empty() && line == text.as_bytes(),
        None => text.is_empty() && report.is_empty(),
    }
}

// The last record is that of one of these lines.
fn is_last(lines: &str, run: &Run) -> bool {
    let Some(record) = run.last_record() else {
        return false;
    };
    for line in lines.lines() {
        let (word, rest) = words_of(line);
        if word == "last" && fits(rest, record) {
            return true;
        }
    }
    false
}

// A line of the output, counted from 1, is the one that is due.
fn has_line(text: &str, run: &Run) -> Option<bool> {
    let (n, due) = text.split_once(' ')?;
    let place = number(n)?.saturating_sub(1);
    match run.lines().nth(place as usize) {
        Some(line) => Some(fits(due, line)),
        None => Some(false),
    }
}

// The output is so many pictures of each of these screens, in order, one put each.
fn shows(block: &Block<'_>, run: &Run) -> Option<bool> {
    let mut pictures = Pictures::of(run.out.bytes(), run.height);
    let (_, screens) = block.text.split_once("pictures ")?;
    for screen in screens.split("pictures ") {
        let (count, rows) = screen.split_once('\n')?;
        pictures.take(&Screen::read(rows)?, number(count)?);
    }
    Some(pictures.are_all(run.out.calls()))
}
