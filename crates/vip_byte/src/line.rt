//! The lines of a text, and the words of a line.

ghost use Rattle.std.specs.Prelude.{◌≡◌, ◌==◌, ◌<◌, ◌≤◌, [], ◌∷◌, length, MatchOption};
ghost use Rattle.std.specs.List.{position_or_len, prefix_len};
ghost use Rattle.std.specs.Str.Lines.{lines, strip_carriage_return};
ghost use Rattle.vip_byte.specs.Text.{is_blank, words};

use std::marker::Model;

/// The most bytes of a text that is read: a key script, a text of commands (this project's profile).
pub const MOST_TEXT: usize = 1_048_576;

/// The lines of a text, first to last. A line ends with a newline, which is not part of it, nor is a carriage return directly
/// before that newline. What stands behind the last newline is a line where it is not empty.
#[derive(Drop)]
pub struct Lines<'a> {
    rest: &'a [u8],
}

impl<'a> Model for Lines<'a> {
    ghost use Rattle.std.specs.Prelude.{ℕ, List};
    ghost use Rattle.std.specs.Str.Lines.{lines};

    ghost Value = { List (List ℕ) };

    ghost view = { λ inside. lines inside.rest.now };
}

impl<'a> Lines<'a> {
    /// Those of the text.
    pub fn new(text: &'a [u8]) -> Lines<'a>
        ensures { result ≡ lines text.now }
    {
        Lines { rest: text }
    }
}

impl<'a> Iterator for Lines<'a> {
    ghost use Rattle.std.specs.Iterator.{YieldsFirstRef, item_count};

    type Item = &'a [u8];

    ghost next_gives = { YieldsFirstRef (λ left. left) };

    ghost remaining = { item_count (λ left. left) };

    fn next(&mut self) -> Option<&'a [u8]> {
        if self.rest.is_empty() {
            return None;
        }
        let (line, rest) = first_line(self.rest);
        self.rest = rest;
        Some(line)
    }
}

// The first line of a text, and the text behind it.
fn first_line(text: &[u8]) -> (&[u8], &[u8])
    requires { 0 < length text.now }
    ensures { lines text.now ≡ result.0.now ∷ lines result.1.now }
{
    let (line, rest) = text.split_at(line_len(text));
    match rest {
        [_, after @ ..] => (without_return(line), after),
        [] => (line, rest),
    }
}

// How many bytes come before the first newline.
fn line_len(text: &[u8]) -> usize
    ensures end { result ≡ position_or_len (λ byte. byte == 10) text.now }
    ensures within { result ≤ length text.now }
{
    for (place, byte) in text.iter().enumerate() {
        if *byte == b'\n' {
            return place;
        }
    }
    text.len()
}

// The line without a carriage return at its end.
fn without_return(line: &[u8]) -> &[u8]
    ensures { result.now ≡ strip_carriage_return line.now }
{
    match line {
        [before @ .., b'\r'] => before,
        _ => line,
    }
}

/// The words of a line, first to last: what stands between blanks, which are spaces and tabs, and is not empty.
#[derive(Drop)]
pub struct Words<'a> {
    rest: &'a [u8],
}

impl<'a> Model for Words<'a> {
    ghost use Rattle.std.specs.Prelude.{ℕ, List};
    ghost use Rattle.vip_byte.specs.Text.{words};

    ghost Value = { List (List ℕ) };

    ghost view = { λ inside. words inside.rest.now };
}

impl<'a> Words<'a> {
    /// Those of the line.
    pub fn new(line: &'a [u8]) -> Words<'a>
        ensures { result ≡ words line.now }
    {
        Words { rest: line }
    }
}

impl<'a> Iterator for Words<'a> {
    ghost use Rattle.std.specs.Iterator.{YieldsFirstRef, item_count};

    type Item = &'a [u8];

    ghost next_gives = { YieldsFirstRef (λ left. left) };

    ghost remaining = { item_count (λ left. left) };

    fn next(&mut self) -> Option<&'a [u8]> {
        let (word, rest) = first_word(self.rest)?;
        self.rest = rest;
        Some(word)
    }
}

// The first word of a line, and the line behind it; none where the line has no word.
fn first_word(line: &[u8]) -> Option<(&[u8], &[u8])>
    ensures { MatchOption result (words line.now ≡ [])
        (λ parts. words line.now ≡ parts.0.now ∷ words parts.1.now) }
{
    let (_blanks, line) = line.split_at(blanks_len(line));
    let (word, rest) = line.split_at(word_len(line));
    if word.is_empty() {
        None
    } else {
        Some((word, rest))
    }
}

// How many blanks a line begins with.
fn blanks_len(line: &[u8]) -> usize
    ensures end { result ≡ prefix_len is_blank line.now }
    ensures within { result ≤ length line.now }
{
    for (place, byte) in line.iter().enumerate() {
        if !is_blank(*byte) {
            return place;
        }
    }
    line.len()
}

// How many bytes come before the first blank.
fn word_len(line: &[u8]) -> usize
    ensures end { result ≡ position_or_len is_blank line.now }
    ensures within { result ≤ length line.now }
{
    for (place, byte) in line.iter().enumerate() {
        if is_blank(*byte) {
            return place;
        }
    }
    line.len()
}

/// Whether a byte is a space or a tab.
pub fn is_blank(byte: u8) -> bool
    ensures { result ≡ is_blank byte }
{
    matches!(byte, b' ' | b'\t')
}
