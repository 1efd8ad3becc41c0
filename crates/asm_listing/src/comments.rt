//! Notes on comments that look like an instruction.

ghost use Rattle.std.specs.Prelude.{◌≡◌, ◌≤◌, ◌<◌, ◌-◌, ◌++◌, length, drop, is_some, flat_map, None, OnOk};
ghost use Rattle.std.specs.List.{list_all, range_with_len, suffix_len};
ghost use Rattle.vip_byte.specs.Text.{is_blank};
ghost use Rattle.asm_lex.specs.Bytes.{is_semicolon};
ghost use Rattle.asm_lex.specs.Lines.{parsed};
ghost use Rattle.asm_lex.specs.Parts.{code_of, without_trailing_blanks};
ghost use Rattle.asm_lex.specs.Places.{label_span, word_span};
ghost use Rattle.asm_listing.specs.Comments.{is_capital, are_capitals, is_known, is_instruction_word, own_word, code_end, has_comment, is_noted, is_first_noted, other_note};
ghost use Rattle.asm_listing.specs.Told.{note_line, note_behind, note_at_byte, comment_notes};

use crate::remedies::{first_operand, is_foreign, word_in};
use crate::report_text::append_line;
use asm_lex::{Isa, LexFault, Place, Symbols, line, line_spans, missing_colon};
use std::alloc::{AllocError, Global};
use vip_byte::is_blank;

fn is_capital(byte: u8) -> bool
    ensures { result ≡ is_capital byte }
{
    byte.is_ascii_uppercase() || byte.is_ascii_digit()
}

fn all_capitals(text: &[u8]) -> bool
    ensures { result ≡ list_all is_capital text.now }
{
    for byte in text {
        if !is_capital(*byte) {
            return false;
        }
    }
    true
}

fn are_capitals(text: &[u8]) -> bool
    ensures { result ≡ are_capitals text.now }
{
    match text {
        [first, ..] => first.is_ascii_uppercase() && all_capitals(text),
        [] => false,
    }
}

// Whether a word is a mnemonic or a directive.
fn is_known(alloc: Global, isa: Isa, word: &[u8]) -> bool
    ensures { result ≡ is_known (parsed isa (λ name. None) word.now) }
{
    let names = Symbols::new(alloc);
    match line(isa, &names, word) {
        Ok(_) => true,
        Err(LexFault::BadOperand) => true,
        Err(LexFault::BadText) => false,
        Err(LexFault::UnknownMnemonic) => false,
    }
}

#[tactic(auto, unfolding(crate::specs::Comments::is_instruction_word))]
fn is_instruction_word(alloc: Global, isa: Isa, word: &[u8]) -> bool
    ensures { result ≡ is_instruction_word isa word.now }
{
    are_capitals(word) && (is_known(alloc, isa, word) || is_foreign(isa, word))
}

fn own_word(isa: Isa, line: &[u8]) -> &[u8]
    ensures { result.now ≡ own_word isa line.now }
{
    if missing_colon(isa, line).is_some() {
        word_in(first_operand(line))
    } else {
        word_in(line)
    }
}

fn is_semicolon(byte: u8) -> bool
    ensures { result ≡ is_semicolon byte }
{
    byte == b';'
}

// Where the code of a line ends.
fn code_end(line: &[u8]) -> usize
    ensures place { result ≡ code_end line.now }
    ensures within { result ≤ length line.now }
{
    for (place, byte) in line.iter().enumerate() {
        if is_semicolon(*byte) {
            return place;
        }
    }
    line.len()
}

fn code_of(line: &[u8]) -> &[u8]
    ensures { result.now ≡ code_of line.now }
{
    &line[..code_end(line)]
}

fn behind(text: &[u8], count: usize) -> &[u8]
    requires { count ≤ length text.now }
    ensures { result.now ≡ drop count text.now }
{
    &text[count..]
}

fn end_without_blanks(text: &[u8]) -> usize
    ensures place { result ≡ length text.now - suffix_len is_blank text.now }
    ensures within { result ≤ length text.now }
{
    let mut end = text.len();
    while end > 0 && is_blank(text[end - 1]) {
        end -= 1;
    }
    end
}

#[tactic(auto, unfolding(asm_lex::specs::Parts::without_trailing_blanks))]
fn without_trailing_blanks(text: &[u8]) -> &[u8]
    ensures { result.now ≡ without_trailing_blanks text.now }
{
    &text[..end_without_blanks(text)]
}

// Whether a line has a comment behind an instruction or a directive in capitals.
#[tactic(auto, unfolding(crate::specs::Comments::has_comment))]
fn has_comment(alloc: Global, isa: Isa, line: &[u8]) -> bool
    ensures { result ≡ has_comment isa line.now }
{
    line.len() <= 255
        && code_end(line) < line.len()
        && is_instruction_word(alloc, isa, own_word(isa, line))
}

fn has_label(line: &[u8]) -> bool
    requires { length line.now ≤ 255 }
    ensures { result ≡ is_some (label_span (code_of line.now)) }
{
    line_spans(line).label.is_some()
}

// Whether what stands behind a `;` looks like an instruction.
fn is_noted(alloc: Global, isa: Isa, comment: &[u8]) -> bool
    requires { length comment.now ≤ 255 }
    ensures { result ≡ is_noted isa comment.now }
{
    !has_label(comment) && is_instruction_word(alloc, isa, word_in(comment))
}

fn noted_words(comment: &[u8], from: usize) -> &[u8]
    requires { from ≤ length (code_of comment.now) }
    ensures { result.now ≡ without_trailing_blanks (drop from (code_of comment.now)) }
{
    without_trailing_blanks(behind(code_of(comment), from))
}

fn word_start(comment: &[u8]) -> usize
    requires { length comment.now ≤ 255 }
    ensures start { result ≡ (word_span (code_of comment.now)).from }
    ensures within { result ≤ length (code_of comment.now) }
    ensures short { result ≤ 255 }
{
    let spans = line_spans(comment);
    usize::from(spans.word.from)
}

fn append_note_line(
    alloc: Global,
    text: &mut Vec<u8>,
    name: &[u8],
    number: u32,
    column: usize,
    words: &[u8],
) -> Result<(), AllocError>
    ensures { OnOk result (text.new.items ≡ text.old.items ++ note_line name.now number column words.now) }
{
    let remark = "a comment: an instruction needs a line of its own";
    let remark = Some(remark.as_bytes());
    append_line(alloc, text, name, number, column, "note", words, remark)
}

// The note of what stands behind a `;`, from a place of its line on.
fn append_note_behind(
    alloc: Global,
    text: &mut Vec<u8>,
    isa: Isa,
    name: &[u8],
    number: u32,
    place: usize,
    comment: &[u8],
) -> Result<(), AllocError>
    requires short { length comment.now ≤ 255 }
    requires within { place ≤ 255 }
    ensures { OnOk result (text.new.items ≡ text.old.items ++ note_behind isa name.now number place comment.now) }
{
    if !is_noted(alloc, isa, comment) {
        return Ok(());
    }
    let from = word_start(comment);
    let words = noted_words(comment, from);
    append_note_line(alloc, text, name, number, place + from + 1, words)
}

// The note behind the byte at a place of a line, where that is a `;`.
#[tactic(auto, unfolding(crate::specs::Told::note_at_byte))]
fn append_note_at(
    alloc: Global,
    text: &mut Vec<u8>,
    isa: Isa,
    name: &[u8],
    number: u32,
    line: &[u8],
    place: usize,
) -> Result<(), AllocError>
    requires short { length line.now ≤ 255 }
    requires within { place < length line.now }
    ensures { OnOk result (text.new.items ≡ text.old.items ++ note_at_byte isa name.now number line.now place) }
{
    if is_semicolon(line[place]) {
        let comment = behind(line, place + 1);
        append_note_behind(alloc, text, isa, name, number, place + 1, comment)
    } else {
        Ok(())
    }
}

fn append_notes(
    alloc: Global,
    text: &mut Vec<u8>,
    isa: Isa,
    name: &[u8],
    number: u32,
    line: &[u8],
) -> Result<(), AllocError>
    requires { length line.now ≤ 255 }
    ensures { OnOk result (text.new.items ≡ text.old.items ++ flat_map (note_at_byte isa name.now number line.now) (range_with_len 0 (length line.now))) }
{
    for place in 0..line.len() {
        append_note_at(alloc, text, isa, name, number, line, place)?;
    }
    Ok(())
}

/// Appends the notes of a line's comments.
#[tactic(auto, unfolding(crate::specs::Told::comment_notes, crate::specs::Comments::has_comment))]
pub(crate) fn append_comment_notes(
    alloc: Global,
    text: &mut Vec<u8>,
    isa: Isa,
    name: &[u8],
    number: u32,
    line: &[u8],
) -> Result<(), AllocError>
    ensures { OnOk result (text.new.items ≡ text.old.items ++ comment_notes isa name.now number line.now) }
{
    if line.len() > 255 || !has_comment(alloc, isa, line) {
        return Ok(());
    }
    append_notes(alloc, text, isa, name, number, line)
}

// Whether the first comment of a line has a note of these.
#[tactic(auto, unfolding(crate::specs::Comments::has_comment))]
fn is_first_noted(alloc: Global, isa: Isa, line: &[u8]) -> bool
    ensures { result ≡ is_first_noted isa line.now }
{
    let end = code_end(line);
    line.len() <= 255
        && end < line.len()
        && is_instruction_word(alloc, isa, own_word(isa, line))
        && is_noted(alloc, isa, behind(line, end + 1))
}

/// The note of an instruction in the first comment, unless that has one of these.
pub(crate) fn other_note(alloc: Global, isa: Isa, line: &[u8], note: Option<Place>) -> Option<Place>
    ensures { result ≡ other_note isa line.now note }
{
    if is_first_noted(alloc, isa, line) {
        None
    } else {
        note
    }
}
