//! The pages of the verbs, the version of the program, and what is made of words.

ghost use Rattle.std.specs.Prelude.{◌++◌, ◌≡◌, flat_map, map, string_bytes, IfOk, OnOk};
ghost use Rattle.vip_words.specs.Usage.{row_of};
ghost use Rattle.vip_tools.specs.Help.{note_line, option_line, option_text, padded, verb_line, verb_page, verbs_page, with_words, word_text, HelpComes, VersionComes, WhyComes};
ghost use Rattle.vip_tools.specs.Work.{TextAnswers};

use crate::Refusal;
use crate::report::{append, line};
use std::alloc::{AllocError, Global};
use vip_words::{Row, VERBS, Verb, about, why_line, with_value};

/// The blanks before what a verb writes, in the page of all verbs.
const VERB_COLUMN: &[u8] = b"                            ";

/// The blanks before what an option is, in the page of a verb.
const OPTION_COLUMN: &[u8] = b"             ";

/// The name and the version.
const VERSION: &[u8] = b"vip 2.0\n";

/// A text that is filled up with blanks to a column.
fn padded(alloc: Global, text: &[u8], column: &[u8]) -> Result<Vec<u8>, AllocError>
    ensures { IfOk result (λ line. line.items ≡ padded text.now column.now) }
{
    let start = text.len().min(column.len());
    line(alloc, &[text, &column[start..]])
}

/// Appends the name of a word behind a verb, which may be left out where it stands in brackets.
fn append_word(text: &mut Vec<u8>, may_be_left_out: bool, word: &str) -> Result<(), AllocError>
    ensures { OnOk result (text.new.items ≡ text.old.items ++ word_text may_be_left_out word.now) }
{
    if may_be_left_out {
        append(text, &[b" [", word.as_bytes(), b"]"])
    } else {
        append(text, &[b" ", word.as_bytes()])
    }
}

/// A verb with the names of its words.
fn with_words(alloc: Global, row: &Row) -> Result<Vec<u8>, AllocError>
    ensures { IfOk result (λ text. text.items ≡ with_words (row_of row.now)) }
{
    let mut text = Vec::from_slice(alloc, row.name.as_bytes())?;
    for word in row.words {
        append_word(&mut text, row.may_stand_alone, word)?;
    }
    Ok(text)
}

/// The line of a verb in the page of all verbs.
fn verb_line(alloc: Global, row: &Row) -> Result<Vec<u8>, AllocError>
    ensures { IfOk result (λ text. text.items ≡ verb_line (row_of row.now)) }
{
    let verb = with_words(alloc, row)?;
    let front = padded(alloc, verb.as_slice(), VERB_COLUMN)?;
    line(alloc, &[front.as_slice(), row.writes.as_bytes(), b"\n"])
}

/// The page of all verbs, a line each.
fn verbs_page(alloc: Global) -> Result<Vec<u8>, AllocError>
    ensures { IfOk result (λ text. text.items ≡ verbs_page) }
{
    let mut text = Vec::new(alloc);
    for verb in &VERBS {
        let line = verb_line(alloc, &verb.row())?;
        text.extend_from_slice(line.as_slice())?;
    }
    Ok(text)
}

/// The options of a verb, each in brackets.
fn options_text(alloc: Global, options: &[&str]) -> Result<Vec<u8>, AllocError>
    ensures { IfOk result (λ text. text.items ≡ flat_map (λ option. option_text option.now) options.now) }
{
    let mut text = Vec::new(alloc);
    for option in options {
        append_word(&mut text, true, with_value(option))?;
    }
    Ok(text)
}

/// What an option is.
fn option_line(alloc: Global, option: &str) -> Result<Vec<u8>, AllocError>
    ensures { IfOk result (λ text. text.items ≡ option_line option.now) }
{
    let front = padded(alloc, with_value(option).as_bytes(), OPTION_COLUMN)?;
    line(
        alloc,
        &[b"  ", front.as_slice(), about(option).as_bytes(), b"\n"],
    )
}

/// What the options of a verb are, a line each.
fn option_lines(alloc: Global, options: &[&str]) -> Result<Vec<u8>, AllocError>
    ensures { IfOk result (λ text. text.items ≡ flat_map (λ option. option_line option.now) options.now) }
{
    let mut text = Vec::new(alloc);
    for option in options {
        let line = option_line(alloc, option)?;
        text.extend_from_slice(line.as_slice())?;
    }
    Ok(text)
}

/// Notes, a line each.
fn note_lines(alloc: Global, notes: &[&str]) -> Result<Vec<u8>, AllocError>
    ensures { IfOk result (λ text. text.items ≡ flat_map (λ note. note_line note.now) notes.now) }
{
    let mut text = Vec::new(alloc);
    for note in notes {
        append(&mut text, &[note.as_bytes(), b"\n"])?;
    }
    Ok(text)
}

/// The page of one verb, with these notes.
fn verb_page(alloc: Global, row: &Row, notes: &[&str]) -> Result<Vec<u8>, AllocError>
    ensures { IfOk result (λ text. text.items ≡ verb_page (row_of row.now) (map (λ note. note.now) notes.now)) }
{
    let verb = with_words(alloc, row)?;
    let options = options_text(alloc, row.options)?;
    let lines = option_lines(alloc, row.options)?;
    let notes = note_lines(alloc, notes)?;
    line(
        alloc,
        &[
            b"vip ",
            verb.as_slice(),
            options.as_slice(),
            b"\n",
            row.writes.as_bytes(),
            b"\n",
            lines.as_slice(),
            notes.as_slice(),
            b"for instance: ",
            row.example.as_bytes(),
            b"\nexplained in: ",
            row.texts.as_bytes(),
            b"\n",
        ],
    )
}

/// The page of all verbs, or that of one.
pub fn help<'a>(alloc: Global, verb: Option<Verb>) -> Result<Vec<u8>, Refusal<'a>>
    ensures { TextAnswers (HelpComes verb) result }
{
    let text = match verb {
        None => verbs_page(alloc)?,
        Some(verb) => verb_page(alloc, &verb.row(), verb.notes())?,
    };
    Ok(text)
}

/// What is made of words.
pub fn why<'a>(alloc: Global, words: &[String]) -> Result<Vec<u8>, Refusal<'a>>
    ensures { TextAnswers (WhyComes (map string_bytes words.now)) result }
{
    let line = why_line(alloc, words)?;
    Ok(line.into_bytes())
}

/// The name and the version of the program.
pub fn version<'a>(alloc: Global) -> Result<Vec<u8>, Refusal<'a>>
    ensures { TextAnswers VersionComes result }
{
    let text = Vec::from_slice(alloc, VERSION)?;
    Ok(text)
}
