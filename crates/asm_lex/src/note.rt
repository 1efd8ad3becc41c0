//! A comment that is itself an instruction, which is a way of RCA's to put two on a line.

ghost use Rattle.std.specs.Prelude.{◌≡◌, ◌≤◌, ◌+◌, ◌-◌, length, slice_get, option_map, option_and_then, IfSome};
ghost use Rattle.std.specs.Option.{option_map_or};
ghost use Rattle.asm_lex.specs.Lines.{parsed};
ghost use Rattle.asm_lex.specs.Names.{value_in};
ghost use Rattle.asm_lex.specs.Notes.{is_mnemonic, begins_instruction, is_instruction, is_bare_instruction, instruction_end, instruction_place, note_from, comment_of, note_in};
ghost use Rattle.asm_lex.specs.Parts.{code_of, statement_of, word_of, behind_word};
ghost use Rattle.asm_lex.specs.Words.{entry_of};

use crate::culprit::lacks_colon;
use crate::cuts::{Stop, cut};
use crate::names::Symbols;
use crate::spans::{line_spans, parts_of, text_at};
use crate::words::{Entry, entry_of};
use crate::{Isa, Place, Word, line};

fn is_mnemonic(isa: Isa, word: &[u8]) -> bool
    ensures { result ≡ is_mnemonic (entry_of isa word.now) }
{
    match entry_of(isa, word) {
        Some(Entry::Mnemonic(_)) | Some(Entry::Words(_)) => true,
        _ => false,
    }
}

// Whether a line begins an instruction, whatever is wrong in it.
fn begins_instruction(isa: Isa, line: &[u8]) -> bool
    requires { length line.now ≤ 255 }
    ensures { result ≡ begins_instruction isa (code_of line.now) }
{
    let parts = parts_of(line);
    if lacks_colon(isa, line) {
        let (word, _) = cut(text_at(line, parts.operands), Stop::Blank);
        is_mnemonic(isa, word)
    } else {
        is_mnemonic(isa, text_at(line, parts.word))
    }
}

fn is_instruction(word: Option<Word>) -> bool
    ensures { result ≡ is_instruction word }
{
    match word {
        Some(Word::Code(_)) | Some(Word::Instruction(_)) => true,
        _ => false,
    }
}

// Whether a line is read as an instruction without a label.
fn is_bare_instruction(isa: Isa, names: &Symbols, bytes: &[u8]) -> bool
    ensures { result ≡ is_bare_instruction (parsed isa (value_in names.now) bytes.now) }
{
    match line(isa, names, bytes) {
        Ok(line) => is_instruction(line.word) && line.label.is_none(),
        Err(_) => false,
    }
}

fn instruction_end(bytes: &[u8]) -> usize
    requires { length bytes.now ≤ 255 }
    ensures end { result ≡ instruction_end (code_of bytes.now) }
    ensures within { result ≤ 65535 }
{
    let spans = line_spans(bytes);
    let operands = spans.operands.as_slice();
    match operands.get(operands.len().saturating_sub(1)) {
        Some(span) => usize::from(span.to),
        None => usize::from(spans.word.to),
    }
}

// The instruction in a comment that begins at the place `start`.
fn note_from(isa: Isa, names: &Symbols, start: usize, comment: &[u8]) -> Option<Place>
    requires { start + length comment.now ≤ 255 }
    ensures { result ≡ note_from isa (value_in names.now) start comment.now }
{
    if is_bare_instruction(isa, names, comment) {
        let from = start + usize::from(line_spans(comment).word.from);
        let to = start + instruction_end(comment);
        Some(Place { from, to })
    } else {
        None
    }
}

// What stands in a line behind the first `;`, and where it begins.
fn comment_of(line: &[u8]) -> Option<(usize, &[u8])>
    ensures comment { option_map (λ comment. comment.1.now) result ≡ comment_of line.now }
    ensures start { IfSome result (λ comment. comment.0 ≡ length (code_of line.now) + 1) }
    ensures within { IfSome result (λ comment. comment.0 + length comment.1.now ≡ length line.now) }
{
    let (code, comment) = cut(line, Stop::Semicolon);
    match comment {
        Some(comment) => Some((code.len() + 1, comment)),
        None => None,
    }
}

/// Where a comment is itself an instruction, read with these names, in a line that begins with one, right or wrong. A line of more than 255 bytes has none.
#[tactic(auto, unfolding(crate::specs::Notes::note_in))]
pub fn note_in(isa: Isa, names: &Symbols, line: &[u8]) -> Option<Place>
    ensures { result ≡ note_in isa (value_in names.now) line.now }
{
    let (start, comment) = comment_of(line)?;
    if line.len() > 255 || !begins_instruction(isa, line) {
        return None;
    }
    note_from(isa, names, start, comment)
}
