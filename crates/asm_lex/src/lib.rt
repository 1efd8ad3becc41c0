//! One line of assembly, of the CDP1802 or of CHIP-8: its parts, or its first fault, and the value of an expression. It stands on `vip_isa`,
//! whose table has the mnemonics of `machine`'s opcodes, on `chip8_words`, whose table has those of CHIP-8, and on `vip_byte`, which reads
//! numbers. The layers above may rely on this: `line` answers the
//! parts of a line or its first fault exactly as `parsed` in `specs/Lines.antt` says, and `value` the value of an expression or its first
//! fault as `value_of` in `specs/Expressions.antt` says. Where a line isn't read, `lex_culprit` is the place in it of what is wrong, as
//! `specs/Culprits.antt` says, and `note_in` an instruction in a comment. None of them takes memory. The mnemonics are those of RCA's data sheet of the
//! CDP1802 and of Cowgod's CHIP-8 Technical Reference; the language of the lines is this project's profile (`docs/ASSEMBLER.md`).
#![tactic(auto)]

ghost use Rattle.std.specs.Prelude.{◌≡◌, ◌≤◌, ◌<◌, ℕ, Bool, List, length, map, IfSome, IfOk, OnOk, MatchOption, MatchResult, Some, None, Ok, Err};
ghost use Rattle.asm_lex.specs.Lines.{parsed, shown, spans_of, operands_of, has_bad_bytes, has_bad_name, word_meaning, Reads};
ghost use Rattle.asm_lex.specs.Names.{Names, value_in};
ghost use Rattle.asm_lex.specs.Parts.{code_of, label_of, statement_of, behind_word, operands_in};
ghost use Rattle.asm_lex.specs.Spans.{text_at, IsWithin, AreWithin, AreInOrder};
ghost use Rattle.asm_lex.specs.Words.{HasItsOperands};
ghost use Rattle.std.specs.Option.{option_map};

mod culprit;
mod cuts;
mod expression;
mod forms;
mod names;
mod note;
mod operand;
mod shape;
mod spans;
mod text;
mod words;

pub use crate::culprit::{Sought, first_term, is_label, lex_culprit, missing_colon, place_of};
pub use crate::cuts::trimmed;
pub use crate::expression::{has_large_number, value};
pub use crate::names::{SymbolIter, Symbols};
pub use crate::note::note_in;
pub use crate::operand::{is_number_at, is_unread, line_entry};
pub use crate::shape::{Isa, LexFault, Line, Place, Span, SymbolValue, ValueFault, Word};
use crate::spans::parts_of;
pub use crate::spans::{LineSpans, line_spans, text_at};
use crate::text::{are_allowed, has_long_name, is_name};
pub use crate::words::Entry;
use crate::words::{entry_of, meaning};
use arrayvec::ArrayVec;

/// The most bytes of a line.
const LONGEST_LINE: usize = 255;

#[tactic(auto, unfolding(crate::specs::Lines::has_bad_bytes))]
fn has_bad_bytes(line: &[u8]) -> bool
    ensures { result ≡ has_bad_bytes line.now }
{
    line.len() > LONGEST_LINE || !are_allowed(line)
}

// Whether the label isn't a name, or a name behind the word is too long.
#[tactic(auto, unfolding(crate::specs::Lines::has_bad_name))]
fn has_bad_name(isa: Isa, line: &[u8], label: Option<Span>, operands: Span) -> bool
    requires label { IfSome label (IsWithin line.now) }
    requires operands { IsWithin line.now operands }
    ensures { (code : List ℕ) → option_map (text_at line.now) label ≡ label_of code → text_at line.now operands ≡ behind_word (statement_of code) →
        result ≡ has_bad_name isa code }
{
    let bad_label = match label {
        Some(label) => !is_name(isa, text_at(line, label)),
        None => false,
    };
    bad_label || has_long_name(text_at(line, operands))
}

// A word that may be absent, and its operands.
#[derive(Drop)]
struct Statement {
    word: Option<Word>,
    operands: ArrayVec<Span, 128>,
}

fn read_statement(
    isa: Isa,
    names: &Symbols,
    line: &[u8],
    has_label: bool,
    word: Span,
    behind: Span,
) -> Result<Statement, LexFault>
    requires line { length line.now ≤ 255 }
    requires word { IsWithin line.now word }
    requires behind { IsWithin line.now behind }
    requires empty { length (text_at line.now word) ≡ 0 → length (text_at line.now behind) ≡ 0 }
    ensures parts { MatchResult result
        (λ statement. (map (text_at line.now) statement.operands.items ≡ operands_in (text_at line.now behind))
        × (word_meaning isa (value_in names.now) has_label (operands_in (text_at line.now behind)) (text_at line.now word) ≡ Ok statement.word))
        (λ fault. word_meaning isa (value_in names.now) has_label (operands_in (text_at line.now behind)) (text_at line.now word) ≡ Err fault) }
    ensures order { IfOk result (λ statement. AreInOrder behind.from statement.operands.items behind.to) }
    ensures few { IfOk result (λ statement. length statement.operands.items ≤ 128) }
    ensures operands { IfOk result (λ statement. HasItsOperands isa statement.word (map (text_at line.now) statement.operands.items)) }
{
    let word = text_at(line, word);
    let Some(operands) = spans::operands(line, behind) else {
        return Err(fault_of_many(isa, word));
    };
    if word.is_empty() {
        return Ok(Statement {
            word: None,
            operands,
        });
    }
    let Some(entry) = entry_of(isa, word) else {
        return Err(LexFault::UnknownMnemonic);
    };
    names.have_values();
    match meaning(isa, names, entry, has_label, line, operands.as_slice()) {
        Some(word) => Ok(Statement {
            word: Some(word),
            operands,
        }),
        None => Err(LexFault::BadOperand),
    }
}

// The fault of a line with more than 128 operands, which are wrong for each word.
fn fault_of_many(isa: Isa, word: &[u8]) -> LexFault
    ensures { (names : Names) (has_label : Bool) (text : List ℕ) → length text ≤ 255 → 128 < length (operands_in text) → 0 < length word.now →
        word_meaning isa names has_label (operands_in text) word.now ≡ Err result }
{
    match entry_of(isa, word) {
        Some(_) => LexFault::BadOperand,
        None => LexFault::UnknownMnemonic,
    }
}

/// The parts of a line in an instruction set, or its first fault. The line is given without its line end, and with the names of the earlier
/// lines.
pub fn line(isa: Isa, names: &Symbols, bytes: &[u8]) -> Result<Line, LexFault>
    ensures parsed { MatchResult result
        (λ line. parsed isa (value_in names.now) bytes.now ≡ Ok (shown bytes.now line))
        (λ fault. parsed isa (value_in names.now) bytes.now ≡ Err fault) }
    ensures order { IfOk result (λ line. AreInOrder 0 (spans_of line) (length bytes.now)) }
    // What the layer above may rely on: a line is short, and its operands are those that its word takes.
    ensures reads { IfOk result (λ line. Reads isa (value_in names.now) bytes.now line.word) }
{
    if has_bad_bytes(bytes) {
        return Err(LexFault::BadText);
    }
    let parts = parts_of(bytes);
    if has_bad_name(isa, bytes, parts.label, parts.operands) {
        return Err(LexFault::BadText);
    }
    let has_label = parts.label.is_some();
    match read_statement(isa, names, bytes, has_label, parts.word, parts.operands) {
        Ok(statement) => Ok(Line {
            label: parts.label,
            word: statement.word,
            operands: statement.operands,
        }),
        Err(fault) => Err(fault),
    }
}

/// The operands of a line that `line` has read.
pub fn operands(bytes: &[u8]) -> ArrayVec<Span, 128>
    requires short { length bytes.now ≤ 255 }
    requires few { length (operands_of (code_of bytes.now)) ≤ 128 }
    ensures texts { map (text_at bytes.now) result.items ≡ operands_of (code_of bytes.now) }
    ensures within { AreWithin bytes.now result.items }
{
    match spans::operands(bytes, parts_of(bytes).operands) {
        Some(operands) => operands,
        None => ArrayVec::new(),
    }
}

/// The label of a line of at most 255 bytes, if it has one.
pub fn label(bytes: &[u8]) -> Option<&[u8]>
    requires { length bytes.now ≤ 255 }
    ensures { MatchOption result (label_of (code_of bytes.now) ≡ None) (λ label. label_of (code_of bytes.now) ≡ Some label.now) }
{
    match parts_of(bytes).label {
        Some(label) => Some(text_at(bytes, label)),
        None => None,
    }
}
