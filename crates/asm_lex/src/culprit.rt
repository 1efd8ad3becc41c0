//! What is wrong in a line, as a place in it.

ghost use Rattle.std.specs.Prelude.{◌≡◌, ◌≤◌, ◌+◌, ℕ, List, length, map, slice_get, option_map, option_and_then, IfSome, Some};
ghost use Rattle.std.specs.List.{slice_split, list_any};
ghost use Rattle.std.specs.Option.{option_map_or};
ghost use Rattle.asm_lex.specs.Bytes.{is_name};
ghost use Rattle.asm_lex.specs.Cuts.{stops};
ghost use Rattle.asm_lex.specs.Names.{value_in};
ghost use Rattle.asm_lex.specs.Parts.{code_of, label_of, statement_of, word_of};
ghost use Rattle.asm_lex.specs.Places.{place_of, label_span, word_span, operand_spans};
ghost use Rattle.asm_lex.specs.Words.{entry_of};
ghost use Rattle.chip8_words.specs.Table.{forms};
ghost use Rattle.asm_lex.specs.Spans.{text_at, IsWithin, AreWithin};
ghost use Rattle.asm_lex.specs.Culprits.{is_sought, first_part, part_place, term_in, first_term, begin_due, begin_form, begin_operands, first_wrong, wrong_operand, lacks_colon, colon_in, missing_colon, bad_byte, bad_label, long_name, code_culprit, lex_culprit};

use crate::cuts::{Stop, cut, position};
use crate::expression::{is_large, without_prefix};
use crate::forms::{forms, is_operand};
use crate::names::Symbols;
use crate::spans::{LineSpans, line_spans, parts_of, text_at};
use crate::text::{is_long_name, is_name};
use crate::words::{Entry, entry_of, meaning};
use crate::{Isa, Place, Span, has_bad_bytes};
use chip8_words::{Form, Operand};

/// What is sought among the parts of a text.
#[derive(Clone, Copy)]
pub enum Sought {
    /// A name of more than 32 characters.
    LongName,
    /// A number above 65535.
    LargeNumber,
    /// A name that stands for no number.
    Undefined,
    /// A name that stands for nothing.
    NotGiven,
}

fn is_sought(isa: Isa, names: &Symbols, sought: Sought, text: &[u8]) -> bool
    ensures { result ≡ is_sought isa (value_in names.now) sought text.now }
{
    match sought {
        Sought::LongName => is_long_name(text),
        Sought::LargeNumber => is_large(isa, text),
        Sought::Undefined => is_name(isa, text) && names.number(text).is_none(),
        Sought::NotGiven => is_name(isa, text) && names.get(text).is_none(),
    }
}

// The place of the first part of a text that is sought, where the text begins at the place `from`.
fn first_part(
    isa: Isa,
    names: &Symbols,
    sought: Sought,
    text: &[u8],
    stop: Stop,
    from: usize,
) -> Option<Place>
    requires { from + length text.now ≤ 65535 }
    ensures { result ≡ part_place from (first_part (is_sought isa (value_in names.now) sought) (slice_split (stops stop) text.now)) }
{
    let mut before = from;
    let mut rest = Some(text);
    while let Some(left) = rest {
        let (part, more) = cut(left, stop);
        if is_sought(isa, names, sought, part) {
            return Some(Place {
                from: before,
                to: before + part.len(),
            });
        }
        before += part.len() + 1;
        rest = more;
    }
    None
}

// The first term of an operand that is sought.
#[tactic(auto, unfolding(crate::specs::Culprits::term_in))]
fn term_in(isa: Isa, names: &Symbols, sought: Sought, line: &[u8], span: Span) -> Option<Place>
    requires { IsWithin line.now span }
    ensures { result ≡ term_in (is_sought isa (value_in names.now) sought) line.now span }
{
    let text = text_at(line, span);
    let sum = without_prefix(text);
    let from = usize::from(span.from) + (text.len() - sum.len());
    first_part(isa, names, sought, sum, Stop::Sign, from)
}

/// The first term of several operands of a line that is sought.
pub fn first_term(
    isa: Isa,
    names: &Symbols,
    sought: Sought,
    line: &[u8],
    spans: &[Span],
) -> Option<Place>
    requires { AreWithin line.now spans.now }
    ensures { result ≡ first_term (is_sought isa (value_in names.now) sought) line.now spans.now }
{
    for span in spans {
        if let Some(place) = term_in(isa, names, sought, line, *span) {
            return Some(place);
        }
    }
    None
}

fn begin_due(names: &Symbols, due: &[Operand], line: &[u8], operands: &[Span]) -> bool
    requires { AreWithin line.now operands.now }
    ensures { result ≡ begin_due (value_in names.now) due.now (map (text_at line.now) operands.now) }
{
    match operands {
        [] => true,
        [operand, more @ ..] => match due {
            [] => false,
            [due, more_due @ ..] => {
                is_operand(names, *due, text_at(line, *operand))
                    && begin_due(names, more_due, line, more)
            }
        },
    }
}

fn begin_form(names: &Symbols, named: Form, line: &[u8], operands: &[Span], form: Form) -> bool
    requires { AreWithin line.now operands.now }
    ensures { result ≡ begin_form (value_in names.now) named (map (text_at line.now) operands.now) form }
{
    form.mnemonic() == named.mnemonic() && begin_due(names, form.operands(), line, operands)
}

// Whether operands may begin those of one of these forms, where it has a certain mnemonic.
fn begin_one_of(
    names: &Symbols,
    named: Form,
    line: &[u8],
    operands: &[Span],
    forms: &[Form],
) -> bool
    requires { AreWithin line.now operands.now }
    ensures { result ≡ list_any (begin_form (value_in names.now) named (map (text_at line.now) operands.now)) forms.now }
{
    for form in forms {
        if begin_form(names, named, line, operands, *form) {
            return true;
        }
    }
    false
}

// Whether operands may begin those of a mnemonic of CHIP-8.
fn begin_words(names: &Symbols, named: Form, line: &[u8], operands: &[Span]) -> bool
    requires { AreWithin line.now operands.now }
    ensures { result ≡ list_any (begin_form (value_in names.now) named (map (text_at line.now) operands.now)) forms }
{
    begin_one_of(names, named, line, operands, forms())
}

// Whether operands may begin those of a word.
#[tactic(auto, unfolding(crate::specs::Culprits::begin_operands))]
fn begin_operands(isa: Isa, names: &Symbols, entry: Entry, line: &[u8], operands: &[Span]) -> bool
    requires { AreWithin line.now operands.now }
    ensures { result ≡ begin_operands isa (value_in names.now) entry (map (text_at line.now) operands.now) }
{
    match entry {
        Entry::Words(form) => begin_words(names, form, line, operands),
        _ => operands.is_empty() || meaning(isa, names, entry, true, line, operands).is_some(),
    }
}

// The number of the first operand that fits no form of a word.
#[tactic(auto, unfolding(crate::specs::Culprits::first_wrong))]
fn first_wrong(
    isa: Isa,
    names: &Symbols,
    entry: Entry,
    line: &[u8],
    operands: &[Span],
) -> Option<usize>
    requires { AreWithin line.now operands.now }
    ensures { result ≡ first_wrong isa (value_in names.now) entry (map (text_at line.now) operands.now) }
{
    for k in 0..operands.len() {
        if !begin_operands(isa, names, entry, line, &operands[..k + 1]) {
            return Some(k);
        }
    }
    None
}

/// A span as a place.
pub fn place_of(span: Span) -> Place
    ensures { result ≡ place_of span }
{
    Place {
        from: usize::from(span.from),
        to: usize::from(span.to),
    }
}

// An operand by its number, or the word.
fn operand_or_word(spans: &LineSpans, number: Option<usize>) -> Place
    ensures { result ≡ option_map_or place_of (option_and_then (slice_get spans.now.operands.items) number) (place_of spans.now.word) }
{
    let operands = spans.operands.as_slice();
    let operand = match number {
        Some(k) => operands.get(k),
        None => None,
    };
    match operand {
        Some(span) => place_of(*span),
        None => place_of(spans.word),
    }
}

// The first operand that fits no form of the line's word, or the word where one is missing or where it isn't in the table.
fn wrong_operand(isa: Isa, names: &Symbols, line: &[u8], spans: &LineSpans) -> Place
    requires word { IsWithin line.now spans.now.word }
    requires operands { AreWithin line.now spans.now.operands.items }
    ensures { (code : List ℕ) → spans.now.word ≡ word_span code → spans.now.operands.items ≡ operand_spans code →
        text_at line.now spans.now.word ≡ word_of (statement_of code) →
        result ≡ wrong_operand isa (value_in names.now) line.now code (entry_of isa (word_of (statement_of code))) }
{
    let operands = spans.operands.as_slice();
    let Some(entry) = entry_of(isa, text_at(line, spans.word)) else {
        return place_of(spans.word);
    };
    operand_or_word(spans, first_wrong(isa, names, entry, line, operands))
}

// The label, where it isn't a name.
fn bad_label(isa: Isa, line: &[u8], label: Option<Span>) -> Option<Place>
    requires { IfSome label (IsWithin line.now) }
    ensures { (code : List ℕ) → label ≡ label_span code → option_map (text_at line.now) label ≡ label_of code → result ≡ bad_label isa code }
{
    match label {
        Some(label) if !is_name(isa, text_at(line, label)) => Some(place_of(label)),
        _ => None,
    }
}

fn bad_byte(line: &[u8]) -> Place
    ensures { result ≡ bad_byte line.now }
{
    let first = position(line, Stop::NotAllowed);
    if first < line.len() {
        Place {
            from: first,
            to: first + 1,
        }
    } else {
        Place { from: 255, to: 256 }
    }
}

// The culprit among the names, the word and the operands of a line whose bytes are allowed.
fn code_culprit(isa: Isa, names: &Symbols, line: &[u8]) -> Place
    requires { length line.now ≤ 255 }
    ensures { result ≡ code_culprit isa (value_in names.now) line.now (code_of line.now) }
{
    let parts = parts_of(line);
    if let Some(place) = bad_label(isa, line, parts.label) {
        return place;
    }
    let behind = text_at(line, parts.operands);
    let from = usize::from(parts.operands.from);
    match first_part(isa, names, Sought::LongName, behind, Stop::EndOfName, from) {
        Some(place) => place,
        None => wrong_operand(isa, names, line, &line_spans(line)),
    }
}

/// The culprit of a line that `line` refuses: a byte, the label, a name, the word or an operand.
#[tactic(auto, unfolding(crate::specs::Culprits::lex_culprit))]
pub fn lex_culprit(isa: Isa, names: &Symbols, line: &[u8]) -> Place
    ensures { result ≡ lex_culprit isa (value_in names.now) line.now }
{
    if has_bad_bytes(line) {
        bad_byte(line)
    } else {
        code_culprit(isa, names, line)
    }
}

// Whether a line of at most 255 bytes lacks the colon behind its label.
pub(crate) fn lacks_colon(isa: Isa, line: &[u8]) -> bool
    requires { length line.now ≤ 255 }
    ensures { result ≡ lacks_colon isa (code_of line.now) }
{
    let parts = parts_of(line);
    let word = text_at(line, parts.word);
    let (next, _) = cut(text_at(line, parts.operands), Stop::Blank);
    parts.label.is_none()
        && is_name(isa, word)
        && entry_of(isa, word).is_none()
        && entry_of(isa, next).is_some()
}

fn colon_in(isa: Isa, line: &[u8]) -> Option<usize>
    requires { length line.now ≤ 255 }
    ensures place { result ≡ colon_in isa (code_of line.now) }
    ensures within { IfSome result (λ place. place ≤ length line.now) }
{
    if lacks_colon(isa, line) {
        Some(usize::from(line_spans(line).word.to))
    } else {
        None
    }
}

/// The place behind a label whose colon is missing: a name that isn't in the table, with a word of the table behind it.
#[tactic(auto, unfolding(crate::specs::Culprits::missing_colon))]
pub fn missing_colon(isa: Isa, line: &[u8]) -> Option<usize>
    ensures place { result ≡ missing_colon isa line.now }
    ensures within { IfSome result (λ place. place ≤ length line.now) }
{
    if has_bad_bytes(line) {
        None
    } else {
        colon_in(isa, line)
    }
}

/// Whether a text may be a label.
pub fn is_label(isa: Isa, text: &[u8]) -> bool
    ensures { result ≡ is_name isa text.now }
{
    is_name(isa, text)
}
