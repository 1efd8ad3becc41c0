//! The place of what is wrong in a faulty line.

ghost use Rattle.std.specs.Prelude.{◌≡◌, ◌≤◌, ℕ, List, length, slice_get, unwrap_or};
ghost use Rattle.asm_lex.specs.Culprits.{is_sought, first_term};
ghost use Rattle.asm_lex.specs.Names.{value_in};
ghost use Rattle.asm_lex.specs.Spans.{text_at, IsWithin, AreWithin};
ghost use Rattle.asm_core.specs.Culprits.{word_place, label_place, word_or_label, spans_of, span_or_word, short_culprit, large_number, culprit_1, number_spans, first_outside, outside_span, culprit_2};

use crate::fault::AsmCause;
use crate::values::operand_value;
use asm_lex::{
    Isa, LineSpans, Place, Sought, Span, Symbols, Word, first_term, lex_culprit, line_spans,
    place_of, text_at,
};

fn label_place(line: &[u8]) -> Place
    requires { length line.now ≤ 255 }
    ensures { result ≡ label_place line.now }
{
    let spans = line_spans(line);
    place_of(spans.label.unwrap_or(spans.word))
}

// The word, or the label where there is none.
fn word_or_label(line: &[u8]) -> Place
    requires { length line.now ≤ 255 }
    ensures { result ≡ word_or_label line.now }
{
    let word = line_spans(line).word;
    if word.from == word.to {
        label_place(line)
    } else {
        place_of(word)
    }
}

fn span_or_word(line: &[u8], span: Option<Span>) -> Place
    requires { length line.now ≤ 255 }
    ensures { result ≡ span_or_word line.now span }
{
    place_of(span.unwrap_or(line_spans(line).word))
}

fn first_span(spans: &[Span]) -> Option<Span>
    ensures { result ≡ slice_get spans.now 0 }
{
    spans.first().copied()
}

fn first_term_or_word(
    isa: Isa,
    names: &Symbols,
    sought: Sought,
    line: &[u8],
    spans: &[Span],
) -> Place
    requires within { AreWithin line.now spans.now }
    requires short { length line.now ≤ 255 }
    ensures { result ≡ unwrap_or (first_term (is_sought isa (value_in names.now) sought) line.now spans.now) (word_place line.now) }
{
    match first_term(isa, names, sought, line, spans) {
        Some(place) => place,
        None => place_of(line_spans(line).word),
    }
}

// A number above 65535, or the first operand.
fn large_or_first(isa: Isa, names: &Symbols, line: &[u8]) -> Place
    requires { length line.now ≤ 255 }
    ensures { result ≡ unwrap_or (first_term (is_sought isa (value_in names.now) Sought.LargeNumber) line.now (spans_of line.now))
        (span_or_word line.now (slice_get (spans_of line.now) 0)) }
{
    let spans = line_spans(line);
    let operands = spans.operands.as_slice();
    match first_term(isa, names, Sought::LargeNumber, line, operands) {
        Some(number) => number,
        None => span_or_word(line, first_span(operands)),
    }
}

fn first_undefined(isa: Isa, names: &Symbols, line: &[u8]) -> Place
    requires { length line.now ≤ 255 }
    ensures { result ≡ unwrap_or (first_term (is_sought isa (value_in names.now) Sought.Undefined) line.now (spans_of line.now)) (word_place line.now) }
{
    let spans = line_spans(line);
    first_term_or_word(
        isa,
        names,
        Sought::Undefined,
        line,
        spans.operands.as_slice(),
    )
}

fn short_culprit(isa: Isa, names: &Symbols, line: &[u8], cause: AsmCause) -> Place
    requires { length line.now ≤ 255 }
    ensures { result ≡ short_culprit isa (value_in names.now) line.now cause }
{
    match cause {
        AsmCause::BadText | AsmCause::UnknownMnemonic | AsmCause::BadOperand => {
            lex_culprit(isa, names, line)
        }
        AsmCause::Duplicate => label_place(line),
        AsmCause::Undefined => first_undefined(isa, names, line),
        AsmCause::Range => large_or_first(isa, names, line),
        _ => word_or_label(line),
    }
}

/// The culprit in pass 1 of a line with this first cause; `names` are those of the earlier lines.
#[tactic(auto, unfolding(crate::specs::Culprits::culprit_1))]
pub(crate) fn culprit_1(isa: Isa, names: &Symbols, line: &[u8], cause: AsmCause) -> Place
    ensures { result ≡ culprit_1 isa (value_in names.now) line.now cause }
{
    if line.len() > 255 {
        lex_culprit(isa, names, line)
    } else {
        short_culprit(isa, names, line, cause)
    }
}

/// A number above 65535 that is written in the line.
pub(crate) fn large_number(isa: Isa, names: &Symbols, line: &[u8]) -> Option<Place>
    ensures { result ≡ large_number isa (value_in names.now) line.now }
{
    if line.len() > 255 {
        return None;
    }
    first_term(
        isa,
        names,
        Sought::LargeNumber,
        line,
        line_spans(line).operands.as_slice(),
    )
}

// The operands that stand for numbers: in an instruction of CHIP-8 the last one.
fn number_spans(word: Option<Word>, spans: &[Span]) -> &[Span]
    ensures spans { result.now ≡ number_spans word spans.now }
    ensures within { (line : List ℕ) → AreWithin line spans.now → AreWithin line result.now }
{
    match word {
        Some(Word::Instruction(_)) => &spans[spans.len().saturating_sub(1)..],
        _ => spans,
    }
}

// The first operand whose value isn't in 0 to `most`.
fn first_outside(
    isa: Isa,
    names: &Symbols,
    at: u32,
    most: u16,
    line: &[u8],
    spans: &[Span],
) -> Option<Span>
    requires within { AreWithin line.now spans.now }
    requires short { length line.now ≤ 255 }
    requires at { at ≤ 65536 }
    ensures { result ≡ first_outside isa (value_in names.now) at most line.now spans.now }
{
    for span in spans {
        if operand_value(isa, names, at, most, text_at(line, *span)).is_err() {
            return Some(*span);
        }
    }
    None
}

fn outside_span(
    isa: Isa,
    names: &Symbols,
    at: u32,
    word: Option<Word>,
    line: &[u8],
    spans: &[Span],
) -> Option<Span>
    requires within { AreWithin line.now spans.now }
    requires short { length line.now ≤ 255 }
    requires at { at ≤ 65536 }
    ensures { result ≡ outside_span isa (value_in names.now) at word line.now spans.now }
{
    match word {
        Some(Word::Db) => first_outside(isa, names, at, 255, line, spans),
        Some(Word::Dw) => first_outside(isa, names, at, u16::MAX, line, spans),
        _ => first_span(number_spans(word, spans)),
    }
}

/// The culprit in pass 2 of a line with this first cause, which begins at the address `at` and has this word; `names` are those of all lines.
#[tactic(auto, unfolding(crate::specs::Culprits::culprit_2))]
pub(crate) fn culprit_2(
    isa: Isa,
    names: &Symbols,
    at: u32,
    word: Option<Word>,
    line: &[u8],
    cause: AsmCause,
) -> Place
    requires short { length line.now ≤ 255 }
    requires at { at ≤ 65536 }
    ensures { result ≡ culprit_2 isa (value_in names.now) at word line.now cause }
{
    let spans = line_spans(line);
    let operands = spans.operands.as_slice();
    match cause {
        AsmCause::Undefined => {
            let numbers = number_spans(word, operands);
            first_term_or_word(isa, names, Sought::Undefined, line, numbers)
        }
        AsmCause::Range => {
            span_or_word(line, outside_span(isa, names, at, word, line, operands))
        }
        AsmCause::OffPage => span_or_word(line, first_span(operands)),
        _ => place_of(spans.word),
    }
}
