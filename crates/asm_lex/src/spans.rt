//! Spans of a line: its label, its word and its operands.

ghost use Rattle.std.specs.Prelude.{◌≡◌, ◌≤◌, ◌<◌, ◌+◌, ◌-◌, ◌∷◌, [], ◌++◌, ℕ, List, length, take, drop, map, IfSome, MatchBool, MatchOption, Option, is_some};
ghost use Rattle.std.specs.List.{before_first, after_first, list_any, slice_split};
ghost use Rattle.std.specs.Option.{option_map, option_to_list};
ghost use Rattle.asm_lex.specs.Cuts.{stops, parts_of};
ghost use Rattle.asm_lex.specs.Parts.{without_leading_blanks, trimmed, code_of, label_of, statement_of, word_of, behind_word, operands_in};
ghost use Rattle.asm_lex.specs.Places.{visible_span, label_span, word_span, behind_span, spans_in, operand_spans};
ghost use Rattle.asm_lex.specs.Lines.{operands_of};
ghost use Rattle.asm_lex.specs.Spans.{text_at, IsWithin, AreWithin, AreInOrder};

use crate::Span;
use crate::cuts::{Stop, end_without_blanks, leading_blanks, position};
use arrayvec::ArrayVec;

/// The bytes of the line in one of its spans.
pub fn text_at(line: &[u8], span: Span) -> &[u8]
    requires { IsWithin line.now span }
    ensures { result.now ≡ text_at line.now span }
{
    &line[usize::from(span.from)..usize::from(span.to)]
}

// A part of a span: what stands behind its first `skip` bytes, and at most `keep` bytes of it.
fn part(span: Span, skip: usize, keep: usize) -> Span
    requires { span.from + skip + keep ≤ span.to }
    ensures text { (line : List ℕ) → text_at line result ≡ take keep (drop skip (text_at line span)) }
    ensures from { result.from ≡ span.from + skip }
    ensures to { result.to ≡ span.from + skip + keep }
{
    let from = span.from + skip as u16;
    Span {
        from,
        to: from + keep as u16,
    }
}

// A span without the blanks at its start.
#[tactic(auto, unfolding(crate::specs::Parts::without_leading_blanks))]
fn without_leading_blanks(line: &[u8], span: Span) -> Span
    requires { IsWithin line.now span }
    ensures text { text_at line.now result ≡ without_leading_blanks (text_at line.now span) }
    ensures within { (span.from ≤ result.from) × (result.from ≤ result.to) }
    ensures to { result.to ≡ span.to }
{
    let text = text_at(line, span);
    let blanks = leading_blanks(text);
    part(span, blanks, text.len() - blanks)
}

// A span without the blanks at its ends.
#[tactic(auto, unfolding(crate::specs::Parts::without_trailing_blanks))]
fn trim(line: &[u8], span: Span) -> Span
    requires { IsWithin line.now span }
    ensures text { text_at line.now result ≡ trimmed (text_at line.now span) }
    ensures within { (span.from ≤ result.from) × (result.from ≤ result.to) × (result.to ≤ span.to) }
    ensures place { result ≡ visible_span span.to (text_at line.now span) }
{
    let span = without_leading_blanks(line, span);
    part(span, 0, end_without_blanks(text_at(line, span)))
}

// What stands in a span before the first byte at which it is cut.
fn before(line: &[u8], span: Span, stop: Stop) -> Span
    requires { IsWithin line.now span }
    ensures text { text_at line.now result ≡ before_first (stops stop) (text_at line.now span) }
    ensures from { result.from ≡ span.from }
    ensures within { (result.from ≤ result.to) × (result.to ≤ span.to) }
{
    part(span, 0, position(text_at(line, span), stop))
}

// The first part of a span that is cut, and what stands behind the byte at which it is cut, if there is one.
fn cut(line: &[u8], span: Span, stop: Stop) -> (Span, Option<Span>)
    requires { IsWithin line.now span }
    ensures parts { slice_split (stops stop) (text_at line.now span) ≡ text_at line.now result.0 ∷ parts_of (stops stop) (option_map (text_at line.now) result.1) }
    ensures first { text_at line.now result.0 ≡ before_first (stops stop) (text_at line.now span) }
    ensures found { is_some result.1 ≡ list_any (stops stop) (text_at line.now span) }
    ensures rest { IfSome result.1 (λ rest. text_at line.now rest ≡ after_first (stops stop) (text_at line.now span)) }
    ensures within { (result.0.from ≡ span.from) × (result.0.from ≤ result.0.to) × (result.0.to ≤ span.to) }
    ensures order { IfSome result.1 (λ rest. (result.0.to < rest.from) × (rest.from ≤ rest.to) × (rest.to ≡ span.to)) }
    ensures next { IfSome result.1 (λ rest. rest.from ≡ result.0.to + 1) }
{
    let text = text_at(line, span);
    let end = position(text, stop);
    let first = part(span, 0, end);
    if end == text.len() {
        (first, None)
    } else {
        (first, Some(part(span, end + 1, text.len() - end - 1)))
    }
}

// The label of a line's code, without the blanks at its start, and what stands behind its colon; the whole code where it has none.
fn split_label(line: &[u8], code: Span) -> (Option<Span>, Span)
    requires { IsWithin line.now code }
    ensures label { option_map (text_at line.now) result.0 ≡ label_of (text_at line.now code) }
    ensures statement { without_leading_blanks (text_at line.now result.1) ≡ statement_of (text_at line.now code) }
    ensures within { (result.1.from ≤ result.1.to) × (result.1.to ≡ code.to) }
    ensures order { AreInOrder code.from (option_to_list result.0) result.1.from }
    ensures place { code.from ≡ 0 → result.0 ≡ label_span (text_at line.now code) }
{
    let (first, behind) = cut(line, code, Stop::Colon);
    match behind {
        Some(behind) => (Some(without_leading_blanks(line, first)), behind),
        None => (None, code),
    }
}

/// The label of a line, if it has one, its word and what stands behind the word.
#[derive(Clone, Copy)]
pub(crate) struct Parts {
    pub label: Option<Span>,
    pub word: Span,
    pub operands: Span,
}

/// The parts of a line of at most 255 bytes.
pub(crate) fn parts_of(line: &[u8]) -> Parts
    requires { length line.now ≤ 255 }
    ensures label { option_map (text_at line.now) result.label ≡ label_of (code_of line.now) }
    ensures word { text_at line.now result.word ≡ word_of (statement_of (code_of line.now)) }
    ensures operands { text_at line.now result.operands ≡ behind_word (statement_of (code_of line.now)) }
    ensures order { AreInOrder 0 (option_to_list result.label ++ result.word ∷ result.operands ∷ []) (length line.now) }
    ensures label_place { result.label ≡ label_span (code_of line.now) }
    ensures word_place { result.word ≡ word_span (code_of line.now) }
    ensures operands_place { result.operands ≡ behind_span (code_of line.now) }
{
    let whole = Span {
        from: 0,
        to: line.len() as u16,
    };
    let code = before(line, whole, Stop::Semicolon);
    let (label, statement) = split_label(line, code);
    let statement = without_leading_blanks(line, statement);
    let word = before(line, statement, Stop::Blank);
    let behind = Span {
        from: word.to,
        to: statement.to,
    };
    let operands = trim(line, behind);
    Parts {
        label,
        word,
        operands,
    }
}

// The first 128 operands in what stands behind a word, and whether these are all.
#[derive(Drop)]
struct FirstOperands {
    spans: ArrayVec<Span, 128>,
    are_all: bool,
}

fn first_operands(line: &[u8], span: Span) -> FirstOperands
    requires { IsWithin line.now span }
    ensures texts { MatchBool result.are_all (map (text_at line.now) result.spans.items ≡ operands_in (text_at line.now span))
        (128 < length (operands_in (text_at line.now span))) }
    ensures order { AreInOrder span.from result.spans.items span.to }
    ensures places { result.spans.items ≡ take 128 (spans_in span.from (text_at line.now span)) }
{
    let mut operands = ArrayVec::new();
    if span.from == span.to {
        return FirstOperands {
            spans: operands,
            are_all: true,
        };
    }
    let mut rest = Some(span);
    while let Some(left) = rest {
        if operands.is_full() {
            return FirstOperands {
                spans: operands,
                are_all: false,
            };
        }
        let (operand, more) = cut(line, left, Stop::Comma);
        operands.push(trim(line, operand));
        rest = more;
    }
    FirstOperands {
        spans: operands,
        are_all: true,
    }
}

/// The operands in what stands behind a word; none where there are more than 128.
pub(crate) fn operands(line: &[u8], span: Span) -> Option<ArrayVec<Span, 128>>
    requires { IsWithin line.now span }
    ensures texts { MatchOption result (128 < length (operands_in (text_at line.now span)))
        (λ operands. map (text_at line.now) operands.items ≡ operands_in (text_at line.now span)) }
    ensures order { IfSome result (λ operands. AreInOrder span.from operands.items span.to) }
{
    let first = first_operands(line, span);
    if first.are_all {
        Some(first.spans)
    } else {
        None
    }
}

/// Where the label of a line, its word and its operands, up to 128 of them, stand.
#[derive(Drop)]
pub struct LineSpans {
    /// What stands before the first colon.
    pub label: Option<Span>,
    /// The word, which may be empty.
    pub word: Span,
    /// The operands without the blanks around them.
    pub operands: ArrayVec<Span, 128>,
}

/// The spans of a line of at most 255 bytes, whatever stands in it.
pub fn line_spans(line: &[u8]) -> LineSpans
    requires { length line.now ≤ 255 }
    ensures label { result.label ≡ label_span (code_of line.now) }
    ensures word { result.word ≡ word_span (code_of line.now) }
    ensures operands { result.operands.items ≡ operand_spans (code_of line.now) }
    ensures texts { length (operands_of (code_of line.now)) ≤ 128 → map (text_at line.now) result.operands.items ≡ operands_of (code_of line.now) }
    ensures label_within { IfSome result.label (IsWithin line.now) }
    ensures word_within { IsWithin line.now result.word }
    ensures operands_within { AreWithin line.now result.operands.items }
{
    let parts = parts_of(line);
    let first = first_operands(line, parts.operands);
    LineSpans {
        label: parts.label,
        word: parts.word,
        operands: first.spans,
    }
}
