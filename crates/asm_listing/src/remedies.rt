//! What to write in place of a habit of other assemblers.

ghost use Rattle.std.specs.Prelude.{◌≡◌, ◌≤◌, ◌++◌, [], drop, take, find, flat_map, length, is_some, map, option_map, slice_index, unwrap_or, IfOk, OnOk};
ghost use Rattle.std.specs.List.{list_all};
ghost use Rattle.std.specs.Str.{str_eq_ignore_ascii_case};
ghost use Rattle.vip_byte.specs.HexText.{hex2};
ghost use Rattle.asm_lex.specs.Culprits.{missing_colon};
ghost use Rattle.asm_listing.specs.Comments.{is_foreign};
ghost use Rattle.asm_lex.specs.Names.{value_in, number_named};
ghost use Rattle.asm_listing.specs.Habits.{row_of, shape_of, registers, rows, octo_rows};
ghost use Rattle.asm_listing.specs.Remedies.{is_digit_of, are_digits, begins_decimal, before_last, last_of, is_nought, is_one_digit, is_of, begins, behind_of, behind_opening, before_closing, holds, is_one_of, some_if, between, found, is_after, fits, binary_value, binary_text, piece, said, row_that_fits, habit, word_in, first_operand, habit_in, is_octo, label_text, not_ascii, other_remedy, register_text, register_named, if_given, as_written, named_remedy, remedy};

use crate::habits::{Class, REGISTERS, Row, Shape, octo_rows, rows, words_of};
use crate::write::{append, join};
use asm_core::AsmCause;
use asm_lex::{Isa, Symbols, is_label, line_spans, missing_colon, text_at};
use std::alloc::{AllocError, Global};
use vip_byte::{hex2, hex4};

/// A remedy, where a culprit is a habit.
type Remedy = Result<Option<Vec<u8>>, AllocError>;

// Whether a byte is one of which a class of texts is made.
fn is_digit_of(class: Class, byte: u8) -> bool
    ensures { result ≡ is_digit_of class byte }
{
    match class {
        Class::Port => b'1' <= byte && byte <= b'7',
        Class::Decimal => byte.is_ascii_digit(),
        Class::Binary => byte == b'0' || byte == b'1',
        _ => byte.is_ascii_hexdigit(),
    }
}

fn are_all(class: Class, text: &[u8]) -> bool
    ensures { result ≡ list_all (is_digit_of class) text.now }
{
    for byte in text {
        if !is_digit_of(class, *byte) {
            return false;
        }
    }
    true
}

fn are_digits(class: Class, text: &[u8]) -> bool
    ensures { result ≡ are_digits class text.now }
{
    !text.is_empty() && are_all(class, text)
}

fn begins_decimal(text: &[u8]) -> bool
    ensures { result ≡ begins_decimal text.now }
{
    match text {
        [first, ..] => first.is_ascii_digit(),
        [] => false,
    }
}

fn before_last(text: &[u8]) -> &[u8]
    ensures { result.now ≡ before_last text.now }
{
    &text[..text.len().saturating_sub(1)]
}

fn last_of(text: &[u8]) -> &[u8]
    ensures { result.now ≡ last_of text.now }
{
    &text[text.len().saturating_sub(1)..]
}

fn are_noughts(text: &[u8]) -> bool
    ensures { result ≡ list_all is_nought text.now }
{
    text.iter().all(|byte| *byte == b'0')
}

fn is_one_digit(class: Class, text: &[u8]) -> bool
    ensures { result ≡ is_one_digit class text.now }
{
    are_noughts(before_last(text)) && are_digits(class, last_of(text))
}

#[tactic(auto, unfolding(crate::specs::Remedies::is_of))]
fn is_of(isa: Isa, class: Class, text: &[u8]) -> bool
    ensures { result ≡ is_of isa class text.now }
{
    match class {
        Class::Any => true,
        Class::Hexadecimal => are_digits(class, text),
        Class::HexNumber => are_digits(class, text) && begins_decimal(text),
        Class::HexDigit => are_digits(class, text) && text.len() == 1,
        Class::Digit => is_one_digit(class, text),
        Class::Port => is_one_digit(class, text),
        Class::Decimal => are_digits(class, text),
        Class::Binary => are_digits(class, text) && text.len() <= 16,
        Class::Character => text.len() == 1,
        Class::Name => is_label(isa, text),
        Class::Number => begins_decimal(text),
    }
}

fn is_same(word: &str, text: &[u8]) -> bool
    ensures { result ≡ str_eq_ignore_ascii_case text.now word.now }
{
    text.eq_ignore_ascii_case(word.as_bytes())
}

fn behind(text: &[u8], count: usize) -> &[u8]
    requires { count ≤ length text.now }
    ensures { result.now ≡ drop count text.now }
{
    &text[count..]
}

fn before(text: &[u8], count: usize) -> &[u8]
    requires { count ≤ length text.now }
    ensures { result.now ≡ take count text.now }
{
    &text[..count]
}

fn begins(opening: &str, text: &[u8]) -> bool
    ensures { result ≡ begins opening.now text.now }
{
    is_same(opening, before(text, opening.len().min(text.len())))
}

fn behind_of<'a>(opening: &str, text: &'a [u8]) -> &'a [u8]
    ensures { result.now ≡ behind_of opening.now text.now }
{
    behind(text, opening.len().min(text.len()))
}

fn behind_opening<'a>(opening: &str, text: &'a [u8]) -> Option<&'a [u8]>
    ensures { option_map (λ rest. rest.now) result ≡ behind_opening opening.now text.now }
{
    if begins(opening, text) {
        Some(behind_of(opening, text))
    } else {
        None
    }
}

fn before_closing<'a>(closing: &str, text: &'a [u8]) -> Option<&'a [u8]>
    ensures { option_map (λ front. front.now) result ≡ before_closing closing.now text.now }
{
    let count = text.len().saturating_sub(closing.len());
    if is_same(closing, behind(text, count)) {
        Some(before(text, count))
    } else {
        None
    }
}

// Whether a text begins so at some place.
fn holds(opening: &str, text: &[u8]) -> bool
    ensures { result ≡ holds opening.now text.now }
{
    match text {
        [] => begins(opening, text),
        [_, rest @ ..] => begins(opening, text) || holds(opening, rest),
    }
}

fn is_one_of(words: &[&str], text: &[u8]) -> bool
    ensures { result ≡ is_one_of (map (λ word. word.now) words.now) text.now }
{
    for word in words {
        if is_same(word, text) {
            return true;
        }
    }
    false
}

fn some_if(test: bool, text: &[u8]) -> Option<&[u8]>
    ensures { option_map (λ text. text.now) result ≡ some_if test text.now }
{
    if test { Some(text) } else { None }
}

fn between<'a>(
    isa: Isa,
    opening: &str,
    class: Class,
    closing: &str,
    text: &'a [u8],
) -> Option<&'a [u8]>
    ensures { option_map (λ middle. middle.now) result ≡ between isa opening.now class closing.now text.now }
{
    let text = before_closing(closing, text)?;
    let middle = behind_opening(opening, text)?;
    some_if(is_of(isa, class, middle), middle)
}

// What a shape finds in a text.
#[tactic(auto, unfolding(crate::specs::Remedies::found))]
fn found<'a>(isa: Isa, shape: &Shape, text: &'a [u8]) -> Option<&'a [u8]>
    ensures { option_map (λ part. part.now) result ≡ found isa (shape_of shape.now) text.now }
{
    match shape {
        Shape::Words(words) => some_if(is_one_of(words, text), text),
        Shape::Between(opening, class, closing) => between(isa, opening, *class, closing, text),
        Shape::Holds(piece) => some_if(holds(piece, text), text),
    }
}

fn has(isa: Isa, shape: &Shape, text: &[u8]) -> bool
    ensures { result ≡ is_some (found isa (shape_of shape.now) text.now) }
{
    found(isa, shape, text).is_some()
}

fn is_after(words: &[&str], word: &[u8]) -> bool
    ensures { result ≡ is_after (map (λ word. word.now) words.now) word.now }
{
    match words {
        [] => true,
        [_, ..] => is_one_of(words, word),
    }
}

#[tactic(auto, unfolding(crate::specs::Remedies::fits))]
fn fits(isa: Isa, word: &[u8], first: &[u8], text: &[u8], row: &Row) -> bool
    ensures { result ≡ fits isa word.now first.now text.now (row_of row.now) }
{
    is_after(words_of(row.after), word) && begins(row.behind, first) && has(isa, &row.shape, text)
}

// The first of some habits that fits.
fn first_that_fits(isa: Isa, word: &[u8], first: &[u8], text: &[u8], rows: &[Row]) -> Option<Row>
    ensures { option_map row_of result ≡ find (fits isa word.now first.now text.now) (map row_of rows.now) }
{
    for row in rows {
        if fits(isa, word, first, text, row) {
            return Some(*row);
        }
    }
    None
}

/// Whether a word is a habit, whatever stands behind it.
pub(crate) fn is_foreign(isa: Isa, word: &[u8]) -> bool
    ensures { result ≡ is_foreign isa word.now }
{
    let habits = rows(isa, AsmCause::UnknownMnemonic);
    some_fits(isa, &[], &[], word, habits)
}

fn binary_value(digits: &[u8]) -> u16
    ensures { result ≡ binary_value digits.now }
{
    let mut value = 0u32;
    for digit in digits {
        value = (value * 2 + u32::from(*digit % 2)) % 65_536;
    }
    value as u16
}

fn append_binary(text: &mut Vec<u8>, digits: &[u8]) -> Result<(), AllocError>
    ensures { OnOk result (text.new.items ≡ text.old.items ++ binary_text digits.now) }
{
    let value = binary_value(digits);
    if digits.len() > 8 {
        append(text, &hex4(value))
    } else {
        append(text, &hex2((value % 256) as u8))
    }
}

fn code_of_first(text: &[u8]) -> [u8; 2]
    ensures { result ≡ hex2 (slice_index text.now 0) }
{
    match text {
        [first, ..] => hex2(*first),
        [] => hex2(0),
    }
}

// Appends what a byte of what is said stands for.
#[tactic(auto, unfolding(crate::specs::Remedies::piece))]
fn append_piece(
    text: &mut Vec<u8>,
    word: &[u8],
    rest: &[u8],
    middle: &[u8],
    byte: u8,
) -> Result<(), AllocError>
    ensures { OnOk result (text.new.items ≡ text.old.items ++ piece word.now rest.now middle.now byte) }
{
    match byte {
        b'@' => append(text, middle),
        b'%' => append_binary(text, middle),
        b'&' => append(text, &code_of_first(middle)),
        b'^' => append(text, last_of(middle)),
        b'|' => append(text, word),
        b'~' => append(text, rest),
        _ => append(text, &[byte]),
    }
}

fn expand(
    alloc: Global,
    word: &[u8],
    rest: &[u8],
    middle: &[u8],
    says: &[u8],
) -> Result<Vec<u8>, AllocError>
    ensures { IfOk result (λ text. text.items ≡ flat_map (piece word.now rest.now middle.now) says.now) }
{
    let mut text = Vec::new(alloc);
    for byte in says {
        append_piece(&mut text, word, rest, middle, *byte)?;
    }
    Ok(text)
}

fn or_empty(part: Option<&[u8]>) -> &[u8]
    ensures { result.now ≡ unwrap_or (option_map (λ part. part.now) part.entry) [] }
{
    match part {
        Some(part) => part,
        None => &[],
    }
}

#[tactic(auto, unfolding(crate::specs::Remedies::said))]
fn said(
    alloc: Global,
    isa: Isa,
    word: &[u8],
    first: &[u8],
    text: &[u8],
    row: Row,
) -> Result<Vec<u8>, AllocError>
    ensures { IfOk result (λ remedy. remedy.items ≡ said isa word.now first.now text.now (row_of row)) }
{
    let rest = behind_of(row.behind, first);
    let middle = or_empty(found(isa, &row.shape, text));
    expand(alloc, word, rest, middle, row.says.as_bytes())
}

// The first habit that fits.
fn row_that_fits(isa: Isa, cause: AsmCause, word: &[u8], first: &[u8], text: &[u8]) -> Option<Row>
    ensures { option_map row_of result ≡ row_that_fits isa cause word.now first.now text.now }
{
    let octo = octo_rows(isa, cause);
    match first_that_fits(isa, word, first, text, octo) {
        Some(row) => Some(row),
        None => {
            let habits = rows(isa, cause);
            first_that_fits(isa, word, first, text, habits)
        }
    }
}

#[tactic(auto, unfolding(crate::specs::Remedies::habit))]
fn habit(alloc: Global, isa: Isa, cause: AsmCause, word: &[u8], first: &[u8], text: &[u8]) -> Remedy
    ensures { IfOk result (λ remedy. option_map (λ remedy. remedy.items) remedy ≡ habit isa cause word.now first.now text.now) }
{
    match row_that_fits(isa, cause, word, first, text) {
        Some(row) => Ok(Some(said(alloc, isa, word, first, text, row)?)),
        None => Ok(None),
    }
}

/// The word of a line; none where it is longer than 255 bytes.
pub(crate) fn word_in(line: &[u8]) -> &[u8]
    ensures { result.now ≡ word_in line.now }
{
    if line.len() > 255 {
        return &[];
    }
    text_at(line, line_spans(line).word)
}

/// The first operand of a line, where it has one; none where the line is longer than 255 bytes.
pub(crate) fn first_operand(line: &[u8]) -> &[u8]
    ensures { result.now ≡ first_operand line.now }
{
    if line.len() > 255 {
        return &[];
    }
    let spans = line_spans(line);
    match spans.operands.as_slice() {
        [first, ..] => text_at(line, *first),
        [] => &[],
    }
}

fn habit_in(alloc: Global, isa: Isa, cause: AsmCause, line: &[u8], text: &[u8]) -> Remedy
    ensures { IfOk result (λ remedy. option_map (λ remedy. remedy.items) remedy ≡ habit_in isa cause line.now text.now) }
{
    if line.len() > 255 {
        return Ok(None);
    }
    habit(alloc, isa, cause, word_in(line), first_operand(line), text)
}

// Whether one of some habits fits.
fn some_fits(isa: Isa, word: &[u8], first: &[u8], text: &[u8], rows: &[Row]) -> bool
    ensures { result ≡ is_some (find (fits isa word.now first.now text.now) (map row_of rows.now)) }
{
    match first_that_fits(isa, word, first, text, rows) {
        Some(_) => true,
        None => false,
    }
}

/// Whether the culprit of a line is a statement of Octo.
#[tactic(auto, unfolding(crate::specs::Remedies::is_octo))]
pub(crate) fn is_octo(isa: Isa, cause: AsmCause, line: &[u8], text: &[u8]) -> bool
    ensures { result ≡ is_octo isa cause line.now text.now }
{
    let octo = octo_rows(isa, cause);
    line.len() <= 255 && some_fits(isa, word_in(line), first_operand(line), text, octo)
}

fn label_remedy(alloc: Global, isa: Isa, line: &[u8], word: &[u8]) -> Remedy
    ensures { IfOk result (λ remedy. option_map (λ remedy. remedy.items) remedy ≡ label_text word.now (missing_colon isa line.now)) }
{
    if missing_colon(isa, line).is_none() {
        return Ok(None);
    }
    let label = join(alloc, word, b":")?;
    Ok(Some(join(alloc, b"write a label as ", label.as_slice())?))
}

fn ascii_remedy(alloc: Global, text: &[u8]) -> Remedy
    ensures { IfOk result (λ remedy. option_map (λ remedy. remedy.items) remedy ≡ not_ascii text.now) }
{
    match text {
        [byte, ..] if *byte > 127 => {
            Ok(Some(Vec::from_slice(alloc, b"a line can contain only ASCII")?))
        }
        _ => Ok(None),
    }
}

// The remedy of a culprit that is no habit.
fn other_remedy(alloc: Global, isa: Isa, cause: AsmCause, line: &[u8], text: &[u8]) -> Remedy
    ensures { IfOk result (λ remedy. option_map (λ remedy. remedy.items) remedy ≡ other_remedy isa cause line.now text.now) }
{
    match cause {
        AsmCause::BadText => ascii_remedy(alloc, text),
        AsmCause::UnknownMnemonic => label_remedy(alloc, isa, line, text),
        _ => Ok(None),
    }
}

fn register_text(alloc: Global, number: Option<u16>) -> Remedy
    ensures { IfOk result (λ remedy. option_map (λ remedy. remedy.items) remedy ≡ register_text number) }
{
    match number {
        Some(number) if number < 16 => {
            let digits = hex2(number as u8);
            let text = join(alloc, b"registers have no names: use R", last_of(&digits))?;
            Ok(Some(text))
        }
        _ => Ok(None),
    }
}

// A name that stands for the number of a register, where a register is due.
fn register_named(alloc: Global, isa: Isa, given: &Symbols, word: &[u8], text: &[u8]) -> Remedy
    ensures { IfOk result (λ remedy. option_map (λ remedy. remedy.items) remedy ≡ register_named isa (value_in given.now) word.now text.now) }
{
    match isa {
        Isa::Cdp1802 if is_one_of(REGISTERS, word) => register_text(alloc, given.number(text)),
        _ => Ok(None),
    }
}

fn if_given(alloc: Global, given: &Symbols, text: &[u8]) -> Remedy
    ensures { IfOk result (λ remedy. option_map (λ remedy. remedy.items) remedy ≡ if_given (value_in given.now) text.now) }
{
    if given.get(text).is_none() {
        return Ok(None);
    }
    Ok(Some(join(alloc, text, b", as it is defined")?))
}

// A name that isn't given, but is so in capitals or in small letters.
fn as_written(alloc: Global, given: &Symbols, text: &[u8]) -> Remedy
    ensures { IfOk result (λ remedy. option_map (λ remedy. remedy.items) remedy ≡ as_written (value_in given.now) text.now) }
{
    if given.get(text).is_some() {
        return Ok(None);
    }
    let capitals = text.to_ascii_uppercase(alloc)?;
    match if_given(alloc, given, capitals.as_slice())? {
        Some(remedy) => Ok(Some(remedy)),
        None => {
            let small = text.to_ascii_lowercase(alloc)?;
            if_given(alloc, given, small.as_slice())
        }
    }
}

/// The remedy of a culprit of a line by the names that the lines of its source give, where there is one.
pub(crate) fn named_remedy(
    alloc: Global,
    isa: Isa,
    given: &Symbols,
    cause: AsmCause,
    line: &[u8],
    text: &[u8],
) -> Remedy
    ensures { IfOk result (λ remedy. option_map (λ remedy. remedy.items) remedy ≡ named_remedy isa (value_in given.now) cause line.now text.now) }
{
    match cause {
        AsmCause::BadOperand => register_named(alloc, isa, given, word_in(line), text),
        AsmCause::Undefined => as_written(alloc, given, text),
        _ => Ok(None),
    }
}

/// The remedy of a culprit of a line, where there is one.
#[tactic(auto, unfolding(crate::specs::Remedies::remedy))]
pub(crate) fn remedy(alloc: Global, isa: Isa, cause: AsmCause, line: &[u8], text: &[u8]) -> Remedy
    ensures { IfOk result (λ found. option_map (λ found. found.items) found ≡ remedy isa cause line.now text.now) }
{
    match other_remedy(alloc, isa, cause, line, text)? {
        Some(remedy) => Ok(Some(remedy)),
        None => habit_in(alloc, isa, cause, line, text),
    }
}
