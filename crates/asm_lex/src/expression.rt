//! Expressions: whether a text is one, and its value.

ghost use Rattle.std.specs.Prelude.{◌≡◌, ◌≤◌, ◌<◌, ◌+◌, ◌*◌, ◌∷◌, ◌&&◌, ◌==◌, ◌≤ℤ◌, ◌+ℤ◌, ◌-ℤ◌, ℕ, pos, nat_abs, int_le, List, length, min, Option, IsTrue, IfSome, slice_index, is_none, false, not, if◌then◌else◌, Ok, Err};
ghost use Rattle.std.specs.Option.{option_map};
ghost use Rattle.vip_byte.specs.Number.{number};
ghost use Rattle.asm_lex.specs.Bytes.{is_name};
ghost use Rattle.asm_lex.specs.Expressions.{sum_in, number_in, hexadecimal_of, binary_of, written_value, is_here, is_term, is_expression, is_large, has_large_number, term_value, terms_of, signed_terms, sum_of, value_of, prefixed, has_undefined};
ghost use Rattle.asm_lex.specs.Names.{value_in, number_named, is_register, is_number};
ghost use Rattle.asm_lex.specs.Left.{left, left_terms, left_signed, left_length};

use crate::cuts::{Stop, cut, position};
use crate::names::Symbols;
use crate::text::is_name;
use crate::{Isa, ValueFault};
use vip_byte::{NumFault, read_decimal, read_hex};

/// The greatest number that an expression may hold.
const GREATEST: u32 = 65_535;

// A number that was read with `GREATEST` as its bound, or one more than that for each greater one.
#[tactic(auto, unfolding(crate::specs::Expressions::number_in, vip_byte::specs::Number::number))]
fn cap(read: Result<u64, NumFault>) -> Option<u32>
    ensures { (base : ℕ) (digits : List ℕ) → read ≡ number base digits 65535 → result ≡ option_map (λ number. min number 65536) (number_in base digits) }
{
    match read {
        Ok(number) => u32::try_from(number).ok(),
        Err(NumFault::TooLarge) => Some(GREATEST + 1),
        Err(_) => None,
    }
}

fn hexadecimal(term: &[u8]) -> Option<u32>
    ensures { result ≡ option_map (λ number. min number 65536) (hexadecimal_of term.now) }
{
    match term {
        [b'0', b'x', digits @ ..] => cap(read_hex(digits, u64::from(GREATEST))),
        _ => None,
    }
}

// A number and one binary digit behind it.
fn with_bit(number: u32, bit: u32) -> u32
    requires number { number ≤ 65536 }
    requires bit { bit < 2 }
    ensures { result ≡ min (number * 2 + bit) 65536 }
{
    (number * 2 + bit).min(GREATEST + 1)
}

fn binary_digits(digits: &[u8]) -> Option<u32>
    ensures { result ≡ option_map (λ number. min number 65536) (number_in 2 digits.now) }
{
    let mut number = 0;
    for byte in digits {
        let Some(bit) = char::from(*byte).to_digit(2) else {
            return None;
        };
        number = with_bit(number, bit);
    }
    if digits.is_empty() {
        None
    } else {
        Some(number)
    }
}

fn binary(isa: Isa, term: &[u8]) -> Option<u32>
    ensures { result ≡ option_map (λ number. min number 65536) (binary_of isa term.now) }
{
    match (isa, term) {
        (Isa::Chip8, [b'0', b'b', digits @ ..]) => binary_digits(digits),
        _ => None,
    }
}

/// The value of a number, or 65536 for each one above 65535; none where the term is no number.
#[tactic(auto, unfolding(crate::specs::Expressions::written_value))]
fn number(isa: Isa, term: &[u8]) -> Option<u32>
    ensures { result ≡ option_map (λ number. min number 65536) (written_value isa term.now) }
{
    if let Some(number) = cap(read_decimal(term, u64::from(GREATEST))) {
        return Some(number);
    }
    match hexadecimal(term) {
        Some(number) => Some(number),
        None => binary(isa, term),
    }
}

#[tactic(auto, unfolding(crate::specs::Expressions::is_here))]
fn is_here(term: &[u8]) -> bool
    ensures { result ≡ is_here term.now }
{
    matches!(term, [b'$'])
}

fn is_term(isa: Isa, term: &[u8]) -> bool
    ensures { result ≡ is_term isa term.now }
{
    number(isa, term).is_some() || is_here(term) || is_name(isa, term)
}

pub(crate) fn is_large(isa: Isa, term: &[u8]) -> bool
    ensures { result ≡ is_large isa term.now }
{
    match number(isa, term) {
        Some(number) => number > GREATEST,
        None => false,
    }
}

#[tactic(auto, unfolding(crate::specs::Expressions::sum_in))]
pub(crate) fn without_prefix(text: &[u8]) -> &[u8]
    ensures value { result.now ≡ sum_in text.now }
    ensures within { length result.now ≤ length text.now }
{
    match text {
        [b'<' | b'>', sum @ ..] => sum,
        _ => text,
    }
}

// Whether a term is a name of a register.
#[tactic(auto, unfolding(crate::specs::Names::is_register))]
fn is_register(isa: Isa, names: &Symbols, term: &[u8]) -> bool
    ensures { result ≡ is_register isa (value_in names.now) term.now }
{
    match isa {
        Isa::Cdp1802 => false,
        Isa::Chip8 => names.register(term).is_some(),
    }
}

// Whether a text is a term of an operand that stands for a number.
fn is_number_term(isa: Isa, names: &Symbols, term: &[u8]) -> bool
    ensures { result ≡ (is_term isa term.now && not (is_register isa (value_in names.now) term.now)) }
{
    is_term(isa, term) && !is_register(isa, names, term)
}

/// Whether an operand may stand for a number.
pub(crate) fn is_number(isa: Isa, names: &Symbols, text: &[u8]) -> bool
    ensures { result ≡ is_number isa (value_in names.now) text.now }
{
    let mut rest = Some(without_prefix(text));
    while let Some(sum) = rest {
        let (term, more) = cut(sum, Stop::Sign);
        if !is_number_term(isa, names, term) {
            return false;
        }
        rest = more;
    }
    true
}

/// Whether a number above 65535 is written in an expression.
pub fn has_large_number(isa: Isa, text: &[u8]) -> bool
    ensures { result ≡ has_large_number isa text.now }
{
    let mut rest = Some(without_prefix(text));
    while let Some(sum) = rest {
        let (term, more) = cut(sum, Stop::Sign);
        if is_large(isa, term) {
            return true;
        }
        rest = more;
    }
    false
}

// The value of a term, and 65536 for a number above 65535; none for a name that has no value.
#[tactic(auto, unfolding(crate::specs::Expressions::term_value))]
fn term_value(isa: Isa, names: &Symbols, here: u32, term: &[u8]) -> Option<u32>
    requires { here ≤ 65536 }
    ensures variant { is_none result ≡ is_none (term_value isa (number_named (value_in names.now)) here term.now) }
    ensures value { is_large isa term.now ≡ false → result ≡ term_value isa (number_named (value_in names.now)) here term.now }
    ensures within { IfSome result (λ value. value ≤ 65536) }
{
    if let Some(number) = number(isa, term) {
        return Some(number);
    }
    if is_here(term) {
        return Some(here);
    }
    match names.number(term) {
        Some(number) => Some(u32::from(number)),
        None => None,
    }
}

// The first term of a sum, and what stands behind it: a sign and the terms that follow.
fn first_term(sum: &[u8]) -> (&[u8], Option<(u8, &[u8])>)
    ensures terms { terms_of sum.now ≡ result.0.now ∷ left_terms (left result.1) }
    ensures signed { (sign : ℕ) → signed_terms sign sum.now ≡ (sign, result.0.now) ∷ left_signed (left result.1) }
    ensures shorter { left_length (left result.1) ≤ length sum.now }
{
    let end = position(sum, Stop::Sign);
    if end == sum.len() {
        (sum, None)
    } else {
        (&sum[..end], Some((sum[end], &sum[end + 1..])))
    }
}

// A sum and one more term. No more than 256 terms come together.
fn with_term(sum: i64, sign: u8, value: u32) -> i64
    requires lowest { pos 0 ≤ℤ (sum +ℤ pos 16777216) }
    requires highest { sum ≤ℤ pos 16777216 }
    requires term { value ≤ 65536 }
    ensures value { result ≡ (if sign == 45 then sum -ℤ pos value else sum +ℤ pos value) }
    ensures low { sum ≤ℤ (result +ℤ pos 65536) }
    ensures high { result ≤ℤ (sum +ℤ pos 65536) }
{
    if sign == b'-' {
        sum - i64::from(value)
    } else {
        sum + i64::from(value)
    }
}

// The sum of an expression without a large number; none where a name in it has no value.
fn sum(isa: Isa, names: &Symbols, here: u32, text: &[u8]) -> Option<i64>
    requires short { length text.now ≤ 255 }
    requires here { here ≤ 65536 }
    ensures undefined { is_none result ≡ has_undefined isa (number_named (value_in names.now)) here text.now }
    ensures value { has_large_number isa text.now ≡ false →
        IfSome result (λ sum. sum ≡ sum_of isa (number_named (value_in names.now)) here text.now) }
{
    let mut rest = Some((b'+', without_prefix(text)));
    let mut sum = 0;
    while let Some((sign, terms)) = rest {
        let (term, more) = first_term(terms);
        let Some(value) = term_value(isa, names, here, term) else {
            return None;
        };
        sum = with_term(sum, sign, value);
        rest = more;
    }
    Some(sum)
}

// A sum that a prefix may be applied to.
fn word(sum: i64) -> Result<u16, ValueFault>
    ensures { result ≡ (if int_le (pos 0) sum && int_le sum (pos 65535) then Ok (nat_abs sum) else Err ValueFault.Range) }
{
    if 0 <= sum && sum <= i64::from(GREATEST) {
        Ok(sum as u16)
    } else {
        Err(ValueFault::Range)
    }
}

fn apply_prefix(text: &[u8], sum: i64) -> Result<i64, ValueFault>
    ensures { result ≡ prefixed (slice_index text.now 0) sum }
{
    match text {
        [b'<', ..] => Ok(i64::from(word(sum)? % 256)),
        [b'>', ..] => Ok(i64::from(word(sum)? / 256)),
        _ => Ok(sum),
    }
}

/// The value of an expression of at most 255 bytes in a line that begins at the address `here`, at most 65536, or its first fault. `names` has the values
/// of its names.
#[tactic(auto, unfolding(crate::specs::Expressions::value_of))]
pub fn value(isa: Isa, names: &Symbols, here: u32, text: &[u8]) -> Result<i64, ValueFault>
    requires short { length text.now ≤ 255 }
    requires here { here ≤ 65536 }
    ensures { result ≡ value_of isa (number_named (value_in names.now)) here text.now }
{
    let Some(sum) = sum(isa, names, here, text) else {
        return Err(ValueFault::Undefined);
    };
    if has_large_number(isa, text) {
        return Err(ValueFault::Range);
    }
    apply_prefix(text, sum)
}
