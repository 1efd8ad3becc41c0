//! The bytes of instructions and of data.

ghost use Rattle.std.specs.Prelude.{◌≡◌, ◌≤◌, ◌+◌, ◌/◌, ◌%◌, ◌∷◌, [], ◌==◌, ℕ, List, length, map, All, Some, flat_map, IsTrue, IfOk, MatchResult, Ok, Err};
ghost use Rattle.asm_lex.specs.Words.{HasItsOperands, size_at, is_one};
ghost use Rattle.asm_lex.specs.declared.shape.Word.TheVariants.{Code};
ghost use Rattle.asm_lex.specs.Expressions.{is_expression};
ghost use Rattle.asm_lex.specs.Forms.{HasItsNumber, last_operand, most_of};
ghost use Rattle.asm_lex.specs.Names.{value_in};
ghost use Rattle.asm_lex.specs.Spans.{text_at, AreWithin};
ghost use Rattle.asm_core.specs.Names.{first_operand};
ghost use Rattle.asm_core.specs.Encoding.{word_bytes, to_page, instruction, with_number, op_bytes};
ghost use Rattle.asm_core.specs.Bytes.{bytes_in};

use crate::fault::{AsmCause, value_cause};
use crate::values::{last_value, one_value};
use arrayvec::ArrayVec;
use asm_lex::{Isa, Span, Symbols};
use chip8_words::{Form, Op, Operand, encode};
use vip_isa::size;

/// The bytes of a line.
#[derive(Drop)]
pub(crate) enum Bytes {
    /// Each byte.
    Given(ArrayVec<u8, 256>),
    /// So many bytes 00.
    Zeros(u32),
}

/// How many bytes these are.
pub(crate) fn byte_count(bytes: &Bytes) -> u32
    ensures { result ≡ length (bytes_in bytes.now) }
{
    match bytes {
        Bytes::Given(bytes) => bytes.len() as u32,
        Bytes::Zeros(count) => *count,
    }
}

/// The size of an instruction with this opcode, in bytes.
#[tactic(auto, unfolding(asm_lex::specs::Words::size_at))]
pub fn size_at(opcode: u8) -> u8
    ensures size { result ≡ size_at opcode }
    ensures least { 1 ≤ result }
    ensures most { result ≤ 3 }
{
    size(opcode)
}

// The high and the low byte of a word.
fn halves(word: u16) -> (u8, u8)
    ensures high { result.0 ≡ word / 256 }
    ensures low { result.1 ≡ word % 256 }
{
    ((word / 256) as u8, (word % 256) as u8)
}

fn one_byte(opcode: u8) -> Bytes
    ensures { bytes_in result ≡ opcode ∷ [] }
{
    let mut bytes = ArrayVec::new();
    bytes.push(opcode);
    Bytes::Given(bytes)
}

fn two_bytes(opcode: u8, operand: u8) -> Bytes
    ensures { bytes_in result ≡ opcode ∷ operand ∷ [] }
{
    let mut bytes = ArrayVec::new();
    bytes.push(opcode);
    bytes.push(operand);
    Bytes::Given(bytes)
}

fn word_bytes(word: u16) -> Bytes
    ensures { bytes_in result ≡ word_bytes word }
{
    let (high, low) = halves(word);
    two_bytes(high, low)
}

fn three_bytes(opcode: u8, word: u16) -> Bytes
    ensures { bytes_in result ≡ opcode ∷ word_bytes word }
{
    let (high, low) = halves(word);
    let mut bytes = ArrayVec::new();
    bytes.push(opcode);
    bytes.push(high);
    bytes.push(low);
    Bytes::Given(bytes)
}

// A short branch with its target, which must lie in the page of the second byte.
fn to_page(at: u32, opcode: u8, target: u16) -> Result<Bytes, AsmCause>
    requires { at ≤ 65536 }
    ensures { MatchResult result (λ bytes. to_page at opcode target ≡ Ok (bytes_in bytes)) (λ cause. to_page at opcode target ≡ Err cause) }
{
    let (_, low) = halves(target);
    if u32::from(target / 256) == (at + 1) / 256 {
        Ok(two_bytes(opcode, low))
    } else {
        Err(AsmCause::OffPage)
    }
}

#[tactic(auto, unfolding(crate::specs::Encoding::instruction))]
pub(crate) fn instruction(
    names: &Symbols,
    at: u32,
    opcode: u8,
    line: &[u8],
    operands: &[Span],
) -> Result<Bytes, AsmCause>
    requires operands { HasItsOperands Isa.Cdp1802 (Some (Code opcode)) (map (text_at line.now) operands.now) }
    requires within { AreWithin line.now operands.now }
    requires short { length line.now ≤ 255 }
    requires at { at ≤ 65536 }
    ensures { MatchResult result
        (λ bytes. instruction (value_in names.now) at opcode (first_operand (map (text_at line.now) operands.now)) ≡ Ok (bytes_in bytes))
        (λ cause. instruction (value_in names.now) at opcode (first_operand (map (text_at line.now) operands.now)) ≡ Err cause) }
{
    match size_at(opcode) {
        1 => Ok(one_byte(opcode)),
        3 => match one_value(Isa::Cdp1802, names, at, u16::MAX, line, operands) {
            Ok(target) => Ok(three_bytes(opcode, target)),
            Err(fault) => Err(value_cause(fault)),
        },
        _ if opcode / 16 == 3 => match one_value(
            Isa::Cdp1802,
            names,
            at,
            u16::MAX,
            line,
            operands,
        ) {
            Ok(target) => to_page(at, opcode, target),
            Err(fault) => Err(value_cause(fault)),
        },
        _ => match one_value(Isa::Cdp1802, names, at, 255, line, operands) {
            Ok(byte) => Ok(two_bytes(opcode, byte as u8)),
            Err(fault) => Err(value_cause(fault)),
        },
    }
}

/// The greatest number that a form takes, or 0 where it takes none.
pub(crate) fn most_of(form: Form) -> u16
    ensures { result ≡ most_of form }
{
    match form.operands() {
        [.., Operand::Byte] => 255,
        [.., Operand::Address] => 4095,
        [.., Operand::Nibble] => 15,
        _ => 0,
    }
}

#[tactic(auto, unfolding(crate::specs::Encoding::op_bytes))]
pub(crate) fn op_bytes(
    names: &Symbols,
    at: u32,
    op: Op,
    line: &[u8],
    operands: &[Span],
) -> Result<Bytes, AsmCause>
    requires operands { HasItsNumber op (map (text_at line.now) operands.now) }
    requires within { AreWithin line.now operands.now }
    requires short { length line.now ≤ 255 }
    requires at { at ≤ 65536 }
    ensures { MatchResult result
        (λ bytes. op_bytes (value_in names.now) at op (last_operand (map (text_at line.now) operands.now)) ≡ Ok (bytes_in bytes))
        (λ cause. op_bytes (value_in names.now) at op (last_operand (map (text_at line.now) operands.now)) ≡ Err cause) }
{
    let most = most_of(op.form);
    if most == 0 {
        return Ok(word_bytes(encode(&op)));
    }
    match last_value(names, at, most, line, operands) {
        Ok(number) => Ok(word_bytes(encode(&with_number(op, number)))),
        Err(fault) => Err(value_cause(fault)),
    }
}

fn with_number(op: Op, number: u16) -> Op
    ensures { result ≡ with_number op number }
{
    Op { number, ..op }
}

pub(crate) fn bytes_from(values: &[u16]) -> Bytes
    requires few { length values.now ≤ 128 }
    requires bytes { All (λ value. value ≤ 255) values.now }
    ensures { bytes_in result ≡ values.now }
{
    let mut bytes = ArrayVec::new();
    for value in values {
        bytes.push(*value as u8);
    }
    Bytes::Given(bytes)
}

pub(crate) fn words_from(values: &[u16]) -> Bytes
    requires few { length values.now ≤ 128 }
    ensures { bytes_in result ≡ flat_map word_bytes values.now }
{
    let mut bytes = ArrayVec::new();
    for value in values {
        let (high, low) = halves(*value);
        bytes.push(high);
        bytes.push(low);
    }
    Bytes::Given(bytes)
}
