//! A line in both passes: in pass 1 the value of its label and the address behind it, in pass 2 its bytes.

ghost use Rattle.std.specs.Prelude.{◌≡◌, ◌≤◌, ◌+◌, ◌/◌, ◌*◌, ℕ, Bool, List, length, map, IsTrue, IfOk, IfSome, MatchResult, option_map, IsSome, not, Ok, Err};
ghost use Rattle.std.specs.Bool.{OnFalse};
ghost use Rattle.asm_lex.specs.Words.{HasItsOperands, is_one};
ghost use Rattle.asm_lex.specs.Spans.{text_at, AreWithin, IsWithin};
ghost use Rattle.asm_lex.specs.Expressions.{is_expression};
ghost use Rattle.asm_lex.specs.Lines.{operands_of, Reads};
ghost use Rattle.asm_lex.specs.Names.{Names, value_in, IsValue};
ghost use Rattle.asm_lex.specs.Parts.{code_of};
ghost use Rattle.asm_lex.specs.Ranges.{origin_of, last_of};
ghost use Rattle.asm_core.specs.Names.{first_operand};
ghost use Rattle.asm_core.specs.Bytes.{bytes_in};
ghost use Rattle.asm_core.specs.Layout.{encoded, encoded_parts, laid, symbol_value, HasItsValue, page_above, org_address, placed, is_past, is_too_large, judged, laid_out, label_in, is_duplicate};

use crate::encode::{Bytes, bytes_from, instruction, op_bytes, size_at, words_from};
use crate::fault::{AsmCause, cause_of, value_cause};
use crate::values::{has_large_number_in, one_value, values_of};
use asm_lex::{Isa, Span, SymbolValue, Symbols, ValueFault, Word, line, operands, text_at};

/// The value that a label of a line has or would have.
#[derive(Clone, Copy)]
pub enum LabelValue {
    /// An address, at most 65,536: the new one where the line moves it, else the one at which the line begins.
    Address(u32),
    /// What EQU gives.
    Given(SymbolValue),
}

/// What pass 1 finds of a line.
#[derive(Clone, Copy)]
pub(crate) struct Laid {
    /// The value of its label.
    pub value: LabelValue,
    /// The address behind it.
    pub next: u32,
}

fn page_above(at: u32) -> u32
    requires { at ≤ 65536 }
    ensures page { result ≡ page_above at }
    ensures within { result ≤ 65536 }
{
    at.div_ceil(256) * 256
}

/// The lowest address of an instruction set's programs.
pub(crate) fn origin_of(isa: Isa) -> u32
    ensures { result ≡ origin_of isa }
{
    match isa {
        Isa::Cdp1802 => 0x0000,
        Isa::Chip8 => 0x0200,
    }
}

/// The highest address of an instruction set's programs.
pub(crate) fn last_of(isa: Isa) -> u16
    ensures { result ≡ last_of isa }
{
    match isa {
        Isa::Cdp1802 => 0xFFFF,
        Isa::Chip8 => 0x0FFF,
    }
}

// The address that ORG sets.
fn org_address(
    isa: Isa,
    names: &Symbols,
    at: u32,
    line: &[u8],
    operands: &[Span],
) -> Result<u16, ValueFault>
    requires expression { IsTrue (is_one (is_expression isa) (map (text_at line.now) operands.now)) }
    requires within { AreWithin line.now operands.now }
    requires short { length line.now ≤ 255 }
    requires at { at ≤ 65536 }
    ensures { result ≡ org_address isa (value_in names.now) at (first_operand (map (text_at line.now) operands.now)) }
{
    match one_value(isa, names, at, last_of(isa), line, operands) {
        Ok(address) if u32::from(address) < origin_of(isa) => Err(ValueFault::Range),
        Ok(address) => Ok(address),
        Err(fault) => Err(fault),
    }
}

// What a word does to the address at which its line begins.
#[tactic(auto, unfolding(crate::specs::Layout::placed))]
fn place(
    isa: Isa,
    names: &Symbols,
    at: u32,
    line: &[u8],
    word: Option<Word>,
    operands: &[Span],
) -> Result<Laid, ValueFault>
    requires operands { HasItsOperands isa word (map (text_at line.now) operands.now) }
    requires within { AreWithin line.now operands.now }
    requires short { length line.now ≤ 255 }
    requires few { length operands.now ≤ 128 }
    requires at { at ≤ 65536 }
    ensures given { IfOk result (λ laid. HasItsValue laid.value) }
    ensures placed { result ≡ placed isa (value_in names.now) at word (map (text_at line.now) operands.now) }
{
    match word {
        None => Ok(behind(at, 0)),
        Some(Word::Code(opcode)) => Ok(behind(at, u32::from(size_at(opcode)))),
        Some(Word::Instruction(_)) => Ok(behind(at, 2)),
        Some(Word::Db) => Ok(behind(at, operands.len() as u32)),
        Some(Word::Dw) => Ok(behind(at, 2 * operands.len() as u32)),
        Some(Word::Page) => Ok(move_to(page_above(at))),
        Some(Word::Org) => {
            let address = org_address(isa, names, at, line, operands)?;
            Ok(move_to(u32::from(address)))
        }
        Some(Word::Equ) => {
            let value = one_value(isa, names, at, u16::MAX, line, operands)?;
            Ok(give(SymbolValue::Number(value), at))
        }
        Some(Word::EquRegister(register)) => Ok(give(SymbolValue::Register(register), at)),
        Some(Word::Ds) => {
            let count = one_value(isa, names, at, u16::MAX, line, operands)?;
            Ok(behind(at, u32::from(count)))
        }
    }
}

// A line with so many bytes.
fn behind(at: u32, count: u32) -> Laid
    requires at { at ≤ 65536 }
    requires count { count ≤ 65536 }
    ensures { result ≡ laid (LabelValue.Address at) (at + count) }
{
    Laid {
        value: LabelValue::Address(at),
        next: at + count,
    }
}

// A line that moves the address.
fn move_to(address: u32) -> Laid
    ensures { result ≡ laid (LabelValue.Address address) address }
{
    Laid {
        value: LabelValue::Address(address),
        next: address,
    }
}

// A line that gives its label a value.
fn give(value: SymbolValue, at: u32) -> Laid
    ensures { result ≡ laid (LabelValue.Given value) at }
{
    Laid {
        value: LabelValue::Given(value),
        next: at,
    }
}

fn is_past(last: u16, value: LabelValue) -> bool
    ensures past { result ≡ is_past last value }
    ensures low { OnFalse result (IsTrue (not (is_past 65535 value))) }
{
    match value {
        LabelValue::Address(address) => address > u32::from(last),
        LabelValue::Given(_) => false,
    }
}

// Whether bytes would pass the last address, or a label stands behind it.
fn is_too_large(isa: Isa, has_label: bool, laid: Laid) -> bool
    ensures too_large { result ≡ is_too_large isa has_label laid }
    ensures next { OnFalse result (laid.next ≤ 65536) }
    ensures value { OnFalse result (IsTrue has_label → IsTrue (not (is_past 65535 laid.value))) }
{
    let last = last_of(isa);
    laid.next > u32::from(last) + 1 || (has_label && is_past(last, laid.value))
}

// The first cause of a line whose label is new.
#[tactic(auto, unfolding(crate::specs::Layout::judged))]
fn judge(
    isa: Isa,
    has_label: bool,
    large: bool,
    placed: Result<Laid, ValueFault>,
) -> Result<Laid, AsmCause>
    requires { IfOk placed (λ laid. HasItsValue laid.value) }
    ensures cause { result ≡ judged isa has_label large placed }
    ensures given { IfOk result (λ laid. HasItsValue laid.value) }
    ensures next { IfOk result (λ laid. laid.next ≤ 65536) }
    ensures value { IfOk result (λ laid. IsTrue has_label → IsTrue (not (is_past 65535 laid.value))) }
{
    match placed {
        Err(fault) => Err(value_cause(fault)),
        Ok(_) if large => Err(AsmCause::Range),
        Ok(laid) if is_too_large(isa, has_label, laid) => Err(AsmCause::TooLarge),
        Ok(laid) => Ok(laid),
    }
}

/// What a name stands for whose label has this value, an address of at most 65,535.
pub(crate) fn symbol_value(value: LabelValue) -> SymbolValue
    requires low { IsTrue (not (is_past 65535 value)) }
    requires given { HasItsValue value }
    ensures symbol { result ≡ symbol_value value }
    ensures value { IsValue result }
{
    match value {
        LabelValue::Address(address) => SymbolValue::Number(address as u16),
        LabelValue::Given(value) => value,
    }
}

/// A line in pass 1: its label, if it has one, its word, and where it stands.
#[derive(Drop)]
pub(crate) struct PlacedLine {
    pub label: Option<Span>,
    pub word: Option<Word>,
    pub laid: Laid,
}

fn is_duplicate(names: &Symbols, line: &[u8], label: Option<Span>) -> bool
    requires { IfSome label (IsWithin line.now) }
    ensures { result ≡ is_duplicate (value_in names.now) (option_map (text_at line.now) label) }
{
    match label {
        Some(label) => names.get(text_at(line, label)).is_some(),
        None => false,
    }
}

/// Pass 1 over a line that begins at the address `at`, where `names` are those of the earlier lines.
pub(crate) fn lay_out(
    isa: Isa,
    names: &Symbols,
    at: u32,
    bytes: &[u8],
) -> Result<PlacedLine, AsmCause>
    requires at { at ≤ 65536 }
    ensures laid { MatchResult result
        (λ line. laid_out isa (value_in names.now) at bytes.now ≡ Ok line.laid)
        (λ cause. laid_out isa (value_in names.now) at bytes.now ≡ Err cause) }
    ensures reads { IfOk result (λ line. Reads isa (value_in names.now) bytes.now line.word) }
    ensures label { IfOk result (λ line.
        (label_in isa (value_in names.now) bytes.now ≡ option_map (text_at bytes.now) line.label) × IfSome line.label (IsWithin bytes.now)) }
    ensures given { IfOk result (λ line. HasItsValue line.laid.value) }
    ensures next { IfOk result (λ line. line.laid.next ≤ 65536) }
    ensures value { IfOk result (λ line. IsSome line.label → IsTrue (not (is_past 65535 line.laid.value))) }
{
    let line = match line(isa, names, bytes) {
        Ok(line) => line,
        Err(fault) => return Err(cause_of(fault)),
    };
    if is_duplicate(names, bytes, line.label) {
        return Err(AsmCause::Duplicate);
    }
    let operands = line.operands.as_slice();
    let placed = place(isa, names, at, bytes, line.word, operands);
    let large = has_large_number_in(isa, bytes, operands);
    match judge(isa, line.label.is_some(), large, placed) {
        Ok(laid) => Ok(PlacedLine {
            label: line.label,
            word: line.word,
            laid,
        }),
        Err(cause) => Err(cause),
    }
}

// The bytes of a line by its parts, which stands at the address `at` and has `count` bytes.
#[tactic(auto, unfolding(crate::specs::Layout::encoded_parts))]
fn encode_parts(
    isa: Isa,
    names: &Symbols,
    at: u32,
    count: u32,
    line: &[u8],
    word: Option<Word>,
    operands: &[Span],
) -> Result<Bytes, AsmCause>
    requires operands { HasItsOperands isa word (map (text_at line.now) operands.now) }
    requires within { AreWithin line.now operands.now }
    requires short { length line.now ≤ 255 }
    requires few { length operands.now ≤ 128 }
    requires at { at ≤ 65536 }
    ensures { MatchResult result
        (λ bytes. encoded_parts isa (value_in names.now) at count word (map (text_at line.now) operands.now) ≡ Ok (bytes_in bytes))
        (λ cause. encoded_parts isa (value_in names.now) at count word (map (text_at line.now) operands.now) ≡ Err cause) }
{
    match word {
        Some(Word::Code(opcode)) => instruction(names, at, opcode, line, operands),
        Some(Word::Instruction(op)) => op_bytes(names, at, op, line, operands),
        Some(Word::Db) => match values_of(isa, names, at, 255, line, operands) {
            Ok(values) => Ok(bytes_from(values.as_slice())),
            Err(fault) => Err(value_cause(fault)),
        },
        Some(Word::Dw) => match values_of(isa, names, at, u16::MAX, line, operands) {
            Ok(values) => Ok(words_from(values.as_slice())),
            Err(fault) => Err(value_cause(fault)),
        },
        _ => Ok(Bytes::Zeros(count)),
    }
}

/// The bytes of a line that stands at the address `at`, has `count` bytes and this word, where `names` are those of all lines.
#[tactic(auto, unfolding(crate::specs::Layout::encoded))]
pub(crate) fn encode_line(
    isa: Isa,
    names: &Symbols,
    at: u32,
    count: u32,
    word: Option<Word>,
    bytes: &[u8],
) -> Result<Bytes, AsmCause>
    requires line { HasItsOperands isa word (operands_of (code_of bytes.now)) }
    requires short { length bytes.now ≤ 255 }
    requires few { length (operands_of (code_of bytes.now)) ≤ 128 }
    requires at { at ≤ 65536 }
    ensures { (earlier : Names) → Reads isa earlier bytes.now word → MatchResult result
        (λ made. encoded isa earlier (value_in names.now) at count bytes.now ≡ Ok (bytes_in made))
        (λ cause. encoded isa earlier (value_in names.now) at count bytes.now ≡ Err cause) }
{
    let operands = operands(bytes);
    encode_parts(isa, names, at, count, bytes, word, operands.as_slice())
}
