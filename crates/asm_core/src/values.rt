//! The values of operands.

ghost use Rattle.std.specs.Prelude.{◌≡◌, ◌≤◌, ◌<◌, map, length, All, IsTrue, IfOk, MatchResult, Ok, Err};
ghost use Rattle.std.specs.List.{list_any};
ghost use Rattle.asm_lex.specs.Expressions.{is_expression, has_large_number};
ghost use Rattle.asm_lex.specs.Forms.{last_operand};
ghost use Rattle.asm_lex.specs.Words.{is_one};
ghost use Rattle.asm_lex.specs.Spans.{text_at, AreWithin};
ghost use Rattle.asm_lex.specs.Names.{value_in};
ghost use Rattle.asm_core.specs.Names.{operand_value, first_operand, within};
ghost use Rattle.asm_core.specs.Encoding.{values_of};

use arrayvec::ArrayVec;
use asm_lex::{Isa, Span, Symbols, ValueFault, has_large_number, text_at, value};

// A value that must lie in 0 to `most`.
fn check_bound(value: Result<i64, ValueFault>, most: u16) -> Result<u16, ValueFault>
    ensures value { result ≡ within most value }
    ensures bound { IfOk result (λ value. value ≤ most) }
{
    match value {
        Ok(value) if 0 <= value && value <= i64::from(most) => Ok(value as u16),
        Ok(_) => Err(ValueFault::Range),
        Err(fault) => Err(fault),
    }
}

/// The value of an operand, which must lie in 0 to `most`, in a line that begins at the address `here`.
#[tactic(auto, unfolding(crate::specs::Names::operand_value))]
pub(crate) fn operand_value(
    isa: Isa,
    names: &Symbols,
    here: u32,
    most: u16,
    text: &[u8],
) -> Result<u16, ValueFault>
    requires short { length text.now ≤ 255 }
    requires here { here ≤ 65536 }
    ensures value { result ≡ operand_value isa (value_in names.now) here most text.now }
    ensures bound { IfOk result (λ value. value ≤ most) }
{
    check_bound(value(isa, names, here, text), most)
}

/// The values of a line's operands, or the first fault in the order of the causes.
pub(crate) fn values_of(
    isa: Isa,
    names: &Symbols,
    here: u32,
    most: u16,
    line: &[u8],
    operands: &[Span],
) -> Result<ArrayVec<u16, 128>, ValueFault>
    requires within { AreWithin line.now operands.now }
    requires short { length line.now ≤ 255 }
    requires few { length operands.now ≤ 128 }
    requires here { here ≤ 65536 }
    ensures values { MatchResult result
        (λ values. values_of isa (value_in names.now) here most (map (text_at line.now) operands.now) ≡ Ok values.items)
        (λ fault. values_of isa (value_in names.now) here most (map (text_at line.now) operands.now) ≡ Err fault) }
    ensures bounds { IfOk result (λ values. All (λ value. value ≤ most) values.items) }
{
    let mut values = ArrayVec::new();
    let mut in_range = true;
    for operand in operands {
        match operand_value(isa, names, here, most, text_at(line, *operand)) {
            Ok(value) => values.push(value),
            Err(ValueFault::Undefined) => return Err(ValueFault::Undefined),
            Err(ValueFault::Range) => in_range = false,
        }
    }
    if in_range {
        Ok(values)
    } else {
        Err(ValueFault::Range)
    }
}

/// The value of a line's one operand.
pub(crate) fn one_value(
    isa: Isa,
    names: &Symbols,
    here: u32,
    most: u16,
    line: &[u8],
    operands: &[Span],
) -> Result<u16, ValueFault>
    requires expression { IsTrue (is_one (is_expression isa) (map (text_at line.now) operands.now)) }
    requires within { AreWithin line.now operands.now }
    requires short { length line.now ≤ 255 }
    requires here { here ≤ 65536 }
    ensures value { result ≡ operand_value isa (value_in names.now) here most (first_operand (map (text_at line.now) operands.now)) }
    ensures bound { IfOk result (λ value. value ≤ most) }
{
    operand_value(isa, names, here, most, text_at(line, operands[0]))
}

/// The value of a line's last operand in CHIP-8.
pub(crate) fn last_value(
    names: &Symbols,
    here: u32,
    most: u16,
    line: &[u8],
    operands: &[Span],
) -> Result<u16, ValueFault>
    requires some { 0 < length operands.now }
    requires within { AreWithin line.now operands.now }
    requires short { length line.now ≤ 255 }
    requires here { here ≤ 65536 }
    ensures value { result ≡ operand_value Isa.Chip8 (value_in names.now) here most (last_operand (map (text_at line.now) operands.now)) }
    ensures bound { IfOk result (λ value. value ≤ most) }
{
    operand_value(
        Isa::Chip8,
        names,
        here,
        most,
        text_at(line, operands[operands.len() - 1]),
    )
}

/// Whether a number above 65535 is written in an operand.
pub(crate) fn has_large_number_in(isa: Isa, line: &[u8], operands: &[Span]) -> bool
    requires within { AreWithin line.now operands.now }
    ensures { result ≡ list_any (has_large_number isa) (map (text_at line.now) operands.now) }
{
    for operand in operands {
        if has_large_number(isa, text_at(line, *operand)) {
            return true;
        }
    }
    false
}
