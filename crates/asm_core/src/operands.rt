//! What is told of the operands of a line, one by one.

ghost use Rattle.std.specs.Prelude.{◌≡◌, ◌≤◌, ◌&&◌, [], ◌∷◌, length, not, codes, is_some, option_map};
ghost use Rattle.asm_lex.specs.Culprits.{is_sought, first_term};
ghost use Rattle.asm_lex.specs.Names.{value_in, register_named};
ghost use Rattle.asm_lex.specs.Operands.{is_unread, is_number_at};
ghost use Rattle.asm_lex.specs.Spans.{text_at, IsWithin};
ghost use Rattle.asm_lex.specs.Lines.{parsed};
ghost use Rattle.asm_core.specs.Encoding.{is_undefined};
ghost use Rattle.asm_core.specs.Layout.{at_least};
ghost use Rattle.asm_core.specs.Operands.{no_names, is_register_at, word_most, most_of, least_of, is_range, is_outside, number_finding, operand_finding, is_judged, is_apart, if_apart, further_finding, is_short_branch, is_taken_at_once, hangs_on_addresses, is_waiting};
ghost use Rattle.asm_core.specs.Told.{word_from};

use crate::encode::{most_of as form_most, size_at};
use crate::fault::AsmCause;
use crate::findings::Finding;
use crate::fixed::has_address;
use crate::layout::{last_of, origin_of};
use crate::values::operand_value;
use asm_lex::{
    Entry, Isa, Place, Sought, Span, Symbols, ValueFault, Word, first_term, is_number_at,
    is_unread, line as read_line, place_of, text_at,
};
use std::alloc::Global;

// Whether an operand can't be read whatever names stand for.
fn is_never_read(alloc: Global, isa: Isa, entry: Entry, k: usize, text: &[u8]) -> bool
    ensures { result ≡ is_unread isa no_names entry k text.now }
{
    let none = Symbols::new(alloc);
    is_unread(isa, &none, entry, k, text)
}

// Whether it stands for a number, unless a name in it is a register's.
fn may_be_number(alloc: Global, isa: Isa, entry: Entry, k: usize, text: &[u8]) -> bool
    ensures { result ≡ is_number_at isa no_names entry k text.now }
{
    let none = Symbols::new(alloc);
    is_number_at(isa, &none, entry, k, text)
}

// The first name in an operand that isn't given.
fn not_given(isa: Isa, given: &Symbols, line: &[u8], span: Span) -> Option<Place>
    requires { IsWithin line.now span }
    ensures { result ≡ first_term (is_sought isa (value_in given.now) Sought.NotGiven) line.now (span ∷ []) }
{
    first_term(isa, given, Sought::NotGiven, line, &[span])
}

// The greatest number that the instruction of a line of CHIP-8 takes, where the line is read.
fn word_most(isa: Isa, fixed: &Symbols, line: &[u8]) -> u16
    ensures { result ≡ word_most (word_from (parsed isa (value_in fixed.now) line.now)) }
{
    match read_line(isa, fixed, line) {
        Ok(line) => match line.word {
            Some(Word::Instruction(op)) => form_most(op.form),
            _ => u16::MAX,
        },
        Err(_) => u16::MAX,
    }
}

// The greatest number that any instruction with such an entry takes.
fn most_of(isa: Isa, fixed: &Symbols, line: &[u8], entry: Entry) -> u16
    ensures { result ≡ most_of isa (value_in fixed.now) line.now entry }
{
    match entry {
        Entry::Mnemonic(opcode) if size_at(opcode) == 2 && opcode / 16 != 3 => 255,
        Entry::Words(_) => word_most(isa, fixed, line),
        Entry::Directive(Word::Db) => 255,
        Entry::Directive(Word::Org) => last_of(isa),
        _ => u16::MAX,
    }
}

// The least one.
fn least_of(isa: Isa, entry: Entry) -> u32
    ensures { result ≡ least_of isa entry }
{
    match entry {
        Entry::Directive(Word::Org) => origin_of(isa),
        _ => 0,
    }
}

// Whether a value is out of its range, which begins with `least`.
fn is_out(value: Result<u16, ValueFault>, least: u32) -> bool
    ensures { result ≡ is_range (at_least least value) }
{
    match value {
        Ok(value) => u32::from(value) < least,
        Err(ValueFault::Range) => true,
        Err(ValueFault::Undefined) => false,
    }
}

// Whether a number is out of its range that has no address in it, and no other names than those.
#[tactic(auto, unfolding(crate::specs::Operands::is_outside))]
fn is_outside(isa: Isa, fixed: &Symbols, line: &[u8], entry: Entry, text: &[u8]) -> bool
    requires { length text.now ≤ 255 }
    ensures { result ≡ is_outside isa (value_in fixed.now) line.now entry text.now }
{
    let most = most_of(isa, fixed, line, entry);
    !has_address(text)
        && is_out(
            operand_value(isa, fixed, 0, most, text),
            least_of(isa, entry),
        )
}

fn number_finding(
    isa: Isa,
    fixed: &Symbols,
    given: &Symbols,
    line: &[u8],
    entry: Entry,
    span: Span,
) -> Option<Finding>
    requires within { IsWithin line.now span }
    requires short { length line.now ≤ 255 }
    ensures { result ≡ number_finding isa (value_in fixed.now) (value_in given.now) line.now entry span }
{
    if let Some(place) = not_given(isa, given, line, span) {
        let cause = AsmCause::Undefined;
        return Some(Finding { cause, place });
    }
    if is_outside(isa, fixed, line, entry, text_at(line, span)) {
        let cause = AsmCause::Range;
        let place = place_of(span);
        return Some(Finding { cause, place });
    }
    None
}

#[tactic(auto, unfolding(crate::specs::Operands::operand_finding))]
fn operand_finding(
    alloc: Global,
    isa: Isa,
    fixed: &Symbols,
    given: &Symbols,
    line: &[u8],
    entry: Entry,
    k: usize,
    span: Span,
) -> Option<Finding>
    requires within { IsWithin line.now span }
    requires short { length line.now ≤ 255 }
    ensures { result ≡ operand_finding isa (value_in fixed.now) (value_in given.now) line.now entry k span }
{
    let text = text_at(line, span);
    if is_never_read(alloc, isa, entry, k, text) {
        let cause = AsmCause::BadOperand;
        let place = place_of(span);
        return Some(Finding { cause, place });
    }
    if !may_be_number(alloc, isa, entry, k, text) {
        return None;
    }
    number_finding(isa, fixed, given, line, entry, span)
}

fn is_judged(cause: AsmCause) -> bool
    ensures { result ≡ is_judged cause }
{
    match cause {
        AsmCause::BadText => false,
        _ => true,
    }
}

fn is_apart(told: Option<Finding>, place: Place) -> bool
    ensures { result ≡ is_apart told place }
{
    match told {
        Some(told) => {
            is_judged(told.cause)
                && place.from != told.place.from
                && (place.to <= told.place.from || told.place.to <= place.from)
        }
        None => true,
    }
}

/// What is told of the operand `k`, counted from 0, of a line whose word has this entry, beside the fault that is told of the line: that it can't be
/// read, that a name in it is none of those that are given, or that it is out of its range. The values of `fixed` hang on no address.
#[tactic(auto, unfolding(crate::specs::Operands::further_finding))]
pub fn further_finding(
    alloc: Global,
    isa: Isa,
    fixed: &Symbols,
    given: &Symbols,
    line: &[u8],
    entry: Entry,
    k: usize,
    span: Span,
    told: Option<Finding>,
) -> Option<Finding>
    requires within { IsWithin line.now span }
    requires short { length line.now ≤ 255 }
    ensures { result ≡ further_finding isa (value_in fixed.now) (value_in given.now) line.now entry k span told }
{
    match operand_finding(alloc, isa, fixed, given, line, entry, k, span) {
        Some(found) if is_apart(told, found.place) => Some(found),
        _ => None,
    }
}

fn is_short_branch(entry: Entry) -> bool
    ensures { result ≡ is_short_branch entry }
{
    match entry {
        Entry::Mnemonic(opcode) => size_at(opcode) == 2 && opcode / 16 == 3,
        _ => false,
    }
}

// Whether pass 1 takes the value of an operand.
fn is_taken_at_once(entry: Entry) -> bool
    ensures { result ≡ is_taken_at_once entry }
{
    match entry {
        Entry::Mnemonic(_) | Entry::Words(_) => false,
        Entry::Directive(Word::Db) | Entry::Directive(Word::Dw) => false,
        Entry::Directive(_) => true,
    }
}

fn is_undefined(value: Result<u16, ValueFault>) -> bool
    ensures { result ≡ is_undefined value }
{
    match value {
        Err(ValueFault::Undefined) => true,
        _ => false,
    }
}

fn hangs_on_addresses(isa: Isa, fixed: &Symbols, entry: Entry, text: &[u8]) -> bool
    requires { length text.now ≤ 255 }
    ensures { result ≡ hangs_on_addresses isa (value_in fixed.now) entry text.now }
{
    is_short_branch(entry)
        || has_address(text)
        || is_undefined(operand_value(isa, fixed, 0, u16::MAX, text))
}

// Whether an operand is a name of a register, where one may stand.
fn is_register_at(
    alloc: Global,
    isa: Isa,
    fixed: &Symbols,
    entry: Entry,
    k: usize,
    text: &[u8],
) -> bool
    ensures { result ≡ is_register_at isa (value_in fixed.now) entry k text.now }
{
    fixed.register(text).is_some() && !is_never_read(alloc, isa, entry, k, b"V0")
}

/// Whether the operand `k`, counted from 0, of a word with this entry waits for the run in which addresses are known; `behind` says that its line stands
/// behind one of which a fault is told. The values of `fixed` hang on no address.
#[tactic(auto, unfolding(crate::specs::Operands::is_waiting))]
pub fn is_waiting(
    alloc: Global,
    isa: Isa,
    fixed: &Symbols,
    behind: bool,
    entry: Entry,
    k: usize,
    text: &[u8],
) -> bool
    requires { length text.now ≤ 255 }
    ensures { result ≡ is_waiting isa (value_in fixed.now) behind entry k text.now }
{
    (behind || !is_taken_at_once(entry))
        && may_be_number(alloc, isa, entry, k, text)
        && !is_register_at(alloc, isa, fixed, entry, k, text)
        && hangs_on_addresses(isa, fixed, entry, text)
}
