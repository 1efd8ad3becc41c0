//! One line of a text of commands.

ghost use Rattle.std.specs.Prelude.{◌≡◌, ◌≤◌, ◌∷◌, [], Ok, Err, IfOk, MatchResult};
ghost use Rattle.std.specs.Str.{bytes_eq};
ghost use Rattle.asm_lex.specs.Names.{number_named, value_in};
ghost use Rattle.vip_words.specs.DebugGrammar.{address_of, bytes_of, command_of, command_said, decimal_within, digits_of, language_command_of, name_in, no_operand, one_operand, showing_of, span_of, steps_of, to_of, two_operands};

use crate::debug_commands::{Command, CommandCause, Running, Seeking, Showing, Speaks, Telling};
use asm_lex::Symbols;
use vip_byte::{NumFault, Words, read_decimal, read_hex};

/// The most moves or dispatch points of one command.
const MOST_STEPS: u64 = 1_000_000;

/// The most bytes or lines that one command shows.
const MOST_SHOWN: u64 = 4_096;

/// What a line says by itself: nothing or a command, or the first cause for which it says neither.
#[tactic(auto, unfolding(crate::specs::DebugGrammar::command_said))]
pub fn read_line(
    line: &[u8],
    speaks: Speaks,
    names: &Symbols,
    limit: u64,
) -> Result<Option<Command>, CommandCause>
    ensures { result ≡ command_said speaks (number_named (value_in names.now)) limit line.now }
{
    let mut words = Words::new(line);
    let Some(word) = words.next() else {
        return Ok(None);
    };
    if let [b'#', ..] = word {
        return Ok(None);
    }
    let command = read_command(word, words, speaks, names, limit)?;
    Ok(Some(command))
}

// Whether a word is this one.
fn is(word: &[u8], name: &[u8]) -> bool
    ensures { result ≡ bytes_eq word.now name.now }
{
    word == name
}

// The command that a word says with these operands.
#[tactic(auto, unfolding(crate::specs::DebugGrammar::command_of))]
fn read_command(
    word: &[u8],
    operands: Words,
    speaks: Speaks,
    names: &Symbols,
    limit: u64,
) -> Result<Command, CommandCause>
    ensures { result ≡ command_of speaks (number_named (value_in names.now)) limit word.now operands.entry }
{
    if is(word, b"step") {
        Ok(Command::Runs(Running::Step(read_steps(operands)?)))
    } else if is(word, b"to") {
        Ok(Command::Runs(Running::To(read_to(operands, limit)?)))
    } else if is(word, b"at") {
        Ok(Command::Runs(Running::At(read_address(one(operands)?, names)?)))
    } else if is(word, b"watch") {
        let (address, count) = read_bytes(operands, names)?;
        Ok(Command::Runs(Running::Watch(address, count)))
    } else {
        read_showing(word, operands, speaks, names)
    }
}

// The command that a word says with these operands, if it is one that shows, or one of the language.
#[tactic(auto, unfolding(crate::specs::DebugGrammar::showing_of))]
fn read_showing(
    word: &[u8],
    operands: Words,
    speaks: Speaks,
    names: &Symbols,
) -> Result<Command, CommandCause>
    ensures { result ≡ showing_of speaks (number_named (value_in names.now)) word.now operands.entry }
{
    if is(word, b"regs") {
        alone(Command::Shows(Showing::Regs), operands)
    } else if is(word, b"mem") {
        let (address, count) = read_bytes(operands, names)?;
        Ok(Command::Shows(Showing::Mem(address, count)))
    } else if is(word, b"dis") {
        let (address, count) = read_span(operands, names)?;
        Ok(Command::Shows(Showing::Dis(address, count)))
    } else if is(word, b"list") {
        let (address, count) = read_span(operands, names)?;
        Ok(Command::Shows(Showing::List(address, count)))
    } else {
        match speaks {
            Speaks::Chip8 => read_language(word, operands, names),
            Speaks::Machine => Err(CommandCause::BadWord),
        }
    }
}

// The command that a word says with these operands, if it is one of the language.
#[tactic(auto, unfolding(crate::specs::DebugGrammar::language_command_of))]
fn read_language(word: &[u8], operands: Words, names: &Symbols) -> Result<Command, CommandCause>
    ensures { result ≡ language_command_of (number_named (value_in names.now)) word.now operands.entry }
{
    if is(word, b"screen") {
        alone(Command::Tells(Telling::Screen), operands)
    } else if is(word, b"state") {
        alone(Command::Tells(Telling::State), operands)
    } else if is(word, b"code") {
        let (address, count) = read_span(operands, names)?;
        Ok(Command::Tells(Telling::Code(address, count)))
    } else if is(word, b"next") {
        Ok(Command::Seeks(Seeking::Next(read_steps(operands)?)))
    } else if is(word, b"break") {
        Ok(Command::Seeks(Seeking::Break(read_address(one(operands)?, names)?)))
    } else {
        Err(CommandCause::BadWord)
    }
}

// A number of moves or of dispatch points.
#[tactic(auto, unfolding(crate::specs::DebugGrammar::steps_of))]
fn read_steps(operands: Words) -> Result<u32, CommandCause>
    ensures { result ≡ steps_of operands.entry }
{
    let steps = read_within(one(operands)?, 1, MOST_STEPS)?;
    Ok(steps as u32)
}

// A cycle up to the limit.
#[tactic(auto, unfolding(crate::specs::DebugGrammar::to_of))]
fn read_to(operands: Words, limit: u64) -> Result<u64, CommandCause>
    ensures { result ≡ to_of limit operands.entry }
{
    read_within(one(operands)?, 0, limit)
}

// An address and a number of bytes or lines.
#[tactic(auto, unfolding(crate::specs::DebugGrammar::span_of))]
fn read_span(operands: Words, names: &Symbols) -> Result<(u16, u32), CommandCause>
    ensures value { result ≡ span_of (number_named (value_in names.now)) operands.entry }
    ensures within { IfOk result (λ span. span.1 ≤ 4_096) }
{
    let (first, second) = two(operands)?;
    let address = read_address(first, names)?;
    let count = read_within(second, 1, MOST_SHOWN)?;
    Ok((address, count as u32))
}

// Bytes that end at FFFF at the latest.
#[tactic(auto, unfolding(crate::specs::DebugGrammar::bytes_of))]
fn read_bytes(operands: Words, names: &Symbols) -> Result<(u16, u32), CommandCause>
    ensures { result ≡ bytes_of (number_named (value_in names.now)) operands.entry }
{
    let (address, count) = read_span(operands, names)?;
    if u32::from(address) + count > 0x10000 {
        return Err(CommandCause::Range);
    }
    Ok((address, count))
}

// A command without operands.
fn alone(command: Command, mut operands: Words) -> Result<Command, CommandCause>
    ensures { result ≡ no_operand command operands.entry }
{
    match operands.next() {
        Some(_) => Err(CommandCause::BadCount),
        None => Ok(command),
    }
}

// The only operand.
fn one<'a>(mut operands: Words<'a>) -> Result<&'a [u8], CommandCause>
    ensures { MatchResult result (λ word. one_operand operands.entry ≡ Ok word.now)
        (λ cause. one_operand operands.entry ≡ Err cause) }
{
    let Some(word) = operands.next() else {
        return Err(CommandCause::BadCount);
    };
    if operands.next().is_some() {
        return Err(CommandCause::BadCount);
    }
    Ok(word)
}

// Both operands.
fn two<'a>(mut operands: Words<'a>) -> Result<(&'a [u8], &'a [u8]), CommandCause>
    ensures { MatchResult result (λ pair. two_operands operands.entry ≡ Ok (pair.0.now, pair.1.now))
        (λ cause. two_operands operands.entry ≡ Err cause) }
{
    let Some(first) = operands.next() else {
        return Err(CommandCause::BadCount);
    };
    let second = one(operands)?;
    Ok((first, second))
}

// A decimal number in these bounds.
#[tactic(auto, unfolding(crate::specs::DebugGrammar::decimal_within))]
fn read_within(word: &[u8], least: u64, most: u64) -> Result<u64, CommandCause>
    ensures value { result ≡ decimal_within least most word.now }
    ensures within { IfOk result (λ number. number ≤ most) }
{
    match read_decimal(word, most) {
        Ok(number) if number < least => Err(CommandCause::Range),
        Ok(number) => Ok(number),
        Err(NumFault::TooLarge) => Err(CommandCause::Range),
        Err(_) => Err(CommandCause::BadNumber),
    }
}

// One to four hexadecimal digits, if a word is that.
#[tactic(auto, unfolding(crate::specs::DebugGrammar::digits_of))]
fn read_digits(word: &[u8]) -> Option<u16>
    ensures { result ≡ digits_of word.now }
{
    if word.len() > 4 {
        return None;
    }
    match read_hex(word, 0xFFFF) {
        Ok(address) => Some(address as u16),
        Err(_) => None,
    }
}

// The name that a word is: what stands behind a colon, or the whole.
fn name_in(word: &[u8]) -> &[u8]
    ensures { result.now ≡ name_in word.now }
{
    match word {
        [b':', name @ ..] => name,
        _ => word,
    }
}

// An address: the name of a number, or else one to four hexadecimal digits.
#[tactic(auto, unfolding(crate::specs::DebugGrammar::address_of))]
fn read_address(word: &[u8], names: &Symbols) -> Result<u16, CommandCause>
    ensures { result ≡ address_of (number_named (value_in names.now)) word.now }
{
    if let Some(address) = names.number(name_in(word)) {
        return Ok(address);
    }
    match read_digits(word) {
        Some(address) => Ok(address),
        None => Err(CommandCause::BadNumber),
    }
}
