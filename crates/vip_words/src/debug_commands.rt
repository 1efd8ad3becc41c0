//! The commands of the debugger, and how a text of them is read.

ghost use Rattle.std.specs.Prelude.{◌≡◌, ◌≤◌, ◌⊎◌, ◌++◌, length, option_map, Ok, Err, OnOk, IfOk, IfErr};
ghost use Rattle.std.specs.Option.{option_to_list};
ghost use Rattle.asm_lex.specs.Names.{number_named, value_in};
ghost use Rattle.vip_words.specs.DebugGrammar.{commands_of, echo_line, spoken_command};
ghost use Rattle.vip_words.specs.FaultNames.{command_cause_name};

use crate::debug_line::read_line;
use asm_lex::Symbols;
use std::alloc::{AllocError, Global};
use std::marker::Model;
use thiserror::Error;
use vip_byte::{Lines, MOST_TEXT};

/// A command. The first two kinds speak of the machine, whatever runs on it, and the other two of the language CHIP-8.
#[derive(Clone, Copy)]
pub enum Command {
    Runs(Running),
    Shows(Showing),
    Seeks(Seeking),
    Tells(Telling),
}

/// A command that runs the board, up to the end of its run or the limit at the latest.
#[derive(Clone, Copy)]
pub enum Running {
    /// Makes so many moves.
    Step(u32),
    /// Makes the moves that end at or before a machine cycle.
    To(u64),
    /// Makes at least one move, and moves until the next instruction is at this address.
    At(u16),
    /// Makes moves until one of so many bytes from an address on has changed, as the bus reads them.
    Watch(u16, u32),
}

/// A command that shows what the board holds, and leaves it.
#[derive(Clone, Copy)]
pub enum Showing {
    /// The registers of the processor.
    Regs,
    /// So many bytes from an address on.
    Mem(u16, u32),
    /// So many lines of the disassembly of the bytes from an address on.
    Dis(u16, u32),
    /// So many instructions from an address on, with their addresses and bytes.
    List(u16, u32),
}

/// A command that runs the board to a dispatch point, up to its stop point or the limit at the latest.
#[derive(Clone, Copy)]
pub enum Seeking {
    /// To the so-many-th next one.
    Next(u32),
    /// To the next one with this pc.
    Break(u16),
}

/// A command that tells of the language, and leaves the board.
#[derive(Clone, Copy)]
pub enum Telling {
    /// The language state at the last dispatch point met.
    State,
    /// The screen there.
    Screen,
    /// So many opcodes in words from an address on.
    Code(u16, u32),
}

/// What a board that is debugged runs, and so which commands there are.
#[derive(Clone, Copy)]
pub enum Speaks {
    /// A game: all of them.
    Chip8,
    /// Any other program: those that speak of the machine.
    Machine,
}

/// Why a line says no command, in the order in which the causes are looked for.
#[derive(Clone, Copy, Debug, Error)]
#[error("{}", self.name())]
pub enum CommandCause {
    /// The first word is no command.
    BadWord,
    /// The command has another number of operands.
    BadCount,
    /// An operand is not of its digits, or an address is neither the name of a number nor one to four of them.
    BadNumber,
    /// A number is out of its range.
    Range,
}

impl CommandCause {
    /// Its name, which its text and the reports show.
    pub fn name(self) -> &'static str
        ensures { result.now ≡ command_cause_name self }
    {
        match self {
            CommandCause::BadWord => "BadWord",
            CommandCause::BadCount => "BadCount",
            CommandCause::BadNumber => "BadNumber",
            CommandCause::Range => "Range",
        }
    }
}

/// Why a text of commands was not read.
#[derive(Clone, Copy, Debug, Error)]
pub enum CommandFault {
    /// The first faulty line, counted from 1, and the first cause in it.
    #[error("line {line}: {cause}")]
    Fault { line: u32, cause: CommandCause },
    /// No memory was left for the commands.
    #[error("NoMemory")]
    NoMemory,
}

impl From<AllocError> for CommandFault {
    ghost use Rattle.std.specs.Prelude.{◌≡◌};
    ghost use Rattle.vip_words.specs.declared.debug_commands.CommandFault.TheVariants.{NoMemory};

    ghost from_gives = { λ _ fault. fault ≡ NoMemory };

    fn from(_error: AllocError) -> CommandFault {
        CommandFault::NoMemory
    }
}

/// A command of a text, and the line that echoes it, if commands are echoed.
#[derive(Drop)]
pub struct SpokenCommand {
    command: Command,
    echo: Option<Vec<u8>>,
}

impl Model for SpokenCommand {
    ghost use Rattle.std.specs.Prelude.{option_map};
    ghost use Rattle.vip_words.specs.Spoken.{Spoken};

    ghost Value = { Spoken };

    ghost view = { λ entry. record { command = entry.command; echo = option_map (λ line. line.items) entry.echo } };
}

impl SpokenCommand {
    ghost use Rattle.std.specs.Prelude.{◌≡◌, IfOk, MatchOption, None, Some};
    ghost use Rattle.vip_words.specs.DebugGrammar.{spoken_command};

    // A command that a line says.
    fn new(
        alloc: Global,
        command: Command,
        line: &[u8],
        echo: bool,
    ) -> Result<SpokenCommand, AllocError>
        ensures { IfOk result (λ entry. entry ≡ spoken_command echo line.now command) }
    {
        let echo = if echo {
            Some(echo_line(alloc, line)?)
        } else {
            None
        };
        Ok(SpokenCommand { command, echo })
    }

    /// The command.
    pub fn command(&self) -> Command
        ensures { result ≡ self.now.command }
    {
        self.command
    }

    /// The line that echoes it, which is put before its answer; none where commands aren't echoed.
    pub fn echo(&self) -> Option<&[u8]>
        ensures { MatchOption result (self.now.echo ≡ None) (λ line. self.now.echo ≡ Some line.now) }
    {
        match &self.echo {
            Some(line) => Some(line.as_slice()),
            None => None,
        }
    }
}

// The line that echoes a command, by the line that says it.
fn echo_line(alloc: Global, line: &[u8]) -> Result<Vec<u8>, AllocError>
    ensures { IfOk result (λ echo. echo.items ≡ echo_line line.now) }
{
    let mut echo = Vec::from_slice(alloc, b"> ")?;
    echo.extend_from_slice(line)?;
    echo.push(b'\n')?;
    Ok(echo)
}

/// The commands of a text, first to last. A clause sees the list of them.
#[derive(Drop)]
pub struct Commands {
    list: Vec<SpokenCommand>,
}

impl Model for Commands {
    ghost use Rattle.std.specs.Prelude.{List};
    ghost use Rattle.vip_words.specs.Spoken.{Spoken};

    ghost Value = { List Spoken };

    ghost view = { λ inside. inside.list.items };
}

impl Commands {
    /// All of them, in order.
    pub fn as_slice(&self) -> &[SpokenCommand]
        ensures { result.now ≡ self.now }
    {
        self.list.as_slice()
    }
}

/// Reads the commands of a text of at most 1,048,576 bytes for a run up to a limit (this project's format).
///
/// | A line | Says |
/// |---|---|
/// | no word, or a first word that begins with `#` | nothing |
/// | `step N`, `next N` | N is 1 to 1,000,000 |
/// | `to C` | C is at most the limit |
/// | `at A`, `break A` | A is an address |
/// | `watch A N`, `mem A N` | N is 1 to 4,096, and A + N at most 65536 |
/// | `dis A N`, `list A N`, `code A N` | N is 1 to 4,096 |
/// | `regs`, `state`, `screen` | they have no operand |
///
/// Lines and words are those of a key script. N and C are decimal numbers, and A is a name that stands for a number, which may have a colon before
/// it, or else one to four hexadecimal digits. Where no source is known there are no names. Where the board doesn't run a game, `next`, `break`,
/// `state`, `screen` and `code` are no commands. With `echo` each command is echoed: `> ` and its line's bytes as they stand are put before its
/// answer.
///
/// The answer is the list of the commands, or the first fault, which is the first cause in the first faulty line; or memory was wanting.
pub fn read_commands(
    alloc: Global,
    speaks: Speaks,
    names: &Symbols,
    echo: bool,
    text: &[u8],
    limit: u64,
) -> Result<Commands, CommandFault>
    requires { length text.now ≤ MOST_TEXT }
    ensures commands { IfOk result (λ commands. commands_of speaks (number_named (value_in names.now)) echo limit text.now ≡ Ok commands) }
    ensures fault { IfErr result
        (λ fault. (fault ≡ CommandFault.NoMemory) ⊎ (commands_of speaks (number_named (value_in names.now)) echo limit text.now ≡ Err fault)) }
{
    let mut list = Vec::new(alloc);
    let mut number = 0;
    for line in Lines::new(text) {
        number += 1;
        match read_line(line, speaks, names, limit) {
            Ok(command) => extend(alloc, &mut list, command, line, echo)?,
            Err(cause) => return Err(CommandFault::Fault {
                line: number,
                cause,
            }),
        }
    }
    Ok(Commands { list })
}

// Adds the command that a line says, if it says one, behind the others.
fn extend(
    alloc: Global,
    list: &mut Vec<SpokenCommand>,
    command: Option<Command>,
    line: &[u8],
    echo: bool,
) -> Result<(), AllocError>
    ensures { OnOk result (list.new.items ≡ list.old.items ++ option_to_list (option_map (spoken_command echo line.now) command)) }
{
    if let Some(command) = command {
        list.push(SpokenCommand::new(alloc, command, line, echo)?)?;
    }
    Ok(())
}
