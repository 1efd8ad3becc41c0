//! The command that `clap` gets for a verb.

ghost use Rattle.std.specs.Prelude.{◌≡◌, ◌≤◌, IfOk, false};
ghost use Rattle.clap.specs.Words.{app_of, rule_of};
ghost use Rattle.vip_words.specs.Arguments.{argument_rule};
ghost use Rattle.vip_words.specs.Command.{command_app};

use crate::flag::Flag;
use clap::{Arg, ArgAction, Command};
use std::alloc::{AllocError, Global};

/// The names under which `clap` keeps the positional words, in order.
pub const FIRST: &str = "first";

pub const SECOND: &str = "second";

pub const THIRD: &str = "third";

pub const FOURTH: &str = "fourth";

/// An argument of a command.
#[derive(Clone, Copy)]
enum Argument {
    /// The option `--keys`, which takes the next word.
    Keys,
    /// An option that takes no word.
    Switch(Flag),
    /// A positional word of this name, which may not be left out.
    Place(&'static str),
}

/// Every option of the program, and behind them the positional words.
const ARGUMENTS: [Argument; 20] = [
    Argument::Keys,
    Argument::Switch(Flag::At),
    Argument::Switch(Flag::Screen),
    Argument::Switch(Flag::Words),
    Argument::Switch(Flag::Tall),
    Argument::Switch(Flag::State),
    Argument::Switch(Flag::Raw),
    Argument::Switch(Flag::Chip8),
    Argument::Switch(Flag::Asm),
    Argument::Switch(Flag::Echo),
    Argument::Switch(Flag::Exits),
    Argument::Switch(Flag::Rom),
    Argument::Switch(Flag::Ram),
    Argument::Switch(Flag::Sender),
    Argument::Switch(Flag::Receiver),
    Argument::Switch(Flag::Source),
    Argument::Place(FIRST),
    Argument::Place(SECOND),
    Argument::Place(THIRD),
    Argument::Place(FOURTH),
];

/// How many of the arguments are options: all but the positional words.
const OPTIONS: usize = ARGUMENTS.len() - 4;

impl Argument {
    // The argument as `clap` gets it.
    fn make<'a>(self, alloc: Global) -> Arg<'a>
        ensures rule { rule_of result ≡ argument_rule self }
        ensures own { result.global ≡ false }
    {
        match self {
            Argument::Keys => Arg::new(alloc, "keys").long("keys").action(ArgAction::Set),
            Argument::Switch(flag) => {
                let name: &'a str = flag.name();
                Arg::new(alloc, name).long(name).action(ArgAction::SetTrue)
            }
            Argument::Place(name) => {
                let name: &'a str = name;
                Arg::new(alloc, name).required(true).action(ArgAction::Set)
            }
        }
    }
}

/// The command of a verb with so many positional words. It has every option of the program, so that one command serves all verbs with
/// as many positional words: options of other verbs are refused before. It has no help and no version flag.
pub fn make_command<'a>(
    alloc: Global,
    verb: &'a str,
    places: usize,
) -> Result<Command<'a>, AllocError>
    requires { places ≤ 4 }
    ensures { IfOk result (λ command. app_of command ≡ command_app verb.entry.now places) }
{
    let mut command = Command::new(alloc, verb)
        .disable_help_flag(true)
        .disable_version_flag(true);
    for argument in &ARGUMENTS[..OPTIONS + places] {
        command = command.arg(argument.make(alloc))?;
    }
    Ok(command)
}
