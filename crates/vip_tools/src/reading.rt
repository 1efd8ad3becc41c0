//! The texts that a run reads before it begins.

ghost use Rattle.std.specs.Prelude.{◌≤◌, length};
ghost use Rattle.asm_lex.specs.Names.{number_named, value_in};
ghost use Rattle.vip_tools.specs.Files.{most_text, script_files, AreFit};
ghost use Rattle.vip_tools.specs.Judged.{Answers};
ghost use Rattle.vip_tools.specs.Opening.{CommandsCome, ScriptComes, keys_in};

use crate::Refusal;
use asm_lex::Symbols;
use std::alloc::Global;
use vip_keypad::{Script, ScriptFault, read_script};
use vip_text::Limit;
use vip_words::{CommandFault, Commands, Speaks, read_commands};

/// The key script of a run, which is empty where no file is given.
pub fn read_keys<'a>(alloc: Global, script: Option<Vec<u8>>) -> Result<Script, Refusal<'a>>
    requires { AreFit (script_files (keys_in script)) }
    ensures { Answers (ScriptComes (keys_in script)) result }
{
    let Some(text) = script else {
        return Ok(Script::empty(alloc));
    };
    match read_script(alloc, text.as_slice()) {
        Ok(script) => Ok(script),
        Err(ScriptFault::Fault { line, cause }) => Err(Refusal::Script { line, cause }),
        Err(ScriptFault::NoMemory) => Err(Refusal::NoMemory),
    }
}

/// The commands of the debugger for a board that runs a game, or any other program, up to a limit, with these names, each with its echo or without.
pub fn read_debugging<'a>(
    alloc: Global,
    speaks: Speaks,
    names: &Symbols,
    echo: bool,
    text: &[u8],
    limit: Limit,
) -> Result<Commands, Refusal<'a>>
    requires { length text.now ≤ most_text }
    ensures { Answers (CommandsCome speaks (number_named (value_in names.now)) echo limit text.now) result }
{
    match read_commands(alloc, speaks, names, echo, text, limit.cycles()) {
        Ok(commands) => Ok(commands),
        Err(CommandFault::Fault { line, cause }) => Err(Refusal::Command { line, cause }),
        Err(CommandFault::NoMemory) => Err(Refusal::NoMemory),
    }
}
