//! What the commands write that speak of the machine, whatever runs on it.

ghost use Rattle.std.specs.Prelude.{◌+◌, ◌≤◌, ◌∷◌, ◌++◌, length};
ghost use Rattle.std.specs.Option.{option_to_list};
ghost use Rattle.vip_byte.specs.Text.{newline};
ghost use Rattle.vip_outside.specs.Sink.{PutAnswers};
ghost use Rattle.vip_outside.specs.Pieces.{StreamAnswers};
ghost use Rattle.vip_debug.specs.BoardShown.{cycle_text, rows};
ghost use Rattle.vip_debug.specs.Answered.{shown};
ghost use Rattle.vip_debug.specs.BoardParts.{Fits, lines_by};

use crate::bytes::{Layout, put_instructions, put_mem, put_rows};
use crate::moves::Change;
use crate::registers::{put_cycle, put_regs};
use asm_core::Origins;
use vip_board::Board;
use vip_byte::{Buffer, put};
use vip_outside::{Failed, Sink};
use vip_words::{Running, Showing, SpokenCommand};

/// Puts the line of the move that made a change, then the bytes before and after it, in lines of at most 16. The first stands at an address.
fn put_change<O: Sink>(address: u16, change: &Change, out: &mut O) -> Result<(), Failed>
    requires before { address + length change.now.before.items ≤ 65536 }
    requires after { address + length change.now.after.items ≤ 65536 }
    ensures { StreamAnswers (change.now.line.items ∷ rows address change.now.before.items ++ rows address change.now.after.items) (O.meaning out.old) (O.meaning out.new) result }
{
    out.put(change.line.as_slice())?;
    put_rows(address, change.before.as_slice(), out)?;
    put_rows(address, change.after.as_slice(), out)
}

/// Puts the line with the machine cycle of a board.
fn put_now<O: Sink>(board: &Board, out: &mut O) -> Result<(), Failed>
    ensures { PutAnswers (cycle_text board.now.machine ++ newline) (O.meaning out.old) (O.meaning out.new) result }
{
    let mut text = Buffer::new();
    put_cycle(&mut text, board);
    put(&mut text, b"\n");
    out.put(text.as_slice())
}

/// Puts the lines of a command that ran a board and is completed.
pub fn put_completed<O: Sink>(
    board: &Board,
    running: Running,
    change: &Change,
    out: &mut O,
) -> Result<(), Failed>
    requires { Fits running change.now }
    ensures { StreamAnswers (lines_by running board.now change.now) (O.meaning out.old) (O.meaning out.new) result }
{
    match running {
        Running::Watch(address, _) => put_change(address, change, out),
        _ => put_now(board, out),
    }
}

/// Puts the line that echoes a command, if it has one.
pub fn put_echo<O: Sink>(entry: &SpokenCommand, out: &mut O) -> Result<(), Failed>
    ensures { StreamAnswers (option_to_list entry.now.echo) (O.meaning out.old) (O.meaning out.new) result }
{
    match entry.echo() {
        Some(line) => out.put(line),
        None => Ok(()),
    }
}

/// Puts what a command shows of a board, and in a listing these labels.
pub fn put_showing<O: Sink>(
    board: &Board,
    origins: &Origins,
    showing: Showing,
    out: &mut O,
) -> Result<(), Failed>
    ensures { StreamAnswers (shown origins.now board.now.rom board.now.machine showing) (O.meaning out.old) (O.meaning out.new) result }
{
    let memory = board.memory();
    match showing {
        Showing::Regs => put_regs(board, out),
        Showing::Mem(address, count) => put_mem(memory, address, count, out),
        Showing::Dis(address, count) => {
            put_instructions(memory, origins, address, count, Layout::Source, out)
        }
        Showing::List(address, count) => {
            put_instructions(memory, origins, address, count, Layout::Listing, out)
        }
    }
}
