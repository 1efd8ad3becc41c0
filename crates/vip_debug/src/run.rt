//! Commands, one after another.

ghost use Rattle.std.specs.Prelude.{◌≤◌, false, max};
ghost use Rattle.vip_outside.specs.Sink.{PutAnswers};
ghost use Rattle.vip_outside.specs.Pieces.{StreamAnswers};
ghost use Rattle.chip8_lang.specs.View.{view_at};
ghost use Rattle.vip_relation.specs.Follows.{Follows};
ghost use Rattle.vip_text.specs.Traces.{told_line};
ghost use Rattle.vip_debug.specs.Answers.{DebugAnswers, begun, pieces, place_of, place_with, ran, running_lines, seeking_lines, sought, stop_text, told};
ghost use Rattle.vip_debug.specs.Parts.{Makes, TellsPresent};

use crate::answer::{put_completed, put_echo, put_showing};
use crate::code::put_code;
use crate::game::run_game;
use crate::going::seek;
use crate::looks::Looks;
use crate::moves::Change;
use crate::show::{put_screen, put_state};
use chip8_lang::StopRecord;
use vip_byte::Buffer;
use vip_outside::{Failed, Sink};
use vip_relation::Vip;
use vip_text::{Limit, told_text};
use vip_words::{Command, Commands, Running, Seeking, Telling};

/// How the commands ended.
#[derive(Clone, Copy)]
pub enum DebugEnd {
    /// All of them were run, and the board is at no stop point.
    Done,
    /// All of them were run, and the board is at its stop point.
    Stopped(StopRecord),
    /// A put failed. The commands behind the one whose line it was were not run.
    WriteFault,
}

/// Puts the line that names a stop.
fn put_stop<O: Sink>(stop: &StopRecord, out: &mut O) -> Result<(), Failed>
    ensures { PutAnswers (stop_text stop.now) (O.meaning out.old) (O.meaning out.new) result }
{
    let mut text = Buffer::new();
    vip_text::stop_text(stop, &mut text);
    out.put(text.as_slice())
}

/// Puts the record of the dispatch point at which the board is, and which was met last.
fn put_point<O: Sink>(vip: &Vip, looks: &Looks, out: &mut O) -> Result<(), Failed>
    requires { TellsPresent vip.now }
    ensures { PutAnswers (told_line looks.now.origins looks.now.columns (view_at vip.now.edition vip.now.board.machine)) (O.meaning out.old) (O.meaning out.new) result }
{
    let mut text = Buffer::new();
    if let Some(view) = vip.last() {
        told_text(view, looks.columns, &looks.origins, &mut text);
    }
    out.put(text.as_slice())
}

/// Runs the board as a command says, whatever runs on it, and puts what it writes.
fn put_running<O: Sink>(
    vip: &mut Vip,
    running: Running,
    limit: Limit,
    out: &mut O,
) -> Result<(), Failed>
    requires follows { Follows vip.old }
    requires within { vip.old.board.machine.cycle ≤ limit }
    ensures follows { Follows vip.new }
    ensures makes { Makes limit vip.old vip.new (ran (begun vip.old) limit running (place_of vip.old)).place }
    ensures lines { StreamAnswers (running_lines (begun vip.old) limit running (place_of vip.old)) (O.meaning out.old) (O.meaning out.new) result }
{
    let mut change = Change::new();
    let completed = run_game(vip, running, limit, &mut change);
    let board = vip.board();
    match vip.stop() {
        Some(stop) => put_stop(&stop, out),
        None if completed => put_completed(board, running, &change, out),
        None => out.put(b"end\n"),
    }
}

/// Runs the board to a dispatch point, and puts what the command writes.
fn put_seeking<O: Sink>(
    vip: &mut Vip,
    looks: &Looks,
    seeking: Seeking,
    limit: Limit,
    out: &mut O,
) -> Result<(), Failed>
    requires follows { Follows vip.old }
    requires within { vip.old.board.machine.cycle ≤ limit }
    ensures follows { Follows vip.new }
    ensures makes { Makes limit vip.old vip.new (sought (begun vip.old) limit seeking (place_of vip.old)).place }
    ensures lines { StreamAnswers (seeking_lines looks.now (begun vip.old) (sought (begun vip.old) limit seeking (place_of vip.old))) (O.meaning out.old) (O.meaning out.new) result }
{
    let completed = seek(vip, seeking, limit);
    match vip.stop() {
        Some(stop) => put_stop(&stop, out),
        None if completed => put_point(vip, looks, out),
        None => out.put(b"end\n"),
    }
}

/// Puts what was met of the language, or its opcodes.
fn put_telling<O: Sink>(
    vip: &Vip,
    looks: &Looks,
    telling: Telling,
    out: &mut O,
) -> Result<(), Failed>
    requires { Follows vip.now }
    ensures { StreamAnswers (told looks.now (begun vip.now) telling (place_of vip.now)) (O.meaning out.old) (O.meaning out.new) result }
{
    match telling {
        Telling::State => put_state(vip, looks, out),
        Telling::Screen => put_screen(vip, out),
        Telling::Code(address, count) => put_code(
            vip.board().memory(),
            &looks.origins,
            address,
            count,
            out,
        ),
    }
}

/// Runs one command.
fn run_command<O: Sink>(
    vip: &mut Vip,
    looks: &Looks,
    command: Command,
    limit: Limit,
    out: &mut O,
) -> Result<(), Failed>
    requires follows { Follows vip.old }
    requires within { vip.old.board.machine.cycle ≤ limit }
    ensures follows { Follows vip.new }
    ensures makes { Makes limit vip.old vip.new (place_with (begun vip.old) limit command (place_of vip.old)) }
    ensures pieces { StreamAnswers (pieces looks.now (begun vip.old) limit command (place_of vip.old)) (O.meaning out.old) (O.meaning out.new) result }
{
    match command {
        Command::Runs(running) => put_running(vip, running, limit, out),
        Command::Shows(showing) => put_showing(vip.board(), &looks.origins, showing, out),
        Command::Seeks(seeking) => put_seeking(vip, looks, seeking, limit, out),
        Command::Tells(telling) => put_telling(vip, looks, telling, out),
    }
}

/// Runs commands of a machine that runs a game, and puts their answers, each line as one piece, and a screen as one. Before the answer of a command
/// comes the line that echoes it, if it has one, and before an instruction or opcode of a listing the lines of its labels. A line of an opcode, or of an
/// instruction of a listing, has at its end the source's line that gave its bytes, where the source is told and they are unchanged.
///
/// No move ends after the limit, nor after the present cycle where that is later. Before the first command nothing is met but a file's own
/// dispatch point. A command that makes a move meets every event up to its new cycle; `next` and `break` look for a dispatch point that isn't met
/// yet, which may wait at the present state, and meet every event up to where they come. A command that can't be completed because of the limit
/// leaves the board after the last move up to it and writes `end`. One that comes to a stop point, or begins at one, stays there and writes the
/// stop.
///
/// A put that fails ends the run: the board is where the command of that answer leaves it, and of an echo where the command before it does. No
/// memory is taken.
pub fn run_commands<O: Sink>(
    vip: &mut Vip,
    commands: &Commands,
    looks: &Looks,
    limit: Limit,
    out: &mut O,
) -> DebugEnd
    ensures follows { Follows vip.new }
    ensures answer { DebugAnswers looks.now (begun vip.old) (max limit vip.old.board.machine.cycle) commands.now (place_of vip.old) vip.new (O.meaning out.old) (O.meaning out.new) result }
{
    let limit = Limit::up_to(limit.cycles().max(vip.board().now()));
    for entry in commands.as_slice() {
        if let Err(_) = put_echo(entry, out) {
            return DebugEnd::WriteFault;
        }
        if let Err(_) = run_command(vip, looks, entry.command(), limit, out) {
            return DebugEnd::WriteFault;
        }
    }
    match vip.stop() {
        Some(stop) => DebugEnd::Stopped(stop),
        None => DebugEnd::Done,
    }
}
