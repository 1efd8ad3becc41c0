//! The debugger's commands on a board that runs any program.

ghost use Rattle.std.specs.Prelude.{◌≡◌, ◌≤◌, ◌++◌, [], option_map, true};
ghost use Rattle.vip_cpu.specs.declared.cpu.Phase.{Phase};
ghost use Rattle.vip_outside.specs.Sink.{PutAnswers};
ghost use Rattle.vip_outside.specs.Pieces.{StreamAnswers};
ghost use Rattle.vip_program.specs.Trace.{end_at, sleeps};
ghost use Rattle.vip_text.specs.Stops.{idle_line};
ghost use Rattle.vip_debug.specs.TargetRun.{run_from};
ghost use Rattle.vip_debug.specs.Commands.{came};
ghost use Rattle.vip_debug.specs.BoardParts.{Arrives, Fits, IsShown, labels_by, lines_by};
ghost use Rattle.vip_debug.specs.Programs.{OneAnswers, ProgramAnswers, StandsAs, comes_to, ended_lines, gone_lines, machine_after, machine_at, program_pieces, ran_lines};
ghost use Rattle.vip_debug.specs.ProgramLaws.{ProgramLeads, program-leads-on};

use crate::answer::{put_completed, put_echo, put_showing};
use crate::moves::{Change, go};
use crate::target::Target;
use asm_core::Origins;
use vip_board::{Board, Moved, Stops};
use vip_byte::Buffer;
use vip_outside::{Failed, Sink};
use vip_program::{ProgramEnd, ending, put_labels, trace_moves};
use vip_text::{Limit, idle_text};
use vip_words::{Command, Commands, Running};

/// A board that runs any program. Its run ends where the processor idles with the display off, since no signal can wake it there.
#[derive(Drop)]
pub struct Program<'a> {
    pub board: &'a mut Board,
}

impl Target for Program<'_> {
    ghost seen = { λ program. program.board.now };

    ghost ends = { λ program. sleeps };

    ghost leads = { ProgramLeads };

    ghost leads_on = { program-leads-on };

    fn board(&self) -> &Board {
        self.board
    }

    fn one_move(&mut self, limit: Limit) -> Moved {
        match ending(self.board) {
            ProgramEnd::Idle(_) => Moved::End,
            ProgramEnd::AtLimit => self.board.to_boundary(limit.cycles()),
        }
    }

    fn move_on<S: Stops>(&mut self, limit: Limit, stops: S) -> u64 {
        match ending(self.board) {
            ProgramEnd::Idle(_) => 0,
            ProgramEnd::AtLimit => self.board.run(limit.cycles(), stops),
        }
    }
}

/// Runs a board as a command says, up to the limit and the end of its run. Answers whether the command is completed; what shows it then besides
/// the board is in `change`, with what a source tells of a move.
fn run_program(
    board: &mut Board,
    running: Running,
    limit: Limit,
    told: Option<&Origins>,
    change: &mut Change,
) -> bool
    requires boundary { board.old.phase ≡ Phase.Boundary }
    requires within { board.old.machine.cycle ≤ limit }
    ensures comes { let r = run_from sleeps board.old in Arrives limit r (came r limit running) board.new result }
    ensures shown { let r = run_from sleeps board.old in result ≡ true → IsShown (option_map (λ origins. origins.now) told.entry) running r (came r limit running).moves change.new }
{
    let mut program = Program { board };
    go(&mut program, running, limit, told, change)
}

/// Runs a board up to a limit, as the debugger's `to` does, and answers whether the processor sleeps there, and behind which IDL. The board is at a
/// boundary, before and after.
pub fn run_program_to(board: &mut Board, limit: Limit) -> ProgramEnd
    requires boundary { board.old.phase ≡ Phase.Boundary }
    requires within { board.old.machine.cycle ≤ limit }
    ensures stands { StandsAs limit board.old (machine_at board.old limit) board.new }
    ensures ending { result ≡ end_at (machine_at board.old limit) }
{
    let mut change = Change::new();
    let running = Running::To(limit.cycles());
    run_program(board, running, limit, None, &mut change);
    ending(board)
}

/// Puts what is said of a processor that sleeps behind the IDL at an address.
fn put_idle<O: Sink>(address: u16, out: &mut O) -> Result<(), Failed>
    ensures { PutAnswers (idle_line address) (O.meaning out.old) (O.meaning out.new) result }
{
    let mut text = Buffer::new();
    idle_text(address, &mut text);
    out.put(text.as_slice())
}

/// Puts that the processor sleeps, or that a command isn't completed, where that is so.
fn put_end<O: Sink>(board: &Board, completed: bool, out: &mut O) -> Result<(), Failed>
    ensures { StreamAnswers (ended_lines board.now.machine completed []) (O.meaning out.old) (O.meaning out.new) result }
{
    match ending(board) {
        ProgramEnd::Idle(address) => put_idle(address, out),
        ProgramEnd::AtLimit if completed => Ok(()),
        ProgramEnd::AtLimit => out.put(b"end\n"),
    }
}

/// Makes so many moves and puts their lines.
fn put_steps<O: Sink>(
    board: &mut Board,
    origins: &Origins,
    count: u32,
    limit: Limit,
    out: &mut O,
) -> Result<(), Failed>
    requires boundary { board.old.phase ≡ Phase.Boundary }
    requires within { board.old.machine.cycle ≤ limit }
    ensures { let s = board.old in OneAnswers limit (ran_lines s.rom s.script limit origins.now (Running.Step count)) (comes_to s.rom s.script limit (Running.Step count)) s board.new (O.meaning out.old) (O.meaning out.new) result }
{
    let made = trace_moves(board, origins, u64::from(count), limit, out)?;
    put_end(board, made == u64::from(count), out)
}

/// Puts the lines of a command that ran a board and is completed, that of an instruction behind those of its labels.
fn put_gone<O: Sink>(
    board: &Board,
    origins: &Origins,
    running: Running,
    change: &Change,
    out: &mut O,
) -> Result<(), Failed>
    requires { Fits running change.now }
    ensures { StreamAnswers (labels_by origins.now running change.now ++ lines_by running board.now change.now) (O.meaning out.old) (O.meaning out.new) result }
{
    match running {
        Running::Watch(_, _) => {
            put_labels(origins, change.place, out)?;
            put_completed(board, running, change, out)
        }
        _ => put_completed(board, running, change, out),
    }
}

/// Runs a board as a command says other than by steps, and puts what it writes.
fn put_going<O: Sink>(
    board: &mut Board,
    origins: &Origins,
    running: Running,
    limit: Limit,
    out: &mut O,
) -> Result<(), Failed>
    requires boundary { board.old.phase ≡ Phase.Boundary }
    requires within { board.old.machine.cycle ≤ limit }
    ensures { let s = board.old in OneAnswers limit (gone_lines s.rom s.script limit origins.now running) (comes_to s.rom s.script limit running) s board.new (O.meaning out.old) (O.meaning out.new) result }
{
    let mut change = Change::new();
    let completed = run_program(board, running, limit, Some(origins), &mut change);
    match ending(board) {
        ProgramEnd::Idle(address) => put_idle(address, out),
        ProgramEnd::AtLimit if completed => put_gone(board, origins, running, &change, out),
        ProgramEnd::AtLimit => out.put(b"end\n"),
    }
}

/// Runs a board as a command says, and puts what it writes.
fn put_running<O: Sink>(
    board: &mut Board,
    origins: &Origins,
    running: Running,
    limit: Limit,
    out: &mut O,
) -> Result<(), Failed>
    requires boundary { board.old.phase ≡ Phase.Boundary }
    requires within { board.old.machine.cycle ≤ limit }
    ensures { let s = board.old in OneAnswers limit (ran_lines s.rom s.script limit origins.now running) (comes_to s.rom s.script limit running) s board.new (O.meaning out.old) (O.meaning out.new) result }
{
    match running {
        Running::Step(count) => put_steps(board, origins, count, limit, out),
        _ => put_going(board, origins, running, limit, out),
    }
}

/// Runs one command. One that speaks of the language does nothing.
fn run_command<O: Sink>(
    board: &mut Board,
    origins: &Origins,
    command: Command,
    limit: Limit,
    out: &mut O,
) -> Result<(), Failed>
    requires boundary { board.old.phase ≡ Phase.Boundary }
    requires within { board.old.machine.cycle ≤ limit }
    ensures { let s = board.old in OneAnswers limit (program_pieces s.rom s.script limit origins.now command) (machine_after s.rom s.script limit command) s board.new (O.meaning out.old) (O.meaning out.new) result }
{
    match command {
        Command::Runs(running) => put_running(board, origins, running, limit, out),
        Command::Shows(showing) => put_showing(board, origins, showing, out),
        Command::Seeks(_) | Command::Tells(_) => Ok(()),
    }
}

/// Runs commands on a board that runs any program, and puts their answers, each line as one piece: before an answer the line that echoes its command,
/// if it has one, before the line of an instruction those of its labels, and at its end the source's line that gave its bytes, where the source is told
/// and they are unchanged. Answers whether the processor sleeps where they leave the board, and
/// behind which IDL. The board is at a boundary, before and after.
///
/// No move ends after the limit, and none is made from where the processor idles with the display off. A put that fails ends the run. No memory
/// is taken.
pub fn run_program_commands<O: Sink>(
    board: &mut Board,
    commands: &Commands,
    origins: &Origins,
    limit: Limit,
    out: &mut O,
) -> Result<ProgramEnd, Failed>
    requires boundary { board.old.phase ≡ Phase.Boundary }
    requires within { board.old.machine.cycle ≤ limit }
    ensures { ProgramAnswers origins.now limit commands.now board.old board.new (O.meaning out.old) (O.meaning out.new) result }
{
    for entry in commands.as_slice() {
        put_echo(entry, out)?;
        run_command(board, origins, entry.command(), limit, out)?;
    }
    Ok(ending(board))
}
