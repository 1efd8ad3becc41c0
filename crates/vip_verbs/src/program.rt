//! The verbs that run a program of the user's: its board, and how its run ends.

ghost use Rattle.std.specs.Prelude.{◌≡◌, ◌≤◌};
ghost use Rattle.vip_byte.specs.Number.{most_cycles};
ghost use Rattle.vip_cpu.specs.declared.cpu.Phase.TheVariants.{Boundary};
ghost use Rattle.vip_text.specs.ProgramFile.{IsProgram};
ghost use Rattle.vip_words.specs.Request.{map_board_show, map_program, map_program_show, map_resumed};
ghost use Rattle.vip_words.specs.declared.request.Request.TheVariants as asked;
ghost use Rattle.vip_tools.specs.Code.{FitsMemories, marked};
ghost use Rattle.vip_tools.specs.Files.{board_show_files, needed, program_show_files, script_files, AreFit};
ghost use Rattle.vip_tools.specs.Judged.{Answers};
ghost use Rattle.vip_tools.specs.Opening.{keys_in};
ghost use Rattle.vip_verbs.specs.Opening.{BoardShowReady, ProgramShowReady};
ghost use Rattle.vip_verbs.specs.Programs.{BoardComes, ProgramRunComes, ResumedBoardComes, ResumedRunComes, SaveAnswers, limit_at, memory_in, program_ended};
ghost use Rattle.vip_verbs.specs.Prepared.{IsReady, PerformAnswers, PrepareAnswers, outcome_of};
ghost use Rattle.vip_verbs.specs.declared.prepared.Prepared.TheVariants as ready;

use crate::prepared::{Prepared, ReadyBoardShow, ReadyProgramShow};
use std::alloc::Global;
use vip_board::Board;
use vip_debug::{run_program_commands, run_program_to};
use vip_outside::{Failed, Sink};
use vip_program::{
    Memory, Page, ProgramEnd, ProgramProfile, resume_program, show_pictures, show_profile,
    show_trace, start_program,
};
use vip_show::put_program_state;
use vip_text::{Limit, RunEnd};
use vip_tools::{
    Ended, Image, Marks, PerformFault, Refusal, marked_program, read_debugging, read_keys,
};
use vip_words::{BoardShow, ProgramRequest, ProgramShow, ResumedRequest, Speaks};

/// Where a program lies, by the words.
fn memory_in(memory: vip_words::Memory) -> Memory
    ensures { result ≡ memory_in memory }
{
    match memory {
        vip_words::Memory::Rom => Memory::Rom,
        vip_words::Memory::Ram => Memory::Ram,
    }
}

/// A board that begins to run a program under its script.
fn start_board<'a>(
    alloc: Global,
    memory: vip_words::Memory,
    image: &Image,
    keys: Option<Vec<u8>>,
) -> Result<Board, Refusal<'a>>
    requires image { FitsMemories image.now }
    requires keys { AreFit (script_files (keys_in keys)) }
    ensures { Answers (BoardComes memory image.now.rom.items image.now.ram.items (keys_in keys)) result }
{
    let script = read_keys(alloc, keys)?;
    let (rom, ram) = (image.rom.as_slice(), image.ram.as_slice());
    let board = start_program(alloc, memory_in(memory), rom, ram, &script)?;
    Ok(board)
}

/// A board that goes on in the machine of an accepted file under its script.
fn resume_board<'a>(alloc: Global, file: &[u8], keys: Option<Vec<u8>>) -> Result<Board, Refusal<'a>>
    requires file { IsProgram file.now }
    requires keys { AreFit (script_files (keys_in keys)) }
    ensures { Answers (ResumedBoardComes file.now (keys_in keys)) result }
{
    let script = read_keys(alloc, keys)?;
    let board = resume_program(alloc, file, &script)?;
    Ok(board)
}

/// What is shown of a program's board up to a limit, with its commands read, by what is known of its code.
fn make_board_ready<'a>(
    alloc: Global,
    marks: Marks,
    show: &BoardShow<Vec<u8>>,
    limit: Limit,
) -> Result<ReadyBoardShow, Refusal<'a>>
    requires { AreFit (board_show_files (map_board_show (λ bytes. bytes.items) show.now)) }
    ensures { BoardShowReady (marked marks) limit (map_board_show (λ bytes. bytes.items) show.now) result }
{
    match show {
        BoardShow::Commands { file, echo } => {
            let Marks { names, origins } = marks;
            let commands = read_debugging(
                alloc,
                Speaks::Machine,
                &names,
                *echo,
                file.as_slice(),
                limit,
            )?;
            Ok(ReadyBoardShow::Commands { commands, origins })
        }
        BoardShow::State => Ok(ReadyBoardShow::State),
    }
}

/// What is shown of a program's run up to a limit, with its commands read, by what is known of its code.
fn make_ready<'a>(
    alloc: Global,
    marks: Marks,
    show: &ProgramShow<Vec<u8>>,
    limit: Limit,
) -> Result<ReadyProgramShow, Refusal<'a>>
    requires { AreFit (program_show_files (map_program_show (λ bytes. bytes.items) show.now)) }
    ensures { ProgramShowReady (marked marks) limit (map_program_show (λ bytes. bytes.items) show.now) result }
{
    match show {
        ProgramShow::Trace => Ok(ReadyProgramShow::Trace(marks.origins)),
        ProgramShow::Pictures => Ok(ReadyProgramShow::Pictures),
        ProgramShow::Profile => {
            let counts = ProgramProfile::new(alloc)?;
            let page = Page::new(alloc, marks.origins)?;
            Ok(ReadyProgramShow::Profile { counts, page })
        }
        ProgramShow::Board(show) => {
            let show = make_board_ready(alloc, marks, show, limit)?;
            Ok(ReadyProgramShow::Board(show))
        }
    }
}

/// Prepares a run of a program. Its code is assembled where it is a source, then its commands are read, and then its key script, so that of two faults the
/// earlier one counts.
pub(crate) fn open_program<'a>(
    alloc: Global,
    request: ProgramRequest<Vec<u8>>,
) -> Result<Prepared, Refusal<'a>>
    requires { AreFit (needed (asked.Program (map_program (λ bytes. bytes.items) request))) }
    ensures { PrepareAnswers (ProgramRunComes (map_program (λ bytes. bytes.items) request)) result }
{
    let limit = request.limit;
    let keys = request.keys;
    let opened = marked_program(alloc, request.memory, request.code)?;
    let show = make_ready(alloc, opened.marks, &request.show, limit)?;
    let board = start_board(alloc, request.memory, &opened.image, keys)?;
    Ok(Prepared::Program { board, limit, show })
}

/// Prepares a run of a program that goes on from a saved state. Its commands are read, and then its key script.
pub(crate) fn open_resumed<'a>(
    alloc: Global,
    request: ResumedRequest<Vec<u8>>,
) -> Result<Prepared, Refusal<'a>>
    requires { AreFit (needed (asked.Resumed (map_resumed (λ bytes. bytes.items) request))) }
    ensures { PrepareAnswers (ResumedRunComes (map_resumed (λ bytes. bytes.items) request)) result }
{
    let limit = request.limit;
    let keys = request.keys;
    let show = make_board_ready(alloc, Marks::none(alloc), &request.show, limit)?;
    let board = resume_board(alloc, request.state.as_slice(), keys)?;
    Ok(Prepared::Resumed { board, limit, show })
}

/// How the run of a program ended.
fn program_ran(limit: Limit, end: Result<ProgramEnd, Failed>) -> Result<Ended, PerformFault>
    ensures { result ≡ program_ended limit end }
{
    match end {
        Ok(ProgramEnd::AtLimit) => Ok(Ended::Ran(limit, RunEnd::AtLimit)),
        Ok(ProgramEnd::Idle(address)) => Ok(Ended::Idle(address)),
        Err(Failed) => Err(PerformFault::WriteFault),
    }
}

/// Up to where a board runs: a limit before the cycle at which it stands is that cycle.
fn limit_at(board: &Board, limit: Limit) -> Limit
    requires { board.now.machine.cycle ≤ most_cycles }
    ensures { result ≡ limit_at limit board.now }
{
    Limit::up_to(limit.cycles().max(board.now()))
}

/// Runs a program up to a limit, and puts the file of the machine in which it ends.
fn save_program<O: Sink>(board: &mut Board, limit: Limit, out: &mut O) -> Result<ProgramEnd, Failed>
    requires boundary { board.old.phase ≡ Boundary }
    requires within { board.old.machine.cycle ≤ limit }
    ensures { SaveAnswers limit board.old (O.meaning out.old) (O.meaning out.new) result }
{
    let end = run_program_to(board, limit);
    put_program_state(board, out)?;
    Ok(end)
}

/// Runs a program's board, and puts what is shown of it.
pub(crate) fn perform_board<O: Sink>(
    board: &mut Board,
    limit: Limit,
    show: ReadyBoardShow,
    out: &mut O,
) -> Result<Ended, PerformFault>
    requires { IsReady (ready.Resumed board.old limit show) }
    ensures { PerformAnswers (outcome_of (ready.Resumed board.old limit show)) (O.meaning out.old) (O.meaning out.new) result }
{
    let last = limit_at(board, limit);
    match show {
        ReadyBoardShow::Commands { commands, origins } => program_ran(
            limit,
            run_program_commands(board, &commands, &origins, last, out),
        ),
        ReadyBoardShow::State => program_ran(limit, save_program(board, last, out)),
    }
}

/// Runs a program, and puts what is shown of it.
pub(crate) fn perform_program<O: Sink>(
    board: &mut Board,
    limit: Limit,
    show: ReadyProgramShow,
    out: &mut O,
) -> Result<Ended, PerformFault>
    requires { IsReady (ready.Program board.old limit show) }
    ensures { PerformAnswers (outcome_of (ready.Program board.old limit show)) (O.meaning out.old) (O.meaning out.new) result }
{
    match show {
        ReadyProgramShow::Trace(origins) => {
            program_ran(limit, show_trace(board, &origins, limit, out))
        }
        ReadyProgramShow::Pictures => program_ran(limit, show_pictures(board, limit, out)),
        ReadyProgramShow::Profile {
            mut counts,
            mut page,
        } => program_ran(
            limit,
            show_profile(board, limit, &mut counts, &mut page, out),
        ),
        ReadyProgramShow::Board(show) => perform_board(board, limit, show, out),
    }
}
