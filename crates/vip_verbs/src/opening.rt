//! The opening of a run of the language: its commands and its key script are read, and all the memory that it needs is taken. Its ROM
//! is what its source gives by the law of `chip8_source`.

ghost use Rattle.std.specs.Prelude.{◌≤◌, length, IfOk};
ghost use Rattle.chip8_lang.specs.State.{memory_size};
ghost use Rattle.vip_relation.specs.State.Start.{Reset, Saved};
ghost use Rattle.vip_words.specs.Request.{map_run, map_show, map_start};
ghost use Rattle.vip_words.specs.declared.request.Request.TheVariants as asked;
ghost use Rattle.vip_tools.specs.declared.refusal.Kind.TheVariants.{State};
ghost use Rattle.vip_tools.specs.Code.{marked};
ghost use Rattle.vip_tools.specs.Files.{needed, script_files, show_files, start_files, AreFit, IsRight};
ghost use Rattle.vip_tools.specs.Judged.{Answers};
ghost use Rattle.vip_tools.specs.Opening.{keys_in};
ghost use Rattle.vip_verbs.specs.Outcome.{RunComes};
ghost use Rattle.vip_verbs.specs.Opening.{Accepts, BeginComes, BeginsAt, IsWhole, IsPlain, OpenedAnswers, ShowReady, Started};
ghost use Rattle.vip_verbs.specs.Prepared.{PrepareAnswers};

use crate::prepared::{Prepared, ReadyShow};
use asm_core::Origins;
use chip8_lang::Edition;
use chip8_source::laws::source_gives_rom;
use std::alloc::{AllocError, Global};
use vip_debug::Looks;
use vip_keypad::Script;
use vip_program::Page;
use vip_relation::{ResumeFault, Run, StartFault};
use vip_show::Profile;
use vip_text::Limit;
use vip_tools::{Marks, Refusal, game_kind, made_game, marked_game, read_debugging, read_keys};
use vip_words::{PlainShow, RunRequest, Show, Speaks, Start};

/// A run of an edition's game from reset under its script.
fn start_game<'a>(
    alloc: Global,
    edition: Edition,
    game: &[u8],
    script: &Script,
) -> Result<Run, Refusal<'a>>
    requires { length game.now ≤ memory_size edition }
    ensures { Answers (Started edition (Reset game.now) script.now) result }
{
    source_gives_rom();
    match Run::start_as(alloc, edition, game, script) {
        Ok(run) => Ok(run),
        Err(StartFault::GameTooLarge(_)) => Err(Refusal::TooLarge(game_kind(edition))),
        Err(StartFault::NoMemory) => Err(Refusal::NoMemory),
    }
}

/// A run that goes on from an accepted state file under its script, with the ROM of the file's edition.
fn go_on<'a>(alloc: Global, file: &[u8], script: &Script) -> Result<Run, Refusal<'a>>
    requires { IsRight State file.now }
    ensures { Accepts file.now (λ e. Answers (Started e (Saved file.now) script.now) result) }
{
    source_gives_rom();
    match Run::resume(alloc, file, script) {
        Ok(run) => Ok(run),
        Err(ResumeFault::State(fault)) => Err(Refusal::State(fault)),
        Err(ResumeFault::NoMemory) => Err(Refusal::NoMemory),
    }
}

/// Where a run begins, with the bytes that it needs.
#[derive(Drop)]
enum Beginning {
    /// At a reset, with a game of an edition.
    Reset { game: Vec<u8>, edition: Edition },
    /// At an accepted file of a saved state.
    Saved(Vec<u8>),
}

/// Where a run begins, with what is known of the code with which it does.
#[derive(Drop)]
struct Opened {
    beginning: Beginning,
    marks: Marks,
}

/// The bytes with which a run begins, and what is known of their code. A source is assembled once for both.
fn read_start<'a>(alloc: Global, start: Start<Vec<u8>>) -> Result<Opened, Refusal<'a>>
    requires { AreFit (start_files (map_start (λ bytes. bytes.items) start)) }
    ensures { OpenedAnswers (map_start (λ bytes. bytes.items) start) result }
{
    match start {
        Start::Game { code, edition } => {
            let made = marked_game(alloc, edition, code)?;
            Ok(Opened {
                beginning: Beginning::Reset {
                    game: made.game,
                    edition,
                },
                marks: made.marks,
            })
        }
        Start::State(file) => Ok(Opened {
            beginning: Beginning::Saved(file),
            marks: Marks::none(alloc),
        }),
        Start::Made(made) => {
            let game = made_game(alloc, made)?;
            Ok(Opened {
                beginning: Beginning::Reset {
                    game,
                    edition: Edition::Usual,
                },
                marks: Marks::none(alloc),
            })
        }
    }
}

/// A run from its beginning under its key script, which is read first.
fn begin<'a>(alloc: Global, beginning: Beginning, keys: Option<Vec<u8>>) -> Result<Run, Refusal<'a>>
    requires beginning { IsWhole beginning }
    requires keys { AreFit (script_files (keys_in keys)) }
    ensures { BeginsAt beginning (λ e s. Answers (BeginComes e s (keys_in keys)) result) }
{
    let script = read_keys(alloc, keys)?;
    match beginning {
        Beginning::Reset { game, edition } => start_game(alloc, edition, game.as_slice(), &script),
        Beginning::Saved(file) => go_on(alloc, file.as_slice(), &script),
    }
}

/// What is shown of a run without the debugger, by what a source gave, with its memory taken.
fn make_plain(alloc: Global, origins: Origins, shown: PlainShow) -> Result<ReadyShow, AllocError>
    ensures { IfOk result (λ ready. IsPlain origins shown ready) }
{
    match shown {
        PlainShow::Trace(columns) => Ok(ReadyShow::Trace { columns, origins }),
        PlainShow::Pictures => Ok(ReadyShow::Pictures),
        PlainShow::State => Ok(ReadyShow::State),
        PlainShow::Profile => {
            let counts = Profile::new(alloc)?;
            let page = Page::new(alloc, origins)?;
            Ok(ReadyShow::Profile { counts, page })
        }
        PlainShow::Summary(number) => Ok(ReadyShow::Summary(number)),
    }
}

/// What is shown of a run up to a limit, with its commands read, by what is known of its code, and its memory taken.
fn make_ready<'a>(
    alloc: Global,
    marks: Marks,
    show: &Show<Vec<u8>>,
    limit: Limit,
) -> Result<ReadyShow, Refusal<'a>>
    requires { AreFit (show_files (map_show (λ bytes. bytes.items) show.now)) }
    ensures { ShowReady (marked marks) limit (map_show (λ bytes. bytes.items) show.now) result }
{
    match show {
        Show::Commands {
            file,
            echo,
            columns,
        } => {
            let Marks { names, origins } = marks;
            let commands = read_debugging(
                alloc,
                Speaks::Chip8,
                &names,
                *echo,
                file.as_slice(),
                limit,
            )?;
            let looks = Looks {
                columns: *columns,
                origins,
            };
            Ok(ReadyShow::Commands { commands, looks })
        }
        Show::Plain(shown) => Ok(make_plain(alloc, marks.origins, *shown)?),
    }
}

/// Prepares a run of the language. Its code is assembled where it is a source, then its commands are read, and then its key script, so that of two faults the
/// earlier one counts.
pub(crate) fn open_run<'a>(
    alloc: Global,
    request: RunRequest<Vec<u8>>,
) -> Result<Prepared, Refusal<'a>>
    requires { AreFit (needed (asked.Run (map_run (λ bytes. bytes.items) request))) }
    ensures { PrepareAnswers (RunComes (map_run (λ bytes. bytes.items) request)) result }
{
    let limit = request.limit;
    let keys = request.keys;
    let opened = read_start(alloc, request.start)?;
    let show = make_ready(alloc, opened.marks, &request.show, limit)?;
    let run = begin(alloc, opened.beginning, keys)?;
    Ok(Prepared::Run { run, limit, show })
}
