//! A request, loaded: each of its files is read, in their order, up to the first that is refused.

ghost use Rattle.std.specs.Prelude.{◌≡◌, ◌∷◌, [], ◌++◌, Vec, map, option_map};
ghost use Rattle.std.specs.declared.alloc.Global.{Global};
ghost use Rattle.vip_words.specs.Request.{asked_of, board_show_of, code_of, map_board_show, map_code, map_program, map_program_show, map_resumed, map_run, map_show, map_start, program_show_of, show_of, start_of};
ghost use Rattle.vip_tools.specs.Files.{board_show_files, file, needed, with_file, program_show_files, program_state_file, script_files, seen_wanted, show_files, start_files, LoadAnswers, PartAnswers};
ghost use Rattle.vip_tools.specs.Loading.{BoardShowLoads, KeysLoad, PairLoads, ProgramLoads, ProgramShowLoads, ResumedLoads, RunLoads, ShowLoads, StartLoads};

use crate::Refusal;
use crate::files::{
    Wanted, certificate_file, commands_file, game_code, message_file, open_file, program_code,
    program_state_file, script_file, source_file, state_file, text_file,
};
use std::alloc::Global;
use vip_outside::Files;
use vip_words::{
    BoardShow, Code, ProgramRequest, ProgramShow, Request, ResumedRequest, RunRequest, Show, Start,
};

/// Code with the content of its file in the place of its name.
fn with_file(code: &Code<&str>, content: Vec<u8>) -> Code<Vec<u8>>
    ensures { map_code (λ bytes. bytes.items) result ≡ with_file (code_of code.now) content.items }
{
    match code {
        Code::Bytes(_) => Code::Bytes(content),
        Code::Source { told, .. } => Code::Source {
            file: content,
            told: *told,
        },
    }
}

/// Reads the file at which a run of the language begins.
fn load_start<'a, F: Files>(
    alloc: Global,
    files: &mut F,
    start: Start<&'a str>,
) -> Result<Start<Vec<u8>>, Refusal<'a>>
    ensures { StartLoads (F.meaning files.old) (F.meaning files.new) (start_of start.entry) result }
{
    match start {
        Start::Game { code, edition } => {
            let content = open_file(alloc, files, &game_code(edition, &code))?;
            Ok(Start::Game {
                code: with_file(&code, content),
                edition,
            })
        }
        Start::State(file) => {
            let file = open_file(alloc, files, &state_file(file))?;
            Ok(Start::State(file))
        }
        Start::Made(made) => Ok(Start::Made(made)),
    }
}

/// Reads the debugger's commands, where those are shown.
fn load_show<'a, F: Files>(
    alloc: Global,
    files: &mut F,
    show: Show<&'a str>,
) -> Result<Show<Vec<u8>>, Refusal<'a>>
    ensures { ShowLoads (F.meaning files.old) (F.meaning files.new) (show_of show.entry) result }
{
    match show {
        Show::Commands {
            file,
            echo,
            columns,
        } => {
            let file = open_file(alloc, files, &commands_file(file))?;
            Ok(Show::Commands {
                file,
                echo,
                columns,
            })
        }
        Show::Plain(shown) => Ok(Show::Plain(shown)),
    }
}

/// Reads the debugger's commands, where those are shown.
fn load_board_show<'a, F: Files>(
    alloc: Global,
    files: &mut F,
    show: BoardShow<&'a str>,
) -> Result<BoardShow<Vec<u8>>, Refusal<'a>>
    ensures { BoardShowLoads (F.meaning files.old) (F.meaning files.new) (board_show_of show.entry) result }
{
    match show {
        BoardShow::Commands { file, echo } => {
            let file = open_file(alloc, files, &commands_file(file))?;
            Ok(BoardShow::Commands { file, echo })
        }
        BoardShow::State => Ok(BoardShow::State),
    }
}

/// Reads the debugger's commands, where those are shown.
fn load_program_show<'a, F: Files>(
    alloc: Global,
    files: &mut F,
    show: ProgramShow<&'a str>,
) -> Result<ProgramShow<Vec<u8>>, Refusal<'a>>
    ensures { ProgramShowLoads (F.meaning files.old) (F.meaning files.new) (program_show_of show.entry) result }
{
    match show {
        ProgramShow::Board(show) => {
            let show = load_board_show(alloc, files, show)?;
            Ok(ProgramShow::Board(show))
        }
        ProgramShow::Trace => Ok(ProgramShow::Trace),
        ProgramShow::Pictures => Ok(ProgramShow::Pictures),
        ProgramShow::Profile => Ok(ProgramShow::Profile),
    }
}

/// Reads the key script, where one is named.
fn load_keys<'a, F: Files>(
    alloc: Global,
    files: &mut F,
    keys: Option<&'a str>,
) -> Result<Option<Vec<u8>>, Refusal<'a>>
    ensures { KeysLoad (F.meaning files.old) (F.meaning files.new) (option_map (λ name. name.now) keys.entry) result }
{
    match keys {
        None => Ok(None),
        Some(name) => {
            let script = open_file(alloc, files, &script_file(name))?;
            Ok(Some(script))
        }
    }
}

/// Reads the files of a run of the language: its start, the commands, the key script.
fn load_run<'a, F: Files>(
    alloc: Global,
    files: &mut F,
    run: RunRequest<&'a str>,
) -> Result<RunRequest<Vec<u8>>, Refusal<'a>>
    ensures { RunLoads (F.meaning files.old) (F.meaning files.new) (map_run (λ name. name.now) run.entry) result }
{
    let start = load_start(alloc, files, run.start)?;
    let show = load_show(alloc, files, run.show)?;
    let keys = load_keys(alloc, files, run.keys)?;
    Ok(RunRequest {
        start,
        keys,
        limit: run.limit,
        show,
    })
}

/// Reads the files of a run of a program: the program, the commands, the key script.
fn load_program<'a, F: Files>(
    alloc: Global,
    files: &mut F,
    run: ProgramRequest<&'a str>,
) -> Result<ProgramRequest<Vec<u8>>, Refusal<'a>>
    ensures { ProgramLoads (F.meaning files.old) (F.meaning files.new) (map_program (λ name. name.now) run.entry) result }
{
    let ProgramRequest {
        code,
        memory,
        keys,
        limit,
        show,
    } = run;
    let content = open_file(alloc, files, &program_code(memory, &code))?;
    let show = load_program_show(alloc, files, show)?;
    let keys = load_keys(alloc, files, keys)?;
    Ok(ProgramRequest {
        code: with_file(&code, content),
        memory,
        keys,
        limit,
        show,
    })
}

/// Reads the files of a run of a program from a saved state: the state, the commands, the key script.
fn load_resumed<'a, F: Files>(
    alloc: Global,
    files: &mut F,
    run: ResumedRequest<&'a str>,
) -> Result<ResumedRequest<Vec<u8>>, Refusal<'a>>
    ensures { ResumedLoads (F.meaning files.old) (F.meaning files.new) (map_resumed (λ name. name.now) run.entry) result }
{
    let state = open_file(alloc, files, &program_state_file(run.state))?;
    let show = load_board_show(alloc, files, run.show)?;
    let keys = load_keys(alloc, files, run.keys)?;
    Ok(ResumedRequest {
        state,
        keys,
        limit: run.limit,
        show,
    })
}

/// Reads two files, one after the other.
fn load_pair<'a, F: Files>(
    alloc: Global,
    files: &mut F,
    first: &Wanted<'a>,
    second: &Wanted<'a>,
) -> Result<(Vec<u8>, Vec<u8>), Refusal<'a>>
    ensures { PairLoads (F.meaning files.old) (F.meaning files.new) (seen_wanted first.now) (seen_wanted second.now) result }
{
    let first = open_file(alloc, files, first)?;
    let second = open_file(alloc, files, second)?;
    Ok((first, second))
}

/// Reads the files of a request, in their order, each whole and judged before the next one is read, up to the first that is refused. The answer is the
/// request with the contents of the files in the places of their names.
pub fn load<'a, F: Files>(
    alloc: Global,
    files: &mut F,
    request: Request<&'a str>,
) -> Result<Request<Vec<u8>>, Refusal<'a>>
    ensures { LoadAnswers (F.meaning files.old) (F.meaning files.new) (asked_of request.entry) result }
{
    match request {
        Request::Run(run) => {
            let run = load_run(alloc, files, run)?;
            Ok(Request::Run(run))
        }
        Request::Program(run) => {
            let run = load_program(alloc, files, run)?;
            Ok(Request::Program(run))
        }
        Request::Resumed(run) => {
            let run = load_resumed(alloc, files, run)?;
            Ok(Request::Resumed(run))
        }
        Request::Link {
            message,
            moves,
            number,
        } => {
            let message = open_file(alloc, files, &message_file(message))?;
            Ok(Request::Link {
                message,
                moves,
                number,
            })
        }
        Request::Text { verb, file } => {
            let file = open_file(alloc, files, &text_file(&verb, file))?;
            Ok(Request::Text { verb, file })
        }
        Request::Cycles {
            source,
            certificate,
            exits,
        } => {
            let pair = load_pair(
                alloc,
                files,
                &source_file(source),
                &certificate_file(certificate),
            )?;
            Ok(Request::Cycles {
                source: pair.0,
                certificate: pair.1,
                exits,
            })
        }
        Request::Safe {
            game,
            certificate,
            edition,
        } => {
            let pair = load_pair(
                alloc,
                files,
                &game_code(edition, &game),
                &certificate_file(certificate),
            )?;
            Ok(Request::Safe {
                game: with_file(&game, pair.0),
                certificate: pair.1,
                edition,
            })
        }
        Request::Certify { game, edition } => {
            let content = open_file(alloc, files, &game_code(edition, &game))?;
            Ok(Request::Certify {
                game: with_file(&game, content),
                edition,
            })
        }
        Request::Own(text) => Ok(Request::Own(text)),
    }
}
