//! What the words of the verbs that run games, programs or joined boards ask for. The function of a verb gives nothing where its positional words or its
//! options are refused.

ghost use Rattle.std.specs.Prelude.{◌≡◌, option_map};
ghost use Rattle.vip_words.specs.Asked.{any_by, asked_of_verb, columns_by, either_by, is_mixed, is_mixed_state, is_program, lacks_source, program_by, resumed_by, run_by, start_by};
ghost use Rattle.vip_words.specs.Given.{seen_given};
ghost use Rattle.vip_words.specs.Request.{asked_of, board_show_of, program_show_of, show_of, start_of};
ghost use Rattle.vip_words.specs.declared.table.Verb.TheVariants as verb;

use crate::flag::Flag;
use crate::given::{Given, Positional};
use crate::moves::Moves;
use crate::request::{
    BoardShow, MadeGame, Memory, PlainShow, ProgramRequest, ProgramShow, Request, ResumedRequest,
    RunRequest, Show, Start, TextVerb,
};
use crate::values::{code_by, edition_by, read_seed};
use vip_text::{Limit, PLAIN, TraceColumns};

/// Where a run begins whose file has this name: at a saved state, which has its own edition and is no source, or at a game's reset.
fn read_start<'a>(file: &'a str, given: &Given<'a>) -> Option<Start<&'a str>>
    ensures { option_map start_of result ≡ start_by file.entry.now (seen_given given.now) }
{
    if !given.has(Flag::State) {
        return Some(Start::Game {
            code: code_by(given.has(Flag::Asm), given.has(Flag::Source), file),
            edition: edition_by(given.has(Flag::Tall)),
        });
    }
    if given.has(Flag::Tall) || given.has(Flag::Asm) {
        None
    } else {
        Some(Start::State(file))
    }
}

/// A run from the start of this name, for as many cycles as a word says, that is shown so.
fn run_request<'a>(
    file: &'a str,
    cycles: &str,
    given: &Given<'a>,
    show: Show<&'a str>,
) -> Option<Request<&'a str>>
    ensures { option_map asked_of result ≡ run_by file.entry.now cycles.now (seen_given given.now) (show_of show.entry) }
{
    let start = read_start(file, given)?;
    let limit = Limit::read(cycles.as_bytes())?;
    Some(Request::Run(RunRequest {
        start,
        keys: given.keys,
        limit,
        show,
    }))
}

/// Whether a program for the processor is asked for, in place of a game.
fn is_program(given: &Given) -> bool
    ensures { result ≡ is_program (seen_given given.now) }
{
    given.has(Flag::Rom) || given.has(Flag::Ram)
}

/// The flags that speak of a game.
const GAME_FLAGS: [Flag; 5] = [Flag::State, Flag::Tall, Flag::Screen, Flag::Words, Flag::At];

/// Whether the options are such as a program can't have: both memories, or an option of a game or of a saved state.
fn is_mixed(given: &Given) -> bool
    ensures { result ≡ is_mixed (seen_given given.now) }
{
    let both_memories = given.has(Flag::Rom) && given.has(Flag::Ram);
    both_memories || given.has_any(&GAME_FLAGS)
}

/// A run of the program of this name, for as many cycles as a word says, that is shown so.
fn program_request<'a>(
    file: &'a str,
    cycles: &str,
    given: &Given<'a>,
    show: ProgramShow<&'a str>,
) -> Option<Request<&'a str>>
    ensures { option_map asked_of result ≡ program_by file.entry.now cycles.now (seen_given given.now) (program_show_of show.entry) }
{
    if is_mixed(given) {
        return None;
    }
    let limit = Limit::read(cycles.as_bytes())?;
    let memory = if given.has(Flag::Rom) {
        Memory::Rom
    } else {
        Memory::Ram
    };
    Some(Request::Program(ProgramRequest {
        code: code_by(given.has(Flag::Asm), given.has(Flag::Source), file),
        memory,
        keys: given.keys,
        limit,
        show,
    }))
}

/// Whether the lines of a source are to be told where there is none.
pub(crate) fn lacks_source(given: &Given) -> bool
    ensures { result ≡ lacks_source (seen_given given.now) }
{
    given.has(Flag::Source) && !given.has(Flag::Asm)
}

/// The flags that speak of a game, or of a source.
const GAME_OR_SOURCE_FLAGS: [Flag; 5] = [
    Flag::Tall,
    Flag::Screen,
    Flag::Words,
    Flag::At,
    Flag::Asm,
];

/// Whether the options are such as a program's saved state can't have: both memories, or an option of a game or of a source.
fn is_mixed_state(given: &Given) -> bool
    ensures { result ≡ is_mixed_state (seen_given given.now) }
{
    let both_memories = given.has(Flag::Rom) && given.has(Flag::Ram);
    both_memories || given.has_any(&GAME_OR_SOURCE_FLAGS)
}

/// A run of a program from the saved state of this name, for as many cycles as a word says, that is shown so.
fn resumed_request<'a>(
    state: &'a str,
    cycles: &str,
    given: &Given<'a>,
    show: BoardShow<&'a str>,
) -> Option<Request<&'a str>>
    ensures { option_map asked_of result ≡ resumed_by state.entry.now cycles.now (seen_given given.now) (board_show_of show.entry) }
{
    if is_mixed_state(given) {
        return None;
    }
    let limit = Limit::read(cycles.as_bytes())?;
    Some(Request::Resumed(ResumedRequest {
        state,
        keys: given.keys,
        limit,
        show,
    }))
}

/// A run of a program where the options ask for one, and else one of the language.
fn either_request<'a>(
    file: &'a str,
    cycles: &str,
    given: &Given<'a>,
    show: Show<&'a str>,
    program_show: ProgramShow<&'a str>,
) -> Option<Request<&'a str>>
    ensures { option_map asked_of result
        ≡ either_by file.entry.now cycles.now (seen_given given.now) (show_of show.entry) (program_show_of program_show.entry) }
{
    if lacks_source(given) {
        return None;
    }
    if is_program(given) {
        program_request(file, cycles, given, program_show)
    } else {
        run_request(file, cycles, given, show)
    }
}

/// A run of a program's saved state where the options ask for one, and else one of a program or of the language.
fn any_request<'a>(
    file: &'a str,
    cycles: &str,
    given: &Given<'a>,
    show: Show<&'a str>,
    board_show: BoardShow<&'a str>,
) -> Option<Request<&'a str>>
    ensures { option_map asked_of result
        ≡ any_by file.entry.now cycles.now (seen_given given.now) (show_of show.entry) (board_show_of board_show.entry) }
{
    if lacks_source(given) {
        return None;
    }
    if is_program(given) && given.has(Flag::State) {
        resumed_request(file, cycles, given, board_show)
    } else {
        either_request(file, cycles, given, show, ProgramShow::Board(board_show))
    }
}

/// What the options ask for besides the states of dispatch points.
fn columns_by(given: &Given) -> TraceColumns
    ensures { result ≡ columns_by (seen_given given.now) }
{
    TraceColumns {
        time: given.has(Flag::At),
        words: given.has(Flag::Words),
        screen: given.has(Flag::Screen),
    }
}

pub(crate) fn trace_request<'a>(given: &Given<'a>) -> Option<Request<&'a str>>
    ensures { option_map asked_of result ≡ asked_of_verb verb.Trace (seen_given given.now) }
{
    let Positional::Two(file, cycles) = given.positional else {
        return None;
    };
    let show = Show::Plain(PlainShow::Trace(columns_by(given)));
    either_request(file, cycles, given, show, ProgramShow::Trace)
}

pub(crate) fn play_request<'a>(given: &Given<'a>) -> Option<Request<&'a str>>
    ensures { option_map asked_of result ≡ asked_of_verb verb.Play (seen_given given.now) }
{
    let Positional::Two(file, cycles) = given.positional else {
        return None;
    };
    let show = Show::Plain(PlainShow::Pictures);
    either_request(file, cycles, given, show, ProgramShow::Pictures)
}

pub(crate) fn debug_request<'a>(given: &Given<'a>) -> Option<Request<&'a str>>
    ensures { option_map asked_of result ≡ asked_of_verb verb.Debug (seen_given given.now) }
{
    let Positional::Three(file, cycles, commands) = given.positional else {
        return None;
    };
    let echo = given.has(Flag::Echo);
    let show = Show::Commands {
        file: commands,
        echo,
        columns: columns_by(given),
    };
    let board_show = BoardShow::Commands {
        file: commands,
        echo,
    };
    any_request(file, cycles, given, show, board_show)
}

pub(crate) fn save_request<'a>(given: &Given<'a>) -> Option<Request<&'a str>>
    ensures { option_map asked_of result ≡ asked_of_verb verb.Save (seen_given given.now) }
{
    let Positional::Two(file, cycles) = given.positional else {
        return None;
    };
    let show = Show::Plain(PlainShow::State);
    any_request(file, cycles, given, show, BoardShow::State)
}

pub(crate) fn profile_request<'a>(given: &Given<'a>) -> Option<Request<&'a str>>
    ensures { option_map asked_of result ≡ asked_of_verb verb.Profile (seen_given given.now) }
{
    let Positional::Two(file, cycles) = given.positional else {
        return None;
    };
    let show = Show::Plain(PlainShow::Profile);
    either_request(file, cycles, given, show, ProgramShow::Profile)
}

/// The trace of a run from a saved state.
pub(crate) fn resume_request<'a>(given: &Given<'a>) -> Option<Request<&'a str>>
    ensures { option_map asked_of result ≡ asked_of_verb verb.Resume (seen_given given.now) }
{
    let Positional::Two(state, cycles) = given.positional else {
        return None;
    };
    let limit = Limit::read(cycles.as_bytes())?;
    Some(Request::Run(RunRequest {
        start: Start::State(state),
        keys: given.keys,
        limit,
        show: Show::Plain(PlainShow::Trace(TraceColumns {
            time: given.has(Flag::At),
            ..PLAIN
        })),
    }))
}

pub(crate) fn demo_request<'a>(given: &Given<'a>) -> Option<Request<&'a str>>
    ensures { option_map asked_of result ≡ asked_of_verb verb.Demo (seen_given given.now) }
{
    let Positional::Two(number, cycles) = given.positional else {
        return None;
    };
    let number = read_seed(number)?;
    let limit = Limit::read(cycles.as_bytes())?;
    Some(Request::Run(RunRequest {
        start: Start::Made(MadeGame::Demo(number)),
        keys: None,
        limit,
        show: Show::Plain(PlainShow::Summary(number)),
    }))
}

pub(crate) fn digest_request<'a>(given: &Given<'a>) -> Option<Request<&'a str>>
    ensures { option_map asked_of result ≡ asked_of_verb verb.Digest (seen_given given.now) }
{
    let Positional::Two(file, cycles) = given.positional else {
        return None;
    };
    let limit = Limit::read(cycles.as_bytes())?;
    Some(Request::Text {
        verb: TextVerb::Digest { limit },
        file,
    })
}

pub(crate) fn link_request<'a>(given: &Given<'a>) -> Option<Request<&'a str>>
    ensures { option_map asked_of result ≡ asked_of_verb verb.Link (seen_given given.now) }
{
    let Positional::Three(message, moves, number) = given.positional else {
        return None;
    };
    let moves = Moves::read(moves.as_bytes())?;
    let number = read_seed(number)?;
    Some(Request::Link {
        message,
        moves,
        number,
    })
}
