//! What the words of a command line ask for: the requests.

ghost use Rattle.std.specs.Prelude.{◌≡◌, IfOk, map, string_bytes};

use crate::moves::Moves;
use crate::place::Place;
use crate::table::Verb;
use arrayvec::ArrayVec;
use asm_lex::Isa;
use chip8_lang::Edition;
use std::alloc::{AllocError, Global};
use std::marker::Model;
use vip_text::{Limit, TraceColumns};

/// What the words of a command line ask for. A file is an `N`: its name, which is the word itself, or, once it was read, its content.
#[derive(Drop)]
pub enum Request<N> {
    /// A run of the language that is shown.
    Run(RunRequest<N>),
    /// A run of a program for the processor that is shown.
    Program(ProgramRequest<N>),
    /// A run of a program that goes on from a saved state and is shown.
    Resumed(ResumedRequest<N>),
    /// Two boards that are joined.
    Link {
        /// What one board sends to the other.
        message: N,
        /// How many moves the two boards make.
        moves: Moves,
        /// The number of the schedule, which says whose move each is.
        number: u32,
    },
    /// A text that is made of one file.
    Text {
        verb: TextVerb,
        file: N,
    },
    /// Check a certificate that a routine of a source leaves within its machine cycles.
    Cycles {
        source: N,
        certificate: N,
        /// Whether its exits are asked for.
        exits: bool,
    },
    /// Check a certificate that an edition's game never stops.
    Safe {
        game: Code<N>,
        certificate: N,
        edition: Edition,
    },
    /// Search for a certificate that an edition's game never stops.
    Certify {
        game: Code<N>,
        edition: Edition,
    },
    /// A text of the program's own, for which no file is read.
    Own(OwnText),
}

/// What text is made of a file.
#[derive(Drop)]
pub enum TextVerb {
    /// Assemble a source: the bytes themselves where `raw` is asked for, and else their dump.
    Asm {
        isa: Isa,
        raw: bool,
    },
    /// Tell every fault of a source, by the name of its file.
    Check {
        name: FileName,
        isa: Isa,
    },
    /// List a source with its bytes.
    List {
        isa: Isa,
    },
    /// Disassemble bytes from an address on.
    Dis {
        place: Place,
    },
    /// Search for a certificate of a routine of a source.
    Timing {
        entry: Entry,
        /// The number of the register that is the program counter.
        p: u8,
        /// The number of the counter register.
        k: u8,
    },
    /// Run each game of a list up to a machine cycle, and tell the digests of what is shown of it.
    Digest {
        limit: Limit,
    },
}

/// A text of the program's own.
#[derive(Drop)]
pub enum OwnText {
    /// A source that the program has in it.
    Source(BuiltIn),
    /// The table of the bounds of each step.
    Bounds,
    /// All verbs, or one of them with its options.
    Help(Option<Verb>),
    /// The name and the version of the program.
    Version,
    /// What is made of these words.
    Why(Words),
}

/// Words of a command line. A contract sees the bytes of each.
#[derive(Drop)]
pub struct Words {
    words: Vec<String>,
}

impl Model for Words {
    ghost use Rattle.std.specs.Prelude.{ℕ, List, map, string_bytes};

    ghost Value = { List (List ℕ) };

    ghost view = { λ words. map string_bytes words.words.items };
}

impl Words {
    /// A copy of some words. It fails only where memory is refused.
    pub(crate) fn of(alloc: Global, words: &[String]) -> Result<Words, AllocError>
        ensures { IfOk result (λ copy. copy ≡ map string_bytes words.now) }
    {
        let mut copies = Vec::new(alloc);
        for word in words {
            copies.push(String::from_str(alloc, word.as_str())?)?;
        }
        Ok(Words { words: copies })
    }

    /// The words.
    pub fn as_slice(&self) -> &[String]
        ensures { map string_bytes result.now ≡ self.now }
    {
        self.words.as_slice()
    }
}

/// The name of a file, which stays beside its content.
#[derive(Drop)]
pub struct FileName {
    bytes: Vec<u8>,
}

impl Model for FileName {
    ghost use Rattle.std.specs.Prelude.{ℕ, List};

    ghost Value = { List ℕ };

    ghost view = { λ name. name.bytes.items };
}

impl FileName {
    /// A copy of the word that names a file. It fails only where memory is refused.
    pub fn of(alloc: Global, word: &str) -> Result<FileName, AllocError>
        ensures { IfOk result (λ name. name ≡ word.now) }
    {
        let bytes = Vec::from_slice(alloc, word.as_bytes())?;
        Ok(FileName { bytes })
    }

    /// Its bytes.
    pub fn as_slice(&self) -> &[u8]
        ensures { result.now ≡ self.now }
    {
        self.bytes.as_slice()
    }
}

/// What is to run, or to be judged.
#[derive(Drop)]
pub enum Code<N> {
    /// The bytes themselves.
    Bytes(N),
    /// A source that gives them: a game's in CHIP-8's words, and a program's in those of the processor; and whether its lines are told.
    Source { file: N, told: bool },
}

/// A run of the language: from where, under which keys, how long, and what is shown of it.
#[derive(Drop)]
pub struct RunRequest<N> {
    pub start: Start<N>,
    /// The key script, where there is one.
    pub keys: Option<N>,
    /// Up to which machine cycle, counted from reset.
    pub limit: Limit,
    pub show: Show<N>,
}

/// Where a run of the language begins.
#[derive(Drop)]
pub enum Start<N> {
    /// At a reset, with a game of an edition.
    Game { code: Code<N>, edition: Edition },
    /// At a saved state, whose edition counts.
    State(N),
    /// At a reset, with a game that no file holds.
    Made(MadeGame),
}

/// A game that the program makes.
#[derive(Clone, Copy)]
pub enum MadeGame {
    /// The demonstration game of a number.
    Demo(u32),
}

/// What is shown of a run of the language.
#[derive(Drop)]
pub enum Show<N> {
    /// The answers to the debugger's commands; whether each command stands before its answer; and what the lines of dispatch points have besides.
    Commands {
        file: N,
        echo: bool,
        columns: TraceColumns,
    },
    /// What needs no commands.
    Plain(PlainShow),
}

/// What is shown of a run of the language without the debugger.
#[derive(Clone, Copy)]
pub enum PlainShow {
    /// A line for each dispatch point behind the start, and what is asked for besides.
    Trace(TraceColumns),
    /// Each finished picture.
    Pictures,
    /// The last dispatch point, as a state file.
    State,
    /// Where its time goes, by its dispatch points.
    Profile,
    /// One line that counts a demonstration game of this number.
    Summary(u32),
}

/// A run of a program for the processor: which one, under which keys, how long, and what is shown of it.
#[derive(Drop)]
pub struct ProgramRequest<N> {
    pub code: Code<N>,
    /// Where it starts, and where its bytes stand, unless it is a source, which says that itself.
    pub memory: Memory,
    /// The key script, where there is one.
    pub keys: Option<N>,
    /// Up to which machine cycle.
    pub limit: Limit,
    pub show: ProgramShow<N>,
}

/// What is shown of a run of a program for the processor.
#[derive(Drop)]
pub enum ProgramShow<N> {
    /// A line for each move or stretch of moves.
    Trace,
    /// Each finished picture.
    Pictures,
    /// Where its time goes, by its instructions.
    Profile,
    /// What needs the board alone.
    Board(BoardShow<N>),
}

/// What is shown of a program's board, whatever moves came before.
#[derive(Drop)]
pub enum BoardShow<N> {
    /// The answers to the debugger's commands; and whether each command stands before its answer.
    Commands { file: N, echo: bool },
    /// The state in which the run ends, as a state file.
    State,
}

/// A run of a program that goes on from a saved state: from which one, under which keys, how long, and what is shown of it.
#[derive(Drop)]
pub struct ResumedRequest<N> {
    pub state: N,
    /// The key script, where there is one.
    pub keys: Option<N>,
    /// Up to which machine cycle, counted from reset.
    pub limit: Limit,
    pub show: BoardShow<N>,
}

/// Where a routine is entered: at the address that a name stands for, and else at the one that its digits say.
#[derive(Drop)]
pub struct Entry {
    /// The word, without the colon before it: from 1 to 32 bytes.
    pub name: EntryName,
    /// What one to four hexadecimal digits say, which have no colon before them.
    pub digits: Option<u16>,
}

/// The name of an address.
pub type EntryName = ArrayVec<u8, MOST_NAME>;

/// The most bytes of a name.
pub const MOST_NAME: usize = 32;

/// A memory of the board in which a program starts.
#[derive(Clone, Copy)]
pub enum Memory {
    /// The ROM, from 8000 on, in place of the interpreter.
    Rom,
    /// The RAM, from 0000 on.
    Ram,
}

/// A source that the program has in it.
#[derive(Clone, Copy)]
pub enum BuiltIn {
    /// That of an edition's interpreter.
    Interpreter(Edition),
    /// That of the program by which a board sends a message.
    Sender,
    /// That of the program by which another one receives it.
    Receiver,
}
