//! What a user asks for: the words of the command line, and the commands of the debugger, read exactly. The crate stands on the kit's `clap`, whose contracts
//! say which words a simple command takes and what it finds in them, on `vip_byte` for numbers and lines, on `vip_keypad` for the remarks that commands share
//! with key scripts, on `chip8_lang` for the name of an edition, on `vip_text` for the limit of a run and what a trace shows besides the states, and on
//! `asm_lex` for the name of an instruction set and its addresses; it reads no file and knows no board. The layer above may rely on `read_words`: it answers
//! exactly the request that the rules of `specs/Rules.antt`, `specs/Table.antt` and `specs/Asked.antt` read in the words, and refuses exactly the words in
//! which they read none; on `first_broken`: it names the first rule of `specs/Broken.antt` that words break, which is one exactly where they are refused
//! (`refused_by_rule`); and on `why_line` and `remark`, which say that, or what is asked for, as `specs/Why.antt` does. It may rely on `read_commands`: its
//! answer is the list of the commands that a text says, in order, or its first fault, exactly as `specs/DebugGrammar.antt` says. Want of memory is the one
//! other answer of each. The rules are this project's profile (`docs/COMMANDS.md`).
//!
//! ```text
//!     words ──▶ the verb's usage ──▶ each word is plain or an option of it ──▶ clap ──▶ what the verb asks for ──▶ Request
//!   (words.rt)     (table.rt)                     (given.rt)               (command.rt)   (runs.rt, tools.rt)   (request.rt)
//! ```
//!
//! Behind `why` the words aren't read so: they are kept, and what is made of them is its text (`src/why.rt`). Of words that are refused the first broken rule is
//! found by what `clap` never tells (`src/broken.rt`).
//!
//! | Rule | Kept by |
//! |---|---|
//! | the first word is the verb, spelled exactly | the table of verbs |
//! | a word that is empty, or begins with `-` and is no option of the verb spelled exactly, is refused | a test of each word |
//! | `--keys` takes the next word, which is there and doesn't begin with `-` | `clap` |
//! | options stand anywhere after the verb, each at most once | `clap` |
//! | the other words are the positional ones, in order, and as many as the verb takes, or none behind a verb that may stand alone | `clap` |
//! | behind `help` stands no word, or a verb, spelled exactly | `src/tools.rt` |
//! | a number of cycles is decimal and at most 4,000,000,000 | `vip_text` |
//! | the number of a demonstration game, or of a schedule of joined boards, is decimal and at most 4,294,967,295 | `vip_byte` |
//! | a number of moves of joined boards is decimal and at most 10,000,000 | `src/moves.rt` |
//! | an address is hexadecimal and at most FFFF, with `--chip8` from 200 to FFF | `src/place.rt` |
//! | where a routine is entered is an address of one to four hexadecimal digits, and else a name of at most 32 bytes, always behind `:` | `src/values.rt` |
//! | the program counter and the counter of a routine are two registers, each one hexadecimal digit | `src/tools.rt`, `src/values.rt` |
//! | a program has one of `--rom` and `--ram`, and no option that speaks of a game or its states (`GAME_FLAGS`) | `src/runs.rt` |
//! | a saved state, by `--state`, has its own edition and is no source: `--tall` and `--asm` are refused with it | `src/runs.rt` |
//! | `source` has at most one of `--tall`, `--sender` and `--receiver` | `src/tools.rt` |
//!
//! One `clap` command serves all verbs with as many positional words: it has every option, and a word that is an option of another verb doesn't come
//! to it. So a verb is added by its row in the two tables (`src/table.rt`, `specs/Table.antt`), its variant and what its words ask for, which mostly
//! is a start and a show that are there; an option of a verb, by its name in the verb's rows. The rows also have what is said of a verb, and beside them
//! stands what is said of an option: the pages of `help` are made of both. A new option that takes no word is one more flag (`src/flag.rt`,
//! `specs/Rules.antt`) and one more argument of the command (`src/command.rt`): what the words give is a set of flags.
#![tactic(auto)]

mod broken;
mod command;
mod debug_commands;
mod debug_line;
mod flag;
mod given;
mod moves;
mod place;
mod request;
mod runs;
mod table;
mod tools;
mod values;
mod why;
mod words;

pub use broken::{Broken, Due, Rule, first_broken, refused_by_rule};
pub use debug_commands::{
    Command, CommandCause, CommandFault, Commands, Running, Seeking, Showing, Speaks,
    SpokenCommand, Telling, read_commands,
};
pub use given::WordsFail;
pub use moves::Moves;
pub use place::Place;
pub use request::{
    BoardShow, BuiltIn, Code, Entry, EntryName, FileName, MadeGame, Memory, OwnText, PlainShow,
    ProgramRequest, ProgramShow, Request, ResumedRequest, RunRequest, Show, Start, TextVerb, Words,
};
pub use table::{Row, VERBS, Verb, about, with_value};
pub use why::{remark, why_line};
pub use words::read_words;
