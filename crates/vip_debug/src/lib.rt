//! The debugger: commands that make moves of a board and show what it holds.
//!
//! It stands on the commands that `vip_words` reads, on the board, on the disassembly of `asm_listing`, and on the sinks of `vip_outside`. What
//! commands ask of any board is said once: a board that goes along a run of its own is a [`Target`], which is moved by number, up to a cycle, to an
//! address or to a change of memory, and whose registers and bytes are shown. Two boards are such: one that runs a game from event to event
//! (`vip_relation`), of which the language state and the screen are shown too by the texts of `vip_text`, and opcodes in the words of `chip8_words`, and
//! one that runs any program (`vip_program`).
//!
//! The layer above may rely on this: the moves that a command makes are exactly those of `specs/Commands.antt`, none behind the end of the run or
//! the limit; `run_commands` puts exactly the pieces of `specs/Answers.antt`, up to the first put that fails, and leaves the board at the place
//! that it says. That is a fold over the commands in terms of the defined run, from the place of the board on: the moves made and the events met,
//! of which some may wait at its present state. `run_program_commands` says the same of any program (`specs/Programs.antt`). Bytes are those that
//! the processor would read; where the lines of a source are told, a line that shows bytes that it gave has the source's line at its end. No call takes
//! memory. Commands behind a dispatch point answer as on a run that begins with a file of the machine there (`laws::goes_on_behind`).
//!
//! The commands and their answers are this project's format (`docs/DEBUGGER.md`).
#![tactic(auto)]

mod answer;
mod bytes;
mod code;
mod game;
mod going;
pub mod laws;
mod looks;
mod moves;
mod program;
mod registers;
mod run;
mod show;
mod sought;
mod target;
mod watched;

pub use looks::Looks;
pub use moves::Change;
pub use program::{run_program_commands, run_program_to};
pub use run::{DebugEnd, run_commands};
pub use target::Target;
