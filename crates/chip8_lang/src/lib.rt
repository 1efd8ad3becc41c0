//! The language CHIP-8 by definitions, in both editions: its state, its instructions, a step, a stop and a timer tick, what may lie between two
//! dispatch points, the cycle bounds, where a language state lies in the machine, and the events of a run. It stands on the definitions of
//! `machine` alone. The layers above may rely on the definitions in `specs/`, on `read_instr`, which decodes an opcode as they do, on where an
//! edition has its game memory, and on the plain types by which traces and stops are shown. `examples` has worked examples. The standard is RCA's instruction manual of the COSMAC VIP; what it
//! leaves open is this project's profile (`docs/LANGUAGE.md`).
//!
//! No code that runs a game calls a rule of the language: the ROM carries it out, and the definitions serve contracts alone.
#![tactic(auto)]

mod editions;
pub mod examples;
mod instr;
mod view;

pub use editions::MEMORY_START;
pub use instr::{Instr, read_instr};
pub use view::{Edition, StateView, Stop, StopRecord};
