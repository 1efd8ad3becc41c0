//! The two-pass assembler of the CDP1802 and of CHIP-8: a source text becomes bytes at addresses, names with their values, or its first
//! fault. It stands on `asm_lex`, which takes one line apart, and on the opcodes of `vip_isa` and `chip8_words`. The layers above may rely
//! on this: `assemble` answers what `IsAssembly` in `specs/Made.antt` says, or the first fault as `HasFirstFault` in `specs/Sources.antt`
//! says, want of memory aside, and the readers of `Assembly` show it; `check` answers every fault and every note, as `told` and `note_at` in
//! `specs/Told.antt` say, and the first of the faults is that one. The instructions are those of RCA's data sheet of the CDP1802 and of its manual of
//! CHIP-8; the language of the lines is this project's profile (`docs/ASSEMBLER.md`).
//!
//! Pass 1 gives each line its address and each name its value, pass 2 the bytes.
#![tactic(auto)]

mod assembly;
mod culprit;
mod encode;
mod fault;
mod findings;
mod fixed;
mod labels;
mod layout;
mod line_text;
mod operands;
mod origins;
mod passes;
mod source;
mod table;
mod values;

pub use crate::assembly::{Assembly, LinePlace};
pub use crate::encode::size_at;
pub use crate::fault::{AsmCause, AsmFault};
pub use crate::findings::{Checked, Finding, Told, check};
pub use crate::labels::{Labels, LinesAt};
pub use crate::layout::LabelValue;
pub use crate::operands::{further_finding, is_waiting};
pub use crate::origins::{Origins, read_place};
pub use crate::passes::{MOST_BYTES, assemble};
pub use crate::source::next_line;
