//! Any program on the board: the start of a board with the user's bytes in ROM or in RAM, and what is written of its run: a line for each
//! move or stretch of moves, the pictures, or its profile. The counts and the text of a profile are those of every run, a game's too.
//!
//! It stands on the board and its chips, on the texts of `vip_byte`, on the pictures and the limit of `vip_text`, on the labels of `asm_core`,
//! and on the sinks of `vip_outside`; no rule of CHIP-8 is known here. The layer above may rely on this, for every ROM, every RAM and every key
//! script: the lines are exactly those of `specs/Trace.antt`, where the lines of the labels at its opcode stand before that of an instruction,
//! the pictures those of `specs/Pictures.antt`, the profile that of `specs/Instructions.antt`, each put by a call of its own up to the first put
//! that fails; and the run ends at its limit, or where the processor idles and no signal can wake it. `Counts` are those of `specs/Counts.antt`
//! by the points of any run, and a `Page` puts their text by `specs/Profile.antt`, with the code that its caller shows and the sums of the rows of each
//! label of a source. No call takes memory but the start, and those that make a profile's tables and its page.
//!
//! The mnemonics are those of RCA's data sheet of the CDP1802, and a picture is a file of Netpbm's PBM, form P4. The form of a line is this
//! project's (`docs/FORMATS.md`).
#![tactic(auto)]

mod counts;
mod figures;
mod frames;
mod instructions;
mod labels;
mod line;
mod moves;
mod names;
mod page;
mod pictures;
mod profile;
mod profile_text;
mod start;
mod sums;
mod trace;
mod write;

pub use counts::{ADDRESSES, Counts, Point};
pub use instructions::ProgramProfile;
pub use labels::{next_place, put_labels, put_labels_at, put_line_end};
pub use line::put_selected;
pub use moves::move_text;
pub use page::Page;
pub use pictures::show_pictures;
pub use profile::show_profile;
pub use profile_text::Codes;
pub use start::{Memory, resume_program, start_program};
pub use trace::{ProgramEnd, ending, show_trace, trace_moves};
