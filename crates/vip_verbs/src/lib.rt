//! The work of each verb, `trace` to `certify`, by the contents of its files. The crate stands on the run of a game and on what shows it
//! (`vip_relation`, `vip_show`, `vip_debug`), on the board that runs any program (`vip_program`), on the law that each built-in source gives its ROM
//! (`chip8_source`), on two boards that are joined (`vip_link`), and on `vip_tools`, which reads the files and does the work of the verbs that run no board.
//! The layer above may rely on this: the work of a verb comes to its output, its end or its refusal as `specs/Outcome.antt` says by the contents of the
//! files, each piece by one put, up to the first put that fails; and no memory is taken once a run begins, but for the runs of `digest`, which are made while it
//! is opened: what is ready then is their text.
//!
//! ```text
//!     contents ──┬──▶ commands, key script ──▶ vip_relation ──▶ vip_show, vip_debug ────┬──▶ out
//!                ├──▶ commands, key script ──▶ vip_program ──▶ vip_debug ───────────────┤
//!                ├──▶ message ──────────────▶ vip_link ─────────────────────────────────┤
//!                └──▶ vip_tools: assembler, listing, disassembly, bounds, certificates ─┘
//! ```
#![tactic(auto)]

mod digest;
mod linked;
mod opening;
mod prepared;
mod preparing;
mod program;
mod work;

pub use prepared::{Prepared, ReadyBoardShow, ReadyProgramShow, ReadyShow, perform};
pub use preparing::open;
