//! What is written of a run, from a reset or from the file of a machine state: its trace, its pictures, its profile, one line of summary, or such a
//! file; and what is told of it without writing it, SHA-256 of its trace and of its pictures.
//!
//! It stands on `vip_relation`, which gives the events of a run one by one, and the chips under it, on the texts of `vip_text` and the files that it
//! accepts, on the counts and the text of a profile of `vip_program`, on the sinks of `vip_outside`, and on the kit's `sha2` (FIPS 180-4). It has no
//! rule of the language and stands on no law of the ROM. The layer above may rely on this, for every run that begins: the pieces of the output are
//! exactly those of `specs/Output.antt`, of a profile those of `specs/Profile.antt` and of a state those of `specs/StateOutput.antt`, each put by a
//! call of its own, up to the first put that fails; and the run ends as its events say. No call takes memory for it: that of a profile is taken by
//! `Profile::new`, and that of its text by `vip_program::Page::new`.
//!
//! A saved state has exactly the bytes of `specs/Written.antt`. What they are to the language is said in `rom_board::saved`: they are an accepted
//! file that shows the state of the board, and a run from any accepted file, whoever wrote it, goes on as CHIP-8.
//!
//! The texts and the format of a state are this project's profile (`docs/FORMATS.md`); a picture is a file of Netpbm's PBM, form P4.
#![tactic(auto)]

mod digests;
mod opcodes;
mod output;
mod pieces;
mod profile;
mod run;
mod summary;
mod writing;

pub use digests::{Digests, digest_run};
pub use opcodes::Profile;
pub use output::show_saved;
pub use pieces::{show_pictures, show_trace};
pub use profile::show_profile;
pub use summary::show_summary;
pub use writing::{put_program_state, write_state};
