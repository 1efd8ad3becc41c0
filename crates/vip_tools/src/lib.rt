//! What all verbs share, and the work of those that run no board: the files that a request names, the key script, the commands and the games in them; the
//! statuses, the refusals and the line of report of each; from a source or bytes the dump, every fault, the listing and the disassembly, the table of
//! bounds, and certificates checked and found; the pages of the verbs, the version, and what is made of words. The demonstration games are here too, which no file holds.
//!
//! The crate stands on the words and the commands of `vip_words`, on the key scripts of `vip_keypad`, on the judging of saved states and the texts of
//! `vip_text`, on the assembler and its listings (`asm_core`, `asm_listing`), on the comparison of a source with a ROM (`chip8_source`), on
//! certificates (`cycle_check`, `game_check`), on the kit's `hex` for a game's digits, and on the files and sinks of `vip_outside`; it runs no machine. The layer above may rely on this: the
//! files of a request are read whole, in the order of `specs/Files.antt`, up to the first that is refused, a saved state is judged as it is read, and
//! what was read is the request again, with the contents of the files in the places of their names; a text is read as `specs/Opening.antt` says; each
//! of the verbs comes to its output by one put, or to its refusal, as `specs/Outcome.antt` and `specs/Certificates.antt` say by the contents of its
//! files; and each refusal and each end has the status and the report of `specs/Status.antt`, `specs/Refusal.antt` and `specs/Report.antt`, and a
//! report goes to a sink by one put. Of a refusal by `open` the line is made first, which takes memory; where there is none, it is want of memory
//! that is reported. The end of a command takes none, nor does why it comes to no end. The demonstration games, the statuses and the reports are this
//! project's (`docs/STATUSES.md`).
#![tactic(auto)]

mod certificates;
mod code;
mod demo;
mod ended;
mod fault;
mod files;
mod games;
mod loading;
mod obstacle;
mod pages;
mod reading;
mod refusal;
mod remarks;
mod report;
mod status;
mod tools;

pub use certificates::{certify, cycles, safe, timing};
pub use code::{Image, MarkedGame, MarkedImage, Marks, game, marked_game, marked_program};
pub use demo::{demo_game, made_game};
pub use ended::Ended;
pub use fault::PerformFault;
pub use files::game_kind;
pub use games::{GameCause, ListedGame, read_games};
pub use loading::load;
pub use pages::{help, version, why};
pub use reading::{read_debugging, read_keys};
pub use refusal::{Kind, Misfit, NoTiming, Refusal};
pub use report::{append, end_text, put_end, put_fault, put_refusal};
pub use status::Status;
pub use tools::{asm, bounds, check, dis, list, source};
