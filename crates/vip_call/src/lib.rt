//! The one call that the program makes: from the words of its command line to its output, its report and its status. It is `open`, which reads the files,
//! judges them and takes all the memory, and `finish`, which runs and writes and is handed no allocator. Between them `vip_main` compares the ROMs of a run
//! with their sources, which finds nothing, by law; `run_words`, for callers that call often, leaves that out, and keeps the same promise. The crate stands on
//! the words, the files, the verbs and the reports (`vip_words`, `vip_tools`, `vip_verbs`), which it calls, and on the laws of the runs of games in
//! `rom_board`, all through their contracts alone; files and sinks are those of its caller. The program above may rely on the contract of either: what goes to
//! `out` and `err` for every answer, byte by byte and put by put, which files were read, when each answer is due, and what that says of CHIP-8. Reports and
//! statuses are this project's (`docs/STATUSES.md`); a picture is a file of Netpbm's PBM, form P4.
//!
//! ```text
//!               ┌─ open ────────────────────────────────────────┐   ┌─ finish ────────┐
//!     words ──▶ │ vip_words ──▶ vip_verbs: files, what is ready ├──▶│ vip_verbs: work ├──▶ out
//!               └──────────────────────┬────────────────────────┘   └───────┬─────────┘
//!                                      └──────────────┬─────────────────────┘
//!                                                     └──▶ vip_tools  ──▶ err, status
//! ```
#![tactic(auto)]

mod top;

pub use top::{every_call, finish, open, perform, run_words, vip_main};
