//! The outside of the program: the files that it reads by name, and the sinks that it writes to.
//!
//! [`Files`] and [`Sink`] are all that the layers above see of files, terminals and memory. Each has
//! one ghost member, `meaning`, and one clause that says what each answer does to it. A layer above
//! may rely on this: a read gives the start of the file that the told map has at the name, and is one
//! more of the reads that were made, with its name and what it came to; a put adds its whole piece, or
//! a prefix of it at a fault; a fault comes only where a count of faults rose in that call or stood at
//! the greatest `u64`; and a sink that counts its calls counts each one. `proofs/SinkLemmas.antt` and
//! `proofs/PiecesLemmas.antt` have the laws of several puts in turn.
//!
//! [`MemFiles`] and [`MemSink`] hold everything in memory, tell all of it, and fail where they are
//! told to, so that a caller can be tried against a failing outside. [`RealFiles`] reads from a
//! [`System`] and [`StdSink`] writes to a [`Stream`]; both are proved over any, by the calls that it
//! tells, and the sink by the contents that the stream tells too. [`Writer`] makes a stream of any
//! writer of the standard library, with its contents and without its calls, which no writer tells.
//! [`Host`] passes a call on to the system's files in one line, and tells nothing.
//!
//! The crate stands on `std`, on `arrayvec` for the short lists of named calls, and on `thiserror`.
//! It follows no public standard: the rules are this project's profile.
#![tactic(auto)]

mod files;
mod kept;
mod mem_files;
mod mem_sink;
mod real_files;
mod sink;
mod std_sink;
mod stream;
mod system;

pub use files::{Files, Loaded, ReadFail};
pub use mem_files::MemFiles;
pub use mem_sink::MemSink;
pub use real_files::RealFiles;
pub use sink::{Failed, Sink};
pub use std_sink::StdSink;
pub use stream::{Stream, Writer};
pub use system::{Host, System};

/// The most calls of one object in memory that can be named to fail.
pub const MOST_NAMED: usize = 8;
