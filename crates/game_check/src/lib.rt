//! Certificates that a game never stops. Each line of a certificate claims where the index I lies at
//! a point of control. If every claim is closed, then no key script, no tick and no random byte ever
//! leads to a stop. The format is our choice, and `check_game` describes it.
//!
//! | Module | What it does |
//! |---|---|
//! | `checker` | checks a certificate line by line: the number of its claims, or its first fault |
//! | `least` | finds the least family of claims that is closed |
//! | `decision` | writes that family as a certificate, or returns why the game has none |
//!
//! The crate uses the definitions of `machine` and `chip8_lang`, the lines and numbers of `vip_byte`
//! and the words of `vip_keypad`. Its callers may rely on this:
//!
//! - `check_game` returns the number of claims if and only if the certificate is well formed, has a
//!   claim of the start, and all its claims are closed (`specs/Proof.antt`).
//! - A game with such a certificate never stops (`specs/Laws.antt`).
//! - `find_certificate` returns a certificate if and only if `check_game` accepts one of at most
//!   1,048,576 bytes, and then the least one. Otherwise it returns the reason (`specs/Least.antt`).
//!   Out of memory is a possible answer of both.
#![tactic(auto)]

mod checker;
mod claim;
mod decision;
mod fault;
pub mod laws;
mod least;

pub use checker::check_game;
pub use claim::{Claim, Point};
pub use decision::find_certificate;
pub use fault::{FindFault, Obstacle, OpenClaim, ProofCause, ProofFault};
