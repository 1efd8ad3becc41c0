//! The whole interpreter's ROM: its parts together, for both editions.
//!
//! It stands on the row table of `rom_rows`, on the theory of rows of `rom_law`, and on the proofs of the parts in `rom_parts`, whose module
//! `timer` has the board's moves. The layer above may rely on the laws below alone, which speak of the definitions of the machine and of the
//! language, and of the image: that the image is put together from the bytes of the parts; the law of every schedule; the law of every run of
//! the board, from reset and from any machine that stands for a state at a dispatch point, which is a run of CHIP-8 with the exact cycle and
//! state behind every dispatch point, the cycle bounds, FX0A's promise, and pictures of all frames in turn, each the screen at the last
//! dispatch point; that its events are those of the language's time, one for one; of each state of a run what is known of it, and that the next
//! move is an interrupt exactly in cycle 0 of a frame's line 78; and how long 00E0 and DXYN prepare and change the screen, with no interrupt in
//! between.
#![tactic(auto)]

pub mod laws;
