//! The whole board of the COSMAC VIP, cycle by cycle and move by move. It stands on the processor, the memory, the video chip and the
//! keypad, each through its contract alone, and on the moves of `machine`. The layer above may rely on what is said below, for every ROM
//! of 2,048 bytes, every key script and any number of cycles below the greatest u64. The standard is RCA's instruction manual of the COSMAC
//! VIP, "Logic"; ports and addresses that the manual leaves open are this project's profile.
//!
//! ```text
//!                      ┌───────────┐  EF1 = EFX, INT, DMA out   ┌───────────┐
//!                      │  CDP1802  │ ◀───────────────────────── │  CDP1861  │  INP 1 on, OUT 1 off
//!                      └─────┬─────┘                            └───────────┘
//!     OUT 4 clears           │ bus                  EF3 = the latched key is down
//!     the boot latch  ┌──────┴──────┐               OUT 2 latches a key
//!                     │  RAM   ROM  │
//!                     └─────────────┘
//! ```
//!
//! - `to_boundary` makes exactly one move of the board as `machine` defines it and names it, or answers that the move would end after
//!   the limit and changes nothing; `cycle` makes the next machine cycle of that move.
//! - `run` makes moves up to the first one behind which one of some `Stops` comes next, which finishes a picture, or behind which the processor falls
//!   asleep, and answers how many.
//! - `linked` makes the next move with two wires at port 3, as `specs/Linked.antt` defines it; on wires that nobody fills a board moves as one
//!   alone (`laws::as_alone`).
//! - What the video chip has of pictures is what the definition of pictures says of the moves made so far (`specs/Shown.antt`); of a board
//!   that `restore` made at a later cycle, of the frames whose interrupts start at or after it.
//! - The registers, RAM and the latched key stay in their ranges.
//! - `stand` makes a board in any machine, of whose pictures nothing is said.
#![tactic(auto)]

mod board;
pub mod laws;
mod port;
mod stops;
mod wires;

pub use board::{Board, Move, Moved, Switches};
pub use port::Wire;
pub use stops::Stops;
