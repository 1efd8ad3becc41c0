//! Two boards that are joined by port 3: A sends a message by the ROM SENDER, B stores it by the ROM RECEIVER, and whoever holds the link says
//! which of them moves next.
//!
//! It stands on `vip_board`, whose `linked` makes one linked move, on `rom_law` for how machine code reads ROM and RAM, and on `chip8_source`,
//! which compares the ROMs with their texts. The layer above may rely on this: `Link::step` makes exactly the linked move of its side, and after
//! every step what was sent is a prefix of the message, what was received is a prefix of that and at most one byte shorter, and lies in B's RAM
//! from 0200 on, and both displays are off; `Link::run` makes the moves of the schedule that a number gives; `laws::every_schedule` says of the
//! definitions what holds after every step, and that a schedule brings the whole message in which B moves often enough right behind A:
//! 40 (n + 2) times for one of n bytes. Each of the two sources gives its ROM.
//!
//! ```text
//!     ┌───────────┐  OUT 3        to B        INP 3  ┌─────────────┐
//!     │  board A  │ ───────────────────────────────▶ │   board B   │
//!     │  SENDER   │  EF4 = full         EF2 = full   │   RECEIVER  │
//!     │           │ ◀─────────────────────────────── │             │
//!     └───────────┘   to A: nothing is ever on it    └─────────────┘
//! ```
//!
//! The instructions are those of RCA's data sheet of the CDP1802; port 3 as a link is this project's profile.
//!
//! It is also the smallest example of a proof of machine code: `proofs/Sending.antt` and `proofs/Receiving.antt` say of each instruction what is
//! known before it, and compute what its move makes of that; `proofs/Both.antt` puts the two machines together, and `proofs/Law.antt` has the law.
#![tactic(auto)]

mod check;
mod fault;
mod image;
pub mod laws;
mod link;
mod receiver;
mod schedule;
mod sender;
mod side;

pub use check::check_link;
pub use fault::LinkFault;
pub use link::Link;
pub use receiver::receiver_text;
pub use schedule::next_random;
pub use sender::sender_text;
pub use side::Side;
