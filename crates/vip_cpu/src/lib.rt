//! The CDP1802 by machine cycles. The crate stands on `machine`, which defines each instruction, and on `vip_isa`, which decodes opcodes.
//! It knows nothing of the board: it reaches memory, ports and flags through the trait `Bus`. The layer above may rely on `Cpu::cycle`: for
//! every bus that keeps the laws of `Bus`, it makes exactly the machine cycle of `specs/Cycle.antt`, answers its kind, and makes those calls
//! on the bus that `specs/Acts.antt` says, in that order. The standard is RCA's data sheet of the CDP1802: "Architecture", "State Codes",
//! "Instruction Summary".
//!
//! ```text
//!                  ┌────────────────────────────────────────┐
//!     CLEAR   ───▶ │  R(0) .. R(F)   16 bits each           │
//!     DMA OUT ───▶ │  D 8   DF 1   T 8   P 4   X 4          │ ───▶ Q
//!     INT     ───▶ │  IE 1  Q 1    I,N: the opcode in hand  │ ───▶ state code
//!     EF1-EF4 ───▶ │                                        │
//!                  └────────────────────────────────────────┘
//!                         ▲                       │
//!                         ▼                       ▼
//!                   memory: read, write      ports 1 to 7: OUT, INP
//! ```
//!
//! At a boundary a move starts, with the first of these that applies:
//!
//! ```text
//!     boundary ─┬─ DMA out is wanted ──▶ S2 ─────────────────────▶ boundary
//!               ├─ INT and IE = 1 ─────▶ S3 ─────────────────────▶ boundary
//!               ├─ idling after IDL ───▶ S1 ─────────────────────▶ boundary
//!               └─ otherwise ──────────▶ S0 ──▶ S1 ──────────────▶ boundary
//!                                        S0 ──▶ S1 ──▶ S1 ───────▶ boundary   (opcodes C0 to CF)
//! ```
//!
//! | Cycle | State code | Answer | What it does |
//! |---|---|---|---|
//! | fetch | S0 | `Fetch` | takes the opcode M(R(P)), and adds 1 to R(P) |
//! | execute | S1 | `Execute` | the last one does all the rest of the instruction; one before it changes nothing |
//! | idle | S1 | `Idle` | changes nothing |
//! | DMA out | S2 | `Dma` | puts M(R(0)) on the bus, and adds 1 to R(0); idling ends |
//! | interrupt | S3 | `Interrupt` | T = (X,P), P = 1, X = 2, IE = 0; idling ends |
//!
//! | Looked at | When |
//! |---|---|
//! | DMA out, INT | in the cycle that starts a move, and in no other (this project's profile) |
//! | EF1 to EF4 | in the last cycle of a short branch, which is the one after its fetch |
//!
//! After reset Q = 0, IE = 1, and X, P and R(0) are 0; all else is 0 too, and the first cycle is a fetch (this project's profile: the
//! chip leaves the other registers as they were, and takes one cycle more).
#![tactic(auto)]

mod bus;
mod cpu;
mod execute;
mod groups;
mod registers;

pub use bus::Bus;
pub use cpu::{Cpu, Did, Next, Phase};
pub use execute::plain_cycles;
pub use registers::Parts;
