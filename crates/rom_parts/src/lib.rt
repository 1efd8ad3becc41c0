//! The six parts of the interpreter's ROM, proved for both editions, each in the module of its name, over its own bytes.
//!
//! It stands on the row table of `rom_rows` and on the theory of moves and of rows. The layer above may rely on the laws below alone: it needs no
//! line of the ROM, and where code moves, only labels change. What the instructions do is RCA's manual, "CHIP-8 instructions"; which addresses
//! they may read and write, that 00E0 and DXYN wait for the display, and the edges of the screen are this project's profile. The frame is that of
//! RCA's CDP1861.
//!
//! What each part proves of its blocks and places is `PartLaws`: from every state in a row a main move comes to a row of the table, to the next
//! dispatch or to a stop, and carries on the record of what came since the last dispatch; at a place a tick comes to a row; and the program
//! counter is at the addresses that the table gives the block or the place. And every instruction of the part is in one of these blocks or places.
#![tactic(auto)]

pub mod arith;
pub mod fetch;
pub mod keys;
pub mod memory;
pub mod sprite;
pub mod timer;
