//! A board that runs the interpreter's ROM: its moves, one at a time and over a run of the interrupt routine, and its run as a run of CHIP-8.
//!
//! This is where the proof of the ROM, which speaks of states of the machine, meets the board that makes them. It stands on the board, through its
//! contract alone, on the run as its callers see it (`vip_relation`), of which only the events of the defined run are known, on the laws of the ROM
//! in `rom_run`, and, for saved states, on `vip_show`, which says what is written of a run. The layer above needs no law of the ROM.
//!
//! It may rely on the laws in `language`: they hold of every run from reset and from any machine that may start, as that of an accepted file may, and
//! of every run of which `Follows` holds, as it does after every call of `Run` and `Vip`, in both editions. The language is RCA's, as `chip8_lang`
//! defines it; times are this project's profile. And on those in `saved`: what is saved of a run, from a reset or from a saved state, is an accepted
//! file, which shows the machine state at the run's last dispatch point, and the run from it goes on with the other: joined there, the two are the run
//! in one go, with its pictures. The state that an accepted file shows, saved again, gives the same bytes. And on that in `bounds`, which has the least
//! bounds of the language's time.
//!
//! And on those in `laws`: where what is known of a running interpreter holds before a move of the board, it holds behind it, with the record of what
//! came since the last dispatch point carried on; a run of the routine is one timer tick in 1,846 cycles, 1,024 of them DMA cycles with the bytes of
//! the screen's rows.
#![tactic(auto)]

pub mod bounds;
pub mod language;
pub mod laws;
pub mod saved;
