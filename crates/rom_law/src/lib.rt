//! How an interpreter's ROM is proved: main code and timer ticks, the rows of its code, and the laws that follow from them.
//!
//! The moves of main code change places with the ticks that interrupts bring, so that a straight piece of code can be run once, without
//! ticks, and what it does is known whenever ticks come. This takes the ROM, the addresses of its fetch loop and of its stop, and the lowest
//! address that a tick may write as one argument, `Code`. The layer above may rely on three things: `after_move`, by which an instruction of
//! any kind but those that use the timers, T or Q gives the same before and after ticks; `Reaches`, by which a literal piece of code is run by
//! computing; and `tick_fits`, by which a tick keeps every register and byte in its range, as a move does.
//!
//! A ROM under proof is a `Program`: its edition, its interpreter, what its boot sets up, and the stops, bounds and times of the language
//! that it knows. Its proof gives `Pieces`, the head of each block of code and how many instructions the block has, and `Proved`, a lemma for
//! each that says what it comes to. From these follow, and are not proved again for any ROM, that the rows are kept by every main move and by every timer
//! tick, the law of every schedule, and the law of every run of the board.
//!
//! It stands on the definitions of the machine and of the language.
#![tactic(auto)]
