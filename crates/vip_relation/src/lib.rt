//! A run of the board with the interpreter's ROM, from a reset with a game or from the machine state of a file, event by event: finished pictures,
//! dispatch points, and the stop.
//!
//! It stands on the board and its chips, on the bytes and labels of the ROM (`chip8_image`), on the files that `vip_text` accepts, and on the
//! definition of the events of a run (`chip8_lang`), for both editions. No rule of the language stands here, and no law of the ROM. The layer above
//! may rely on this, for every game that fits and every file that is accepted, every key script and every limit up to 4,000,000,000 cycles: after
//! every call the board is the state of the defined run from its start after the moves made, and its video chip has the pictures of these moves; a
//! file's own dispatch point counts as met; `advance` answers exactly the next event of the run. A `Run` keeps of a dispatch point what a stop names,
//! and lends the rest off the board that stands there; a `Vip` keeps the state and the screen, so `last` and `shown` tell those of the last dispatch
//! point met wherever the board has gone. Events, views and places are this project's profile (`docs/LANGUAGE.md`, `docs/MACHINE.md`).
#![tactic(auto)]

mod point;
mod run;
mod seen;
mod start;
mod view;
mod vip;

pub use point::{Point, point_at};
pub use run::{Met, Run};
pub use seen::{stop_of, view_of};
pub use start::{ResumeFault, StartFault, most_bytes};
pub use view::{Screen, dark, put_page};
pub use vip::Vip;
