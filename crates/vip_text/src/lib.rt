//! The texts that the program shows: the lines of a trace, the lines that name a stop or an idle processor, a summary, a screen, a picture as PBM, and the
//! cycle bounds of the interpreter, the most machine cycles from one dispatch point to the next by the instruction, with their table; up to where a run
//! goes and how it may end; and which files are machine states, what they hold, and what may be wrong with one.
//!
//! The crate stands on the views of the language (`chip8_lang`) and its words (`chip8_words`), on the ROM's labels and places (`chip8_image`), on what a source
//! gave (`asm_core`), on the parts of a processor (`vip_cpu`), on the pictures of `vip_video`, on the digits and the buffer of `vip_byte`, and on the kit's `itoa`. It runs nothing. The layers
//! above may rely on the exact bytes: each call fills an empty buffer with its text (`specs/`), and takes no memory; `check_state` accepts exactly the files
//! that the format of machine states defines, and names the first fault of any other, and an accepted file shows the machine of `specs/StateFile.antt`, whose
//! parts the other calls read; `check_program` does so of the files of any program's machine (`specs/ProgramFile.antt`). A picture is a file of Netpbm's PBM, form P4; the other formats are this project's profile (`docs/FORMATS.md`).
#![tactic(auto)]

mod bounds;
mod ending;
mod fault;
mod limit;
mod picture;
pub mod program_file;
mod screen;
pub mod state_file;
mod stop;
mod summary;
mod trace;
mod write;

pub use bounds::{BOOT, STOP, bound, bounds_text};
pub use ending::RunEnd;
pub use fault::StateFault;
pub use limit::Limit;
pub use picture::{PICTURE_SIZE, picture_text};
pub use screen::{ROW_SIZE, WIDTH, is_lit, screen_text};
pub use stop::{idle_text, stop_text};
pub use summary::summary_text;
pub use trace::{PLAIN, TIMED, TraceColumns, opcode_digits, told_text, trace_text};
