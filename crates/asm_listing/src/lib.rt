//! What shows an assembled source: its listing, the dump of its bytes, these bytes themselves, and the disassembly of bytes. It stands on `asm_core`,
//! whose definition of the assembly it speaks of, and on the opcodes of `vip_isa`. The layers above may rely on the exact texts: `IsListing` in
//! `specs/Listing.antt`, `dump_text` in `specs/Dump.antt`, `IsRaw` in `specs/Raw.antt`, `disassembly` in `specs/Disassembly.antt`, and `report_of`
//! in `specs/Told.antt`, every fault of a source; and on the way back: assembling what `disassemble` gives has no fault, and gives the same bytes at
//! the same addresses and no others (`AssemblesTo` in `specs/WayBack.antt`). A call that takes memory answers an error where memory is refused, and
//! otherwise its text. The mnemonics are those of RCA's data sheet of the CDP1802; the texts are this project's profile (`docs/ASSEMBLER.md`).
#![tactic(auto)]

mod comments;
mod habits;
mod hex_dump;
mod instruction;
mod raw_bytes;
mod remedies;
mod report_text;
mod source_listing;
mod waiting;
mod write;

pub use crate::hex_dump::dump;
pub use crate::instruction::{disassemble, one_line};
pub use crate::raw_bytes::raw;
pub use crate::report_text::{CheckText, report};
pub use crate::source_listing::listing;
