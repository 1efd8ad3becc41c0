//! The text of the CHIP-8 interpreter's ROM in the assembly language of this project, for both editions, and the comparison of a source with a ROM:
//! does the text assemble, and to exactly these bytes?
//!
//! The text is here so that a reader, an assembler and the program all have one. It is a head for each edition, which names the edition's screen and
//! its places in RAM, and behind it what both editions share: the names, a text for each part of the ROM, in the file of the part's name, and the
//! font. So the two ROMs have the same instructions at the same addresses and differ in operand bytes alone. A text has at most 1,048,576 bytes.
//!
//! The crate stands on `asm_core`, which assembles, and on `chip8_image`, which has the bytes. The layer above may rely on this: each answer of a
//! comparison is what `Compares` in `specs/Compared.antt` says, which is the first fault of the assembly, else the least address that differs, else
//! fine; by `laws::one_answer` there is one answer, want of memory aside. So a program that calls `check_image`, or `check_tall`, before it runs the
//! image runs what the text says. By `laws::source_gives_rom` both answer that all is fine, want of memory aside: the text of each edition gives its
//! ROM. `test_machine` shows that the text of a part gives bytes at the part's addresses alone.
//!
//! The instructions are those of RCA's data sheet of the CDP1802; the assembly's language, the places, the font and the bounds are this project's
//! profile.
#![tactic(auto)]

mod arith;
mod comparison;
mod fault;
mod fetch;
mod font;
mod head;
mod keys;
pub mod laws;
mod memory;
mod names;
mod sprite;
mod text;
mod timer;

pub use comparison::{check_image, check_tall, compare};
pub use fault::ImageFault;
pub use text::{source, tall_source};
