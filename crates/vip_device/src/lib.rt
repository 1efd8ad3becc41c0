//! The board of the COSMAC VIP as a device in the caller's memory, for C, Python and WebAssembly. A device is one struct of plain data, `VipDevice`, and each
//! call makes a board of it, runs or reads that board, and writes it back. Nothing below an export allocates, and nothing is kept between calls.
//!
//! The crate stands on the board (`vip_board`) with the set of keys that are held, on the reading of a language state (`vip_relation`), on the interpreter's
//! bytes and places (`chip8_image`), on the mnemonics of both languages (`chip8_words`, `vip_isa`) and on the formats of machine states (`vip_text`).
//! `include/vip_device.h` declares the exports, with units and results. That C keeps to it, no proof can say.
//!
//! Every content of the struct is a device: P, X and the latched key count modulo 16, a flag is set if its byte isn't 0, and bytes that the video chip can't
//! have in the present cycle are left out. So no export has a `requires`.
#![tactic(auto)]

ghost use Rattle.std.specs.Prelude.{◌≡◌};

mod board;
mod codes;
mod device;
mod files;
mod places;
mod run;
mod setup;
mod state;

pub use device::{VipDevice, VipPlace, VipRegisters, VipState};
pub use files::{vip_device_load, vip_device_save};
pub use run::{
    vip_device_frame, vip_device_move, vip_device_opcode, vip_device_run, vip_device_run_to,
};
pub use setup::{
    vip_device_game, vip_device_read, vip_device_reset, vip_device_set_registers, vip_device_write,
};
pub use state::{vip_device_instruction_text, vip_device_opcode_text, vip_device_state};

/// Returns the size of a device in bytes.
#[unsafe(no_mangle)]
pub extern "C" fn vip_device_size() -> usize
    ensures { result ≡ 9424 }
{
    size_of::<VipDevice>()
}
