//! Both ROMs as images of 2,048 bytes.

ghost use Rattle.std.specs.Prelude.{◌≡◌, ◌≤◌, length};
ghost use Rattle.vip_link.specs.Roms.{rom_of, sender_rom, receiver_rom};

use crate::{receiver, sender};

/// A ROM of 2,048 bytes that begins with this code, and is 00 behind it.
fn image(code: &[u8]) -> [u8; 2048]
    requires { length code.now ≤ 0x800 }
    ensures { result ≡ rom_of code.now }
{
    let mut rom = [0; 2048];
    rom[..code.len()].copy_from_slice(code);
    rom
}

/// The ROM SENDER.
#[tactic(auto, unfolding(crate::specs::Roms::sender_rom))]
pub fn sender_image() -> [u8; 2048]
    ensures { result ≡ sender_rom }
{
    image(&sender::CODE)
}

/// The ROM RECEIVER.
#[tactic(auto, unfolding(crate::specs::Roms::receiver_rom))]
pub fn receiver_image() -> [u8; 2048]
    ensures { result ≡ receiver_rom }
{
    image(&receiver::CODE)
}
