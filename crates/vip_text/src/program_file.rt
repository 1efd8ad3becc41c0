//! Reading the file of the machine of any program.

ghost use Rattle.std.specs.Prelude.{◌≡◌, ◌<◌, ◌/◌, ◌%◌, ◌==◌, ◌↔◌, IsTrue, length, slice_index, take};
ghost use Rattle.vip_text.specs.StateFile.{file_size};
ghost use Rattle.vip_text.specs.ProgramFile.{IsProgramMachine, JudgesProgram, machine_in, program_head, program_size, part, rom_in, switch};

use crate::fault::StateFault;
use crate::state_file::{KEY, RAM, SIZE as PART, cycle};
use vip_byte::MOST_CYCLE;

/// The bytes of a file.
pub const SIZE: usize = 6_195;

/// The number of the format.
pub const FORMAT: u8 = 2;

/// The byte of the switches.
const SWITCHES: usize = 5;

/// What each switch counts in its byte where it is on: the boot latch, the display, interrupts, and the processor that idles.
pub const LATCH: u8 = 1;

pub const DISPLAY: u8 = 2;

pub const INTERRUPTS: u8 = 4;

pub const IDLE: u8 = 8;

/// Accepts a file, or refuses it for its first fault, in the order of `StateFault`.
pub fn check_program(bytes: &[u8]) -> Result<(), StateFault>
    ensures { JudgesProgram bytes.now result }
{
    if bytes.len() != SIZE {
        return Err(StateFault::BadLength);
    }
    if !has_head(bytes) {
        return Err(StateFault::BadHead);
    }
    if cycle(part(bytes)) > MOST_CYCLE {
        return Err(StateFault::BadCycle);
    }
    if !is_machine(bytes) {
        return Err(StateFault::BadMachine);
    }
    Ok(())
}

/// Whether the first five bytes are those of every file.
fn has_head(bytes: &[u8]) -> bool
    requires { length bytes.now ≡ program_size }
    ensures { IsTrue result ↔ (take 5 bytes.now ≡ program_head) }
{
    bytes[0] == 0x56
        && bytes[1] == 0x49
        && bytes[2] == 0x50
        && bytes[3] == 0x53
        && bytes[4] == FORMAT
}

/// Whether the flags and the key are such.
fn is_machine(bytes: &[u8]) -> bool
    requires { length bytes.now ≡ program_size }
    ensures { IsTrue result ↔ IsProgramMachine bytes.now }
{
    let part = part(bytes);
    bytes[SWITCHES] < 16 && part[49] <= 3 && part[KEY] < 16
}

/// The part that lies as the file of a game's state.
pub fn part(bytes: &[u8]) -> &[u8]
    requires { length bytes.now ≡ program_size }
    ensures bytes { result.now ≡ part bytes.now }
    ensures size { length result.now ≡ file_size }
{
    &bytes[..PART]
}

/// The RAM.
pub fn ram(bytes: &[u8]) -> &[u8]
    requires { length bytes.now ≡ program_size }
    ensures bytes { result.now ≡ (machine_in bytes.now).ram }
    ensures size { length result.now ≡ 0x1000 }
{
    &part(bytes)[RAM..]
}

/// The ROM.
pub fn rom(bytes: &[u8]) -> &[u8]
    requires { length bytes.now ≡ program_size }
    ensures bytes { result.now ≡ rom_in bytes.now }
    ensures size { length result.now ≡ 0x800 }
{
    &bytes[PART..]
}

/// Whether the switch of this weight is on.
pub fn is_on(bytes: &[u8], weight: u8) -> bool
    requires size { length bytes.now ≡ program_size }
    requires weight { 0 < weight }
    ensures { result ≡ switch weight bytes.now }
{
    bytes[SWITCHES] / weight % 2 == 1
}
