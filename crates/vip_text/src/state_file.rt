//! Reading the file of a machine state.

ghost use Rattle.std.specs.Prelude.{◌≡◌, ◌+◌, ◌<◌, ◌/◌, ◌%◌, ◌↔◌, ◌==◌, ℕ, true, false, IsTrue, length, slice_index, take};
ghost use Rattle.machine.specs.Bank.{value};
ghost use Rattle.machine.specs.Instruction.{Regs};
ghost use Rattle.vip_cpu.specs.Parts.{regs_of};
ghost use Rattle.chip8_image.specs.Interpreters.{interpreter_of};
ghost use Rattle.vip_text.specs.StateFile.{file_size, head, cycle_in, word_at, regs_in, IsCycle, IsStack, IsMachine, Judges};

use crate::fault::StateFault;
use chip8_image::{ENTRY, Places, TALL_ENTRY};
use chip8_lang::Edition;
use vip_byte::MOST_CYCLE;
use vip_cpu::Parts;
use vip_video::{FRAME_CYCLES, INTERRUPT_CYCLE, WINDOW_END_CYCLE};

/// The bytes of a file.
pub const SIZE: usize = 4_147;

/// The byte of the latched key.
pub const KEY: usize = 50;

/// The first byte of RAM, behind all others.
pub const RAM: usize = 51;

/// The most addresses on the stack.
const MOST_ADDRESSES: u16 = 12;

/// The edition of an accepted file. Any other is refused for its first fault, in the order of `StateFault`.
pub fn check_state(bytes: &[u8]) -> Result<Edition, StateFault>
    ensures { Judges bytes.now result }
{
    if bytes.len() != SIZE {
        return Err(StateFault::BadLength);
    }
    if !has_head(bytes) {
        return Err(StateFault::BadHead);
    }
    let edition = match bytes[5] {
        0 => Edition::Usual,
        1 => Edition::Tall,
        _ => return Err(StateFault::BadEdition),
    };
    if !is_cycle(cycle(bytes)) {
        return Err(StateFault::BadCycle);
    }
    if !is_machine(edition, bytes) {
        return Err(StateFault::BadMachine);
    }
    Ok(edition)
}

/// Whether the first five bytes are those of every file.
fn has_head(bytes: &[u8]) -> bool
    requires { length bytes.now ≡ file_size }
    ensures { IsTrue result ↔ (take 5 bytes.now ≡ head) }
{
    bytes[0] == 0x56 && bytes[1] == 0x49 && bytes[2] == 0x50 && bytes[3] == 0x53 && bytes[4] == 0x01
}

/// The cycle.
pub fn cycle(bytes: &[u8]) -> u64
    requires { length bytes.now ≡ file_size }
    ensures { result ≡ cycle_in bytes.now }
{
    u64::from_be_bytes([
        bytes[6], bytes[7], bytes[8], bytes[9], bytes[10], bytes[11], bytes[12], bytes[13],
    ])
}

/// Whether main code runs in this cycle, and a run may come to it: from the interrupt up to the end of the window its routine runs.
fn is_cycle(t: u64) -> bool
    ensures { IsTrue result ↔ IsCycle t }
{
    let place = t % FRAME_CYCLES;
    t % 2 == 0 && t <= MOST_CYCLE && (place < INTERRUPT_CYCLE || place >= WINDOW_END_CYCLE)
}

/// The number of the two bytes from one on.
fn word(bytes: &[u8], at: usize) -> u16
    requires { at + 1 < length bytes.now }
    ensures { result ≡ value (word_at bytes.now at) }
{
    u16::from(bytes[at]) * 256 + u16::from(bytes[at + 1])
}

/// The interrupt routine of an edition.
fn entry(edition: Edition) -> u16
    ensures { result ≡ (interpreter_of edition).entry }
{
    match edition {
        Edition::Usual => ENTRY,
        Edition::Tall => TALL_ENTRY,
    }
}

/// Whether R2 points into an edition's stack.
fn is_stack(edition: Edition, r2: u16) -> bool
    ensures { IsTrue result ↔ IsStack edition r2 }
{
    let top = Places::of(edition).stack_top;
    if r2 > top {
        return false;
    }
    let above = top - r2;
    above % 2 == 0 && above / 2 <= MOST_ADDRESSES
}

/// Whether the registers, the flags and the key are those of a processor at an edition's fetch loop.
fn is_machine(edition: Edition, bytes: &[u8]) -> bool
    requires { length bytes.now ≡ file_size }
    ensures { IsTrue result ↔ IsMachine edition bytes.now }
{
    let places = Places::of(edition);
    bytes[48] % 16 == 4
        && word(bytes, 22) == places.fetch
        && word(bytes, 16) == entry(edition)
        && bytes[36] == places.screen
        && is_stack(edition, word(bytes, 18))
        && bytes[49] <= 3
        && bytes[KEY] < 16
}

/// R(0) to R(F).
fn registers(bytes: &[u8]) -> [u16; 16]
    requires { length bytes.now ≡ file_size }
    ensures { (k : ℕ) → k < 16 → slice_index result k ≡ value (word_at bytes.now (14 + (k + k))) }
{
    let mut r = [0; 16];
    for k in 0..16 {
        r[k] = word(bytes, 14 + 2 * k);
    }
    r
}

/// The processor of a file with such flags.
pub fn parts(bytes: &[u8]) -> Parts
    requires size { length bytes.now ≡ file_size }
    ensures regs { regs_of result ≡ regs_in bytes.now }
    ensures p { result.p < 16 }
    ensures x { result.x < 16 }
{
    Parts {
        r: registers(bytes),
        d: bytes[46],
        t: bytes[47],
        x: bytes[48] / 16,
        p: bytes[48] % 16,
        df: bytes[49] % 2 == 1,
        q: bytes[49] / 2 == 1,
    }
}
