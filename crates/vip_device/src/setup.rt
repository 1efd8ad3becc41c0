//! Reset, a game, and changes of memory and registers.

ghost use Rattle.std.specs.Prelude.{◌≡◌, ◌+◌, ◌%◌, ◌<◌, ◌≤◌, ◌⊎◌, ℕ, length, replicate, slice_index, if◌then◌else◌};
ghost use Rattle.machine.specs.Board.{after_reset, start};
ghost use Rattle.machine.specs.Instruction.{regs_after_reset};
ghost use Rattle.machine.specs.Memory.{read};
ghost use Rattle.chip8_image.specs.Interpreters.{interpreter_of};
ghost use Rattle.vip_memory.specs.Contents.{loaded};
ghost use Rattle.vip_device.specs.Codes.{are_in_range, game_code, read_code, reset_code, write_code};
ghost use Rattle.vip_device.specs.Device.{is_set, machine_in, regs_in};
ghost use Rattle.vip_device.specs.Setup.{edition_of, written_to};

use crate::codes::{BAD_ADDRESS, BAD_LENGTH, BAD_NUMBER, OK};
use crate::device::{MOST_TURNS, VipDevice, VipRegisters};
use chip8_image::{GAME, Places};
use chip8_lang::Edition;
use vip_memory::Memory;

/// The bytes of ROM, and of RAM.
const ROM: usize = 0x800;

const RAM: usize = 0x1000;

/// The registers after reset, with this boot latch.
#[tactic(auto, unfolding(machine::specs::Bank::bank_of))]
fn registers_after_reset(latch: u8) -> VipRegisters
    ensures regs { regs_in result ≡ regs_after_reset }
    ensures latch { result.latch ≡ latch }
    ensures display { result.display ≡ 0 }
    ensures key { result.key ≡ 0 }
{
    VipRegisters {
        r: [0; 16],
        d: 0,
        df: 0,
        p: 0,
        x: 0,
        t: 0,
        q: 0,
        ie: 1,
        idle: 0,
        latch,
        display: 0,
        key: 0,
        unused: 0,
    }
}

/// The bytes of RAM, and of ROM, all 00.
fn no_ram() -> [u8; RAM]
    ensures { result ≡ replicate 0x1000 0 }
{
    [0; RAM]
}

fn no_rom() -> [u8; ROM]
    ensures { result ≡ replicate 0x800 0 }
{
    [0; ROM]
}

/// Puts bytes into RAM from an address on.
fn put_ram(device: &mut VipDevice, address: u16, bytes: &[u8])
    requires { address + length bytes.now ≤ 0x1000 }
    ensures { device.new ≡ record device.old { ram = loaded device.old.ram address bytes.now } }
{
    let start = usize::from(address);
    device.ram[start..start + bytes.len()].copy_from_slice(bytes);
}

/// Puts bytes into ROM from a place in it on.
fn put_rom(device: &mut VipDevice, start: usize, bytes: &[u8])
    requires { start + length bytes.now ≤ 0x800 }
    ensures { device.new ≡ record device.old { rom = loaded device.old.rom start bytes.now } }
{
    device.rom[start..start + bytes.len()].copy_from_slice(bytes);
}

/// Sets a device to no pictures, before a cycle.
pub fn clear_pictures(device: &mut VipDevice, cycle: u64, shown: bool)
    ensures cycle { device.new.cycle ≡ cycle }
    ensures pictures { device.new.pictures ≡ 0 }
    ensures ram { device.new.ram ≡ device.old.ram }
    ensures rom { device.new.rom ≡ device.old.rom }
    ensures kind { device.new.kind ≡ device.old.kind }
{
    device.cycle = cycle;
    device.pictures = 0;
    device.frame = 0;
    device.turns = [0; MOST_TURNS];
    device.turn_count = 0;
    device.place = 0;
    device.shown = u8::from(shown);
    device.unused = 0;
    device.unused_too = [0; 4];
    device.picture = [[0; 8]; 128];
    device.lines = [[0; 8]; 128];
    device.lengths = [0; 128];
}

/// Resets a device with a boot latch, but for the ROM.
fn reset_board(device: &mut VipDevice, latch: u8)
    ensures machine { machine_in device.new ≡ record after_reset { latch = is_set latch } }
    ensures pictures { device.new.pictures ≡ 0 }
    ensures rom { device.new.rom ≡ device.old.rom }
    ensures kind { device.new.kind ≡ 0 }
{
    clear_pictures(device, 0, true);
    device.kind = 0;
    device.registers = registers_after_reset(latch);
    device.ram = no_ram();
}

/// Resets the board with a ROM of 1 to 2,048 bytes, followed by zeros, and the boot latch set or clear.
#[unsafe(no_mangle)]
pub extern "C" fn vip_device_reset(device: &mut VipDevice, rom: &[u8], latch: u8) -> i32
    ensures code { result ≡ reset_code (length rom.now) latch }
    ensures kept { (result ≡ OK) ⊎ (device.new ≡ device.old) }
    ensures machine { result ≡ OK → machine_in device.new ≡ record after_reset { latch = is_set latch } }
    ensures rom { result ≡ OK → device.new.rom ≡ loaded (replicate 0x800 0) 0 rom.now }
    ensures kind { result ≡ OK → device.new.kind ≡ 0 }
{
    if rom.is_empty() || rom.len() > ROM {
        return BAD_LENGTH;
    }
    if latch > 1 {
        return BAD_NUMBER;
    }
    reset_board(device, latch);
    device.rom = no_rom();
    put_rom(device, 0, rom);
    OK
}

/// Resets the board with the interpreter of a variant and a game, the boot latch set.
#[unsafe(no_mangle)]
pub extern "C" fn vip_device_game(device: &mut VipDevice, game: &[u8], tall: u8) -> i32
    ensures code { result ≡ game_code (length game.now) tall }
    ensures kept { (result ≡ OK) ⊎ (device.new ≡ device.old) }
    ensures machine { result ≡ OK → machine_in device.new ≡ start game.now }
    ensures rom { result ≡ OK → device.new.rom ≡ (interpreter_of (edition_of tall)).rom }
    ensures kind { result ≡ OK → device.new.kind ≡ tall + 1 }
{
    let edition = match tall {
        0 => Edition::Usual,
        1 => Edition::Tall,
        _ => return BAD_NUMBER,
    };
    if game.len() > usize::from(edition.memory_size()) {
        return BAD_LENGTH;
    }
    reset_board(device, 1);
    device.kind = tall + 1;
    device.rom = *Places::of(edition).rom;
    put_ram(device, GAME, game);
    OK
}

/// Writes bytes into RAM or ROM, whatever the boot latch is.
#[unsafe(no_mangle)]
pub extern "C" fn vip_device_write(device: &mut VipDevice, address: u16, bytes: &[u8]) -> i32
    ensures code { result ≡ write_code address (length bytes.now) }
    ensures device { device.new ≡ written_to address bytes.now device.old }
{
    let start = usize::from(address);
    if start <= RAM && bytes.len() <= RAM - start {
        put_ram(device, address, bytes);
        return OK;
    }
    if start >= 0x8000 && start <= 0x8800 && bytes.len() <= 0x8800 - start {
        put_rom(device, start - 0x8000, bytes);
        return OK;
    }
    BAD_ADDRESS
}

/// Reads bytes as the processor does, from an address on; behind FFFF comes 0000.
pub fn read_around(device: &VipDevice, address: u16, bytes: &mut [u8])
    ensures { (k : ℕ) → k < length bytes.old → slice_index bytes.new k ≡ read device.now.rom (is_set device.now.registers.latch) device.now.ram ((address + k) % 0x10000) }
{
    let memory = Memory::of(&device.ram, &device.rom, device.registers.latch != 0);
    let mut next = address;
    for k in 0..bytes.len() {
        bytes[k] = memory.read(next);
        next = next.wrapping_add(1);
    }
}

/// Copies bytes as the processor reads them.
#[unsafe(no_mangle)]
pub extern "C" fn vip_device_read(device: &VipDevice, address: u16, bytes: &mut [u8]) -> i32
    ensures code { result ≡ read_code address (length bytes.old) }
    ensures kept { (result ≡ OK) ⊎ (bytes.new ≡ bytes.old) }
    ensures bytes { result ≡ OK → (k : ℕ) → k < length bytes.old → slice_index bytes.new k ≡ read device.now.rom (is_set device.now.registers.latch) device.now.ram ((address + k) % 0x10000) }
{
    if bytes.len() > 0x1_0000 - usize::from(address) {
        return BAD_ADDRESS;
    }
    read_around(device, address, bytes);
    OK
}

/// Whether the numbers and flags are in their ranges.
fn is_in_range(registers: &VipRegisters) -> bool
    ensures { result ≡ are_in_range registers.now }
{
    registers.df < 2
        && registers.p < 16
        && registers.x < 16
        && registers.q < 2
        && registers.ie < 2
        && registers.idle < 2
        && registers.latch < 2
        && registers.display < 2
        && registers.key < 16
}

/// Sets all registers, the switches and the latched key.
#[unsafe(no_mangle)]
pub extern "C" fn vip_device_set_registers(device: &mut VipDevice, registers: &VipRegisters) -> i32
    ensures code { result ≡ (if are_in_range registers.now then OK else BAD_NUMBER) }
    ensures device { device.new ≡ (if are_in_range registers.now then record device.old { registers = registers.now } else device.old) }
{
    if !is_in_range(registers) {
        return BAD_NUMBER;
    }
    device.registers = *registers;
    OK
}
