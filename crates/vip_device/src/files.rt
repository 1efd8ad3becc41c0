//! Machine states as files (`docs/FORMATS.md`, "A machine state").

ghost use Rattle.std.specs.Prelude.{◌≡◌, ◌≤◌, length};
ghost use Rattle.vip_text.specs.StateFile.{file_size};

use crate::codes::{
    BAD_CYCLE, BAD_EDITION, BAD_HEAD, BAD_LENGTH, BAD_MACHINE, BAD_NUMBER, NO_GAME, OK,
};
use crate::device::{VipDevice, VipRegisters};
use crate::setup::clear_pictures;
use chip8_image::Places;
use chip8_lang::Edition;
use vip_text::StateFault;
use vip_text::program_file::{
    DISPLAY, IDLE, INTERRUPTS, LATCH, SIZE as BOARD_SIZE, check_program, is_on, part, ram, rom,
};
use vip_text::state_file::{KEY, RAM, SIZE as GAME_SIZE, check_state, cycle, parts};
use vip_video::{FRAME_CYCLES, INTERRUPT_CYCLE};

/// The code of a file that isn't accepted.
fn code_of(fault: StateFault) -> i32 {
    match fault {
        StateFault::BadLength => BAD_LENGTH,
        StateFault::BadHead => BAD_HEAD,
        StateFault::BadEdition => BAD_EDITION,
        StateFault::BadCycle => BAD_CYCLE,
        StateFault::BadMachine => BAD_MACHINE,
    }
}

/// The switches of a board, in the byte of the format.
fn switches_of(registers: &VipRegisters) -> u8 {
    u8::from(registers.latch != 0)
        + 2 * u8::from(registers.display != 0)
        + 4 * u8::from(registers.ie != 0)
        + 8 * u8::from(registers.idle != 0)
}

/// The bytes of a file, all 00.
fn no_bytes() -> [u8; BOARD_SIZE]
    ensures { length result ≡ 6195 }
{
    [0; BOARD_SIZE]
}

/// Writes the file of a board in format 2. The first bytes of it in format 1, with the byte of the edition, are those of a game.
fn put_file(device: &VipDevice, format: u8, switches: u8, bytes: &mut [u8])
    requires { length bytes.old ≡ 6195 }
{
    let registers = &device.registers;
    bytes[..6].copy_from_slice(&[0x56, 0x49, 0x50, 0x53, format, switches]);
    bytes[6..14].copy_from_slice(&device.cycle.to_be_bytes());
    for n in 0..16 {
        let [high, low] = registers.r[n].to_be_bytes();
        bytes[14 + 2 * n] = high;
        bytes[15 + 2 * n] = low;
    }
    bytes[46] = registers.d;
    bytes[47] = registers.t;
    bytes[48] = 16 * (registers.x % 16) + registers.p % 16;
    bytes[49] = u8::from(registers.df != 0) + 2 * u8::from(registers.q != 0);
    bytes[KEY] = registers.key % 16;
    bytes[RAM..GAME_SIZE].copy_from_slice(&device.ram);
    bytes[GAME_SIZE..].copy_from_slice(&device.rom);
}

/// Copies a file to where there is room for it.
fn copy_file(file: &[u8], into: &mut [u8])
    requires { length file.now ≤ length into.old }
{
    into[..file.len()].copy_from_slice(file);
}

/// Writes a machine state in format 1 or 2, and returns its size.
#[unsafe(no_mangle)]
pub extern "C" fn vip_device_save(device: &VipDevice, format: u8, into: &mut [u8]) -> i32 {
    match format {
        1 => save_game(device, into),
        2 => save_board(device, into),
        _ => BAD_NUMBER,
    }
}

/// Writes the state of a game at a dispatch point.
fn save_game(device: &VipDevice, into: &mut [u8]) -> i32 {
    if into.len() < GAME_SIZE {
        return BAD_LENGTH;
    }
    let byte = match device.edition() {
        Some(Edition::Usual) => 0,
        Some(Edition::Tall) => 1,
        None => return NO_GAME,
    };
    let registers = &device.registers;
    if registers.latch != 0 || registers.display == 0 || registers.ie == 0 || registers.idle != 0 {
        return BAD_MACHINE;
    }
    let mut file = no_bytes();
    put_file(device, 1, byte, &mut file);
    let game = part(&file);
    match check_state(game) {
        Ok(_) => {
            copy_file(game, into);
            GAME_SIZE as i32
        }
        Err(fault) => code_of(fault),
    }
}

/// Writes the state of a board.
fn save_board(device: &VipDevice, into: &mut [u8]) -> i32 {
    if into.len() < BOARD_SIZE {
        return BAD_LENGTH;
    }
    let mut file = no_bytes();
    put_file(device, 2, switches_of(&device.registers), &mut file);
    match check_program(&file) {
        Ok(()) => {
            copy_file(&file, into);
            BOARD_SIZE as i32
        }
        Err(fault) => code_of(fault),
    }
}

/// Sets the device to a machine state of either format.
#[unsafe(no_mangle)]
pub extern "C" fn vip_device_load(device: &mut VipDevice, bytes: &[u8]) -> i32 {
    if bytes.len() == GAME_SIZE {
        load_game(device, bytes)
    } else {
        load_board(device, bytes)
    }
}

/// The registers in the file of a game, and the part of a board's file that lies as one.
fn registers_of(bytes: &[u8], key: u8) -> VipRegisters
    requires { length bytes.now ≡ file_size }
{
    let from = parts(bytes);
    let numbers = from.r;
    VipRegisters {
        r: numbers,
        d: from.d,
        df: u8::from(from.df),
        p: from.p,
        x: from.x,
        t: from.t,
        q: u8::from(from.q),
        ie: 1,
        idle: 0,
        latch: 0,
        display: 1,
        key,
        unused: 0,
    }
}

/// Sets a device to the board at a cycle, with no pictures.
fn begin_at(device: &mut VipDevice, cycle: u64) {
    clear_pictures(device, cycle, cycle % FRAME_CYCLES <= INTERRUPT_CYCLE);
}

/// Sets a device to the state of a game.
fn load_game(device: &mut VipDevice, bytes: &[u8]) -> i32 {
    match check_state(bytes) {
        Ok(edition) => {
            begin_at(device, cycle(bytes));
            device.kind = match edition {
                Edition::Usual => 1,
                Edition::Tall => 2,
            };
            device.registers = registers_of(bytes, bytes[KEY]);
            device.rom = *Places::of(edition).rom;
            device.ram.copy_from_slice(&bytes[RAM..]);
            OK
        }
        Err(fault) => code_of(fault),
    }
}

/// Sets a device to the state of a board.
fn load_board(device: &mut VipDevice, bytes: &[u8]) -> i32 {
    match check_program(bytes) {
        Ok(()) => {
            let game = part(bytes);
            begin_at(device, cycle(game));
            device.kind = 0;
            device.registers = registers_of(game, game[KEY]);
            device.registers.latch = u8::from(is_on(bytes, LATCH));
            device.registers.display = u8::from(is_on(bytes, DISPLAY));
            device.registers.ie = u8::from(is_on(bytes, INTERRUPTS));
            device.registers.idle = u8::from(is_on(bytes, IDLE));
            device.ram.copy_from_slice(ram(bytes));
            device.rom.copy_from_slice(rom(bytes));
            OK
        }
        Err(fault) => code_of(fault),
    }
}
