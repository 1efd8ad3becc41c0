//! The state of a game, and texts.

ghost use Rattle.std.specs.Prelude.{◌≤◌};

use crate::board::board_of;
use crate::codes::{BAD_LENGTH, NO_GAME, OK};
use crate::device::{VipDevice, VipState};
use crate::run::stop_code;
use crate::setup::read_around;
use chip8_lang::Edition;
use chip8_words::opcode_words;
use vip_isa::instruction_text;
use vip_relation::{Point, point_at, view_of};

/// Reads the CHIP-8 state in the memory of a game.
#[unsafe(no_mangle)]
pub extern "C" fn vip_device_state(device: &VipDevice, state: &mut VipState) -> i32 {
    let Some(edition) = device.edition() else {
        return NO_GAME;
    };
    let board = board_of(device, 0);
    let view = view_of(&board, edition);
    state.pc = view.pc;
    state.i = view.i;
    state.opcode = view.opcode.unwrap_or(0);
    state.has_opcode = u8::from(view.opcode.is_some());
    state.ticks = view.n;
    state.stack = [0; 12];
    state.depth = 0;
    for address in view.stack.as_slice() {
        if state.depth < 12 {
            state.stack[usize::from(state.depth)] = *address;
            state.depth += 1;
        }
    }
    state.v = view.v;
    state.dt = view.dt;
    state.st = view.st;
    state.tone = u8::from(view.tone);
    state.random = view.b;
    match point_at(edition, &board) {
        Point::Dispatch => {
            state.at_point = 1;
            state.stop = 0;
        }
        Point::Stop => {
            state.at_point = 0;
            state.stop = stop_code(&board);
        }
        Point::Other => {
            state.at_point = 0;
            state.stop = 0;
        }
    }
    copy_screen(device, edition, state);
    OK
}

/// Copies the screen of a game.
fn copy_screen(device: &VipDevice, edition: Edition, state: &mut VipState) {
    match edition {
        Edition::Usual => {
            state.screen = [0; 512];
            state.screen[..256].copy_from_slice(&device.ram[0xF00..]);
            state.screen_size = 256;
        }
        Edition::Tall => {
            state.screen.copy_from_slice(&device.ram[0xE00..]);
            state.screen_size = 512;
        }
    }
}

/// Copies a text of at most `most` bytes, for which there has to be room, and gives its length.
fn put_text(text: &[u8], most: usize, into: &mut [u8]) -> i32
    requires { most ≤ 15 }
{
    if into.len() < most || into.len() < text.len() || text.len() > most {
        return BAD_LENGTH;
    }
    into[..text.len()].copy_from_slice(text);
    text.len() as i32
}

/// Writes the mnemonic of a CHIP-8 opcode, and returns its length.
#[unsafe(no_mangle)]
pub extern "C" fn vip_device_opcode_text(opcode: u16, text: &mut [u8]) -> i32 {
    put_text(opcode_words(opcode).as_slice(), 15, text)
}

/// Writes the mnemonic of the 1802 instruction at an address, and returns its length.
#[unsafe(no_mangle)]
pub extern "C" fn vip_device_instruction_text(
    device: &VipDevice,
    address: u16,
    text: &mut [u8],
) -> i32 {
    let mut bytes = [0; 3];
    read_around(device, address, &mut bytes);
    put_text(instruction_text(address, bytes).as_slice(), 11, text)
}
