//! The structs that cross to C. `include/vip_device.h` describes each field.

use chip8_lang::Edition;

/// The most changes of Q that a device records in one call.
pub const MOST_TURNS: usize = 128;

/// The processor, the switches of the board, and the latched key.
#[repr(C)]
#[derive(Clone, Copy)]
pub struct VipRegisters {
    pub r: [u16; 16],
    pub d: u8,
    pub df: u8,
    pub p: u8,
    pub x: u8,
    pub t: u8,
    pub q: u8,
    pub ie: u8,
    pub idle: u8,
    pub latch: u8,
    pub display: u8,
    pub key: u8,
    pub unused: u8,
}

/// A board as plain data.
#[repr(C)]
#[derive(Clone, Copy)]
pub struct VipDevice {
    /// The machine cycles since reset.
    pub cycle: u64,
    /// How many pictures were finished, and the frame of the last one.
    pub pictures: u64,
    pub frame: u64,
    /// The cycles from which on Q had a new value in the last run, as far as there is room, and how many there were.
    pub turns: [u64; MOST_TURNS],
    pub turn_count: u32,
    /// 0 a board, 1 a game, 2 a game of the tall edition.
    pub kind: u8,
    /// The number of the place at which the last run stopped.
    pub place: u8,
    /// Whether the display was on so far in each cycle of the frame that needs it.
    pub shown: u8,
    pub unused: u8,
    pub registers: VipRegisters,
    pub unused_too: [u8; 4],
    /// The last finished picture.
    pub picture: [[u8; 8]; 128],
    /// The lines of the frame under way, and how many bytes each has.
    pub lines: [[u8; 8]; 128],
    pub lengths: [u8; 128],
    pub ram: [u8; 0x1000],
    pub rom: [u8; 0x800],
}

/// An instruction at an address that runs with this P, or with any P if it is FF.
#[repr(C)]
#[derive(Clone, Copy)]
pub struct VipPlace {
    pub address: u16,
    pub p: u8,
    pub unused: u8,
}

/// The CHIP-8 state in the memory of a game.
#[repr(C)]
#[derive(Clone, Copy)]
pub struct VipState {
    pub pc: u16,
    pub i: u16,
    pub opcode: u16,
    pub ticks: u16,
    pub stack: [u16; 12],
    pub screen_size: u16,
    pub has_opcode: u8,
    pub depth: u8,
    pub v: [u8; 16],
    pub dt: u8,
    pub st: u8,
    pub tone: u8,
    pub random: u8,
    pub at_point: u8,
    pub stop: u8,
    pub screen: [u8; 512],
}

impl VipDevice {
    /// The edition of the game. None comes exactly where it runs none.
    pub fn edition(&self) -> Option<Edition> {
        match self.kind {
            1 => Some(Edition::Usual),
            2 => Some(Edition::Tall),
            _ => None,
        }
    }
}
