//! What the exports return. `include/vip_device.h` has the same numbers.

/// A call was carried out.
pub const OK: i32 = 0;

/// A number of bytes or places that isn't allowed.
pub const BAD_LENGTH: i32 = -1;

/// The bytes don't fit into memory at this address.
pub const BAD_ADDRESS: i32 = -2;

/// A number out of its range.
pub const BAD_NUMBER: i32 = -3;

/// A machine state doesn't begin as one.
pub const BAD_HEAD: i32 = -4;

/// A machine state of a game names no variant.
pub const BAD_EDITION: i32 = -5;

/// A machine state has a cycle that it can't have.
pub const BAD_CYCLE: i32 = -6;

/// A machine state has registers that it can't have.
pub const BAD_MACHINE: i32 = -7;

/// The device runs no game.
pub const NO_GAME: i32 = -8;

/// The next move would end after the limit.
pub const LIMIT: i32 = 0;

/// The last move finished a picture.
pub const PICTURE: i32 = 1;

/// The next move is the instruction at a place.
pub const PLACE: i32 = 2;

/// The processor idles with the display off.
pub const IDLE: i32 = 3;

/// A game is at a dispatch point.
pub const DISPATCH: i32 = 4;

/// What a DMA cycle, an interrupt, an idle cycle and an instruction are as one move.
pub const MOVED_DMA: i32 = 21;

pub const MOVED_INTERRUPT: i32 = 22;

pub const MOVED_IDLE: i32 = 23;

pub const MOVED_INSTRUCTION: i32 = 24;
