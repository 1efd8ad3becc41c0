//! The board with which a program starts, or goes on.

ghost use Rattle.std.specs.Prelude.{◌≡◌, ◌≤◌, ◌++◌, [], drop, length, IfOk};
ghost use Rattle.vip_board.specs.Shown.{HasPictures};
ghost use Rattle.vip_text.specs.ProgramFile.{IsProgram};
ghost use Rattle.vip_program.specs.Program.{padded, ram_size, resumed, rom_size, started};

use std::alloc::{AllocError, Global};
use vip_board::{Board, Switches};
use vip_keypad::Script;
use vip_text::program_file::{DISPLAY, IDLE, INTERRUPTS, LATCH, is_on, part, ram, rom};
use vip_text::state_file::{KEY, cycle, parts};

/// The bytes of the ROM.
const ROM_SIZE: usize = 0x800;

/// The memory in which a program starts.
#[derive(Clone, Copy)]
pub enum Memory {
    /// In ROM, at address 8000.
    Rom,
    /// In RAM, at address 0000.
    Ram,
}

/// Puts bytes at the head of others.
fn put_first(into: &mut [u8], bytes: &[u8])
    requires { length bytes.now ≤ length into.old }
    ensures { into.new ≡ bytes.now ++ drop (length bytes.now) into.old }
{
    into[..bytes.len()].copy_from_slice(bytes);
}

/// The bytes of a ROM that begins with these, and is 00 behind them.
fn rom_of(bytes: &[u8]) -> [u8; ROM_SIZE]
    requires { length bytes.now ≤ rom_size }
    ensures { result ≡ padded rom_size bytes.now }
{
    let mut rom = [0; ROM_SIZE];
    put_first(&mut rom, bytes);
    rom
}

/// A board that begins to run a program under a key script, with no move made: at most 2,048 bytes from 8000 on in the ROM, at most 4,096 from 0000 on in the
/// RAM, and 00 behind each. A program that starts in ROM finds the board as after reset; for one that starts in RAM the boot latch is clear, so that it starts
/// at 0000.
pub fn start_program(
    alloc: Global,
    memory: Memory,
    rom: &[u8],
    ram: &[u8],
    script: &Script,
) -> Result<Board, AllocError>
    requires rom { length rom.now ≤ rom_size }
    requires ram { length ram.now ≤ ram_size }
    ensures board { IfOk result (λ b. b ≡ started memory rom.now ram.now script.now) }
    ensures pictures { IfOk result (λ b. HasPictures b.rom [] b.machine.cycle b.pictures) }
{
    let mut board = Board::reset(alloc, &rom_of(rom), script)?;
    board.load(0, ram);
    match memory {
        Memory::Rom => {}
        Memory::Ram => board.clear_latch(),
    }
    Ok(board)
}

/// A board that goes on in the machine of an accepted file, under a key script, with no move made.
pub fn resume_program(alloc: Global, file: &[u8], script: &Script) -> Result<Board, AllocError>
    requires { IsProgram file.now }
    ensures { IfOk result (λ b. b ≡ resumed file.now script.now) }
{
    let part = part(file);
    let switches = Switches {
        latch: is_on(file, LATCH),
        display: is_on(file, DISPLAY),
        interrupts: is_on(file, INTERRUPTS),
        idle: is_on(file, IDLE),
    };
    let board = Board::stand(
        alloc,
        rom(file),
        script,
        &parts(part),
        ram(file),
        part[KEY],
        cycle(part),
        switches,
    )?;
    Ok(board)
}
