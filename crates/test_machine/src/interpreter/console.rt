//! A board with the interpreter's ROM and a game, move by move.

ghost use Rattle.std.specs.Prelude.{◌≡◌};
ghost use Rattle.vip_cpu.specs.declared.cpu.Phase.TheVariants.{Boundary};

use crate::interpreter::edition::{GAME, MOST_SCREEN, Places, copy_pages};
use chip8_image::{IMAGE, TALL};
use chip8_lang::Edition;
use std::alloc::{AllocError, Global};
use vip_board::{Board, Moved};
use vip_keypad::Script;
use vip_video::Picture;

/// The most bytes of a game, and of RAM from its first address on.
const MOST_GAME: usize = 3_232;

/// What the next move is for the interpreter.
#[derive(Clone, Copy)]
pub enum Next {
    /// A DMA cycle, an interrupt cycle or an idle cycle.
    Signal,
    /// An instruction of the interrupt routine.
    Routine,
    /// The first instruction of the fetch: the board is at a dispatch point.
    Dispatch,
    /// The instruction of the halt: the board is at a stop point.
    Stop,
    /// Another instruction of main code, at this address with this P.
    Main(u16, u8),
}

/// The ROM of an edition.
pub fn rom_of(edition: Edition) -> &'static [u8; 2048] {
    match edition {
        Edition::Usual => &IMAGE,
        Edition::Tall => &TALL,
    }
}

/// A board that runs a game.
#[derive(Drop)]
pub struct Console {
    board: Board,
    places: Places,
    ghost at_boundary: { board.phase ≡ Boundary },
}

impl Console {
    /// A board after reset with an edition's ROM. Of a game that is too long the rest is left out.
    pub fn start(
        alloc: Global,
        edition: Edition,
        game: &[u8],
        keys: &Script,
    ) -> Result<Console, AllocError> {
        Console::with_rom(alloc, edition, rom_of(edition), game, keys)
    }

    /// The same with another ROM, whose labels are those of the edition's.
    pub fn with_rom(
        alloc: Global,
        edition: Edition,
        rom: &[u8; 2048],
        game: &[u8],
        keys: &Script,
    ) -> Result<Console, AllocError> {
        let mut board = Board::reset(alloc, rom, keys)?;
        board.load(GAME, &game[..game.len().min(MOST_GAME)]);
        Ok(Console {
            board,
            places: Places::of(edition),
        })
    }

    pub fn board(&self) -> &Board {
        &self.board
    }

    pub fn places(&self) -> &Places {
        &self.places
    }

    /// The number of machine cycles since reset.
    pub fn now(&self) -> u64 {
        self.board.now()
    }

    /// Makes the next move, unless it would end after a cycle.
    pub fn step(&mut self, limit: u64) -> Moved {
        self.board.to_boundary(limit)
    }

    /// What the next move is.
    pub fn next(&self) -> Next {
        if !self.board.next_is_instruction() {
            return Next::Signal;
        }
        let cpu = self.board.cpu();
        let p = cpu.p();
        let address = cpu.r(p);
        match p {
            1 => Next::Routine,
            3 if address == self.places.halt => Next::Stop,
            4 if address == self.places.fetch => Next::Dispatch,
            _ => Next::Main(address, p),
        }
    }

    /// The next instruction stores a byte in the screen: it is STR N or STXD, and its register points there.
    pub fn writes_screen(&self) -> bool {
        let cpu = self.board.cpu();
        let address = match self.board.memory().read(cpu.r(cpu.p())) {
            opcode @ 0x50..=0x5F => cpu.r(opcode % 16),
            0x73 => cpu.r(cpu.x()),
            _ => return false,
        };
        (self.places.screen_page..=0x0F).contains(&((address / 256) as u8))
    }

    /// The processor waits for an interrupt.
    pub fn waits(&self) -> bool {
        self.board.cpu().idle()
    }

    /// How many pictures are finished, and the last one.
    pub fn pictures(&self) -> (u64, Option<&Picture>) {
        let video = self.board.video();
        (video.count(), video.finished())
    }

    /// The bytes of the screen, and 00 behind them where it is smaller than the greatest.
    pub fn screen(&self) -> [u8; MOST_SCREEN] {
        let mut bytes = [0; MOST_SCREEN];
        copy_pages(self.board.memory(), self.places.screen_page, &mut bytes);
        bytes
    }

    /// The byte of memory at an address.
    pub fn byte(&self, address: u16) -> u8 {
        self.board.memory().read(address)
    }

    /// The opcode at a dispatch point, where both its bytes lie in game memory.
    pub fn opcode(&self) -> Option<u16> {
        let pc = self.board.cpu().r(5);
        if pc < GAME || pc >= self.places.game_end.saturating_sub(1) {
            return None;
        }
        let memory = self.board.memory();
        Some(u16::from_be_bytes([memory.read(pc), memory.read(pc.wrapping_add(1))]))
    }
}
