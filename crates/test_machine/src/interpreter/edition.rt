//! Where each edition's interpreter keeps its state (`docs/MACHINE.md`, "Places").

use chip8_image::{FETCH, HALT, TALL_FETCH, TALL_HALT};
use chip8_lang::Edition;
use vip_memory::Memory;

/// The first address of game memory.
pub const GAME: u16 = 0x0200;

/// The bytes of the greater screen.
pub const MOST_SCREEN: usize = 512;

/// The places of an edition.
#[derive(Clone, Copy)]
pub struct Places {
    /// The labels of its ROM.
    pub fetch: u16,
    pub halt: u16,
    /// The first address behind game memory.
    pub game_end: u16,
    /// The page of the screen's first byte; the screen ends at 0FFF.
    pub screen_page: u8,
    /// The rows of the screen.
    pub rows: usize,
}

impl Places {
    /// The places of an edition.
    pub fn of(edition: Edition) -> Places {
        match edition {
            Edition::Usual => Places {
                fetch: FETCH,
                halt: HALT,
                game_end: 0x0EA0,
                screen_page: 0x0F,
                rows: 32,
            },
            Edition::Tall => Places {
                fetch: TALL_FETCH,
                halt: TALL_HALT,
                game_end: 0x0DA0,
                screen_page: 0x0E,
                rows: 64,
            },
        }
    }
}

/// Both editions.
pub const EDITIONS: [Edition; 2] = [Edition::Usual, Edition::Tall];

/// The word for an edition.
pub fn name(edition: Edition) -> &'static str {
    match edition {
        Edition::Usual => "usual",
        Edition::Tall => "tall",
    }
}

/// Copies the pages of RAM from one on, as many as there is room for.
pub fn copy_pages(memory: &Memory, first: u8, into: &mut [u8]) {
    let mut number = first;
    for bytes in into.chunks_mut(256) {
        if let Some(page) = memory.page(number)
            && page.len() == bytes.len()
        {
            bytes.copy_from_slice(page);
        }
        number = number.saturating_add(1);
    }
}
