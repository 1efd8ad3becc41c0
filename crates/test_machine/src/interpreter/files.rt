//! Machine states in files, made by random numbers: each accepted one goes on as the language says.

use crate::interpreter::edition::{EDITIONS, GAME, Places};
use crate::interpreter::follower::Follower;
use crate::interpreter::numbers::Numbers;
use crate::interpreter::watch::{FRAME, INTERRUPT, WINDOW_END};
use chip8_image::{ENTRY, TALL_ENTRY};
use chip8_lang::Edition;
use std::alloc::Global;
use vip_keypad::Script;
use vip_relation::{Met, Run};
use vip_text::Limit;

/// How many files are made.
const FILES: u32 = 500;

/// The bytes of a file, of which the last are those of RAM.
const FILE: usize = 51 + 0x1000;

/// The limit up to which each goes on, in machine cycles.
const LIMIT: u64 = 200_000;

/// What was seen of the files.
#[derive(Clone, Copy)]
pub struct Seen {
    pub files: u64,
    pub refused: u64,
    pub steps: u64,
    pub stops: u64,
    /// Steps and stops that aren't those of the language.
    pub wrong: u64,
}

impl Seen {
    /// Counts a step or a stop that isn't that of the language.
    fn judge(&mut self, right: bool) {
        if !right {
            self.wrong = self.wrong.saturating_add(1);
        }
    }
}

impl Numbers {
    /// A cycle in which main code runs.
    fn cycle(&mut self) -> u64 {
        let frame = u64::from(self.next() % 20);
        let place = u64::from(self.next() % 924) * 2;
        let place = if place < INTERRUPT {
            place
        } else {
            place - INTERRUPT + WINDOW_END
        };
        (frame * FRAME + place).min(LIMIT)
    }

    /// What a register holds at a dispatch point.
    fn register(&mut self, number: u8, edition: Edition) -> u16 {
        let places = Places::of(edition);
        let (entry, top) = match edition {
            Edition::Usual => (ENTRY, 0x0ECF),
            Edition::Tall => (TALL_ENTRY, 0x0DCF),
        };
        match number {
            1 => entry,
            2 => top - self.next() % 13 * 2,
            4 => places.fetch,
            5 => GAME + self.next() % 0xB80 / 2 * 2,
            0xB => u16::from(places.screen_page) * 256 + self.next() % 256,
            _ => self.next(),
        }
    }

    /// The bytes of D, T, X and P, Q and DF, and the latched key.
    fn flags(&mut self) -> [u8; 5] {
        [
            self.byte(),
            self.byte(),
            self.byte() / 16 * 16 + 4,
            self.byte() % 4,
            self.byte() % 16,
        ]
    }

    /// Two bytes of RAM, in a game of one of four kinds.
    fn word(&mut self, kind: u16, address: u16, places: &Places) -> u16 {
        match kind {
            _ if address < GAME || address >= places.game_end => self.next(),
            0 => self.next(),
            1 => self.opcode(false),
            _ if address >= places.game_end.saturating_sub(4) => 0x1000 + GAME,
            _ => self.opcode(true),
        }
    }

    /// A file that is accepted.
    fn file(&mut self, edition: Edition) -> File {
        let mut file = File {
            bytes: [0; FILE],
            count: 0,
        };
        file.push(b"VIPS\x01");
        file.push(&[u8::from(edition == Edition::Tall)]);
        file.push(&self.cycle().to_be_bytes());
        for register in 0..16u8 {
            file.push(&self.register(register, edition).to_be_bytes());
        }
        file.push(&self.flags());
        self.push_ram(&mut file, &Places::of(edition));
        file
    }

    /// Puts the bytes of RAM behind others.
    fn push_ram(&mut self, file: &mut File, places: &Places) {
        let kind = self.next() % 4;
        for place in 0..0x800u16 {
            file.push(&self.word(kind, 2 * place, places).to_be_bytes());
        }
    }
}

/// The bytes of a file so far.
#[derive(Clone, Copy)]
struct File {
    bytes: [u8; FILE],
    count: usize,
}

impl File {
    /// Puts bytes behind the others.
    fn push(&mut self, bytes: &[u8]) {
        for byte in bytes.iter() {
            if let Some(place) = self.bytes.get_mut(self.count) {
                *place = *byte;
                self.count = self.count.saturating_add(1);
            }
        }
    }
}

/// Makes random files, and goes on from each.
pub fn run_files(alloc: Global) -> Seen {
    let keys = Script::empty(alloc);
    let mut numbers = Numbers::new(1);
    let mut seen = Seen {
        files: 0,
        refused: 0,
        steps: 0,
        stops: 0,
        wrong: 0,
    };
    for number in 0..FILES {
        let edition = EDITIONS[usize::from(number % 2 == 1)];
        let file = numbers.file(edition);
        seen.files = seen.files.saturating_add(1);
        match Run::resume(alloc, &file.bytes, &keys) {
            Ok(mut run) => go_on(&mut run, &mut seen),
            Err(_) => seen.refused = seen.refused.saturating_add(1),
        }
    }
    seen
}

/// Goes on from a file up to the limit, and compares each point with the step of the one before it.
fn go_on(run: &mut Run, seen: &mut Seen) {
    let mut follower = Follower::at(run.board(), run.edition(), None);
    for _ in 0..LIMIT {
        match run.advance(Limit::up_to(LIMIT)) {
            Met::Dispatch => {
                seen.steps = seen.steps.saturating_add(1);
                seen.judge(follower.leads_to(run.board()));
            }
            Met::Picture => {}
            Met::Stopped(record) => {
                seen.stops = seen.stops.saturating_add(1);
                let right = follower.opcode(record.pc) == record.opcode;
                seen.judge(right && follower.stops(run.board(), record.stop));
                return;
            }
            Met::End => return,
        }
    }
}
