//! Interpreters that are wrong on purpose: an edition's ROM with other bytes at some addresses, and a game that shows it.

use crate::changes::change;
use crate::interpreter::console::{Console, Next, rom_of};
use crate::interpreter::follower::{Follower, LetGo};
use crate::interpreter::game::Game;
use crate::interpreter::watch::Watch;
use crate::keys::script_of;
use chip8_lang::Edition;
use std::alloc::Global;
use vip_relation::stop_of;

/// The cycles of a run, 250 frames.
const CYCLES: u64 = 917_000;

/// Key 5 is down in the first half of a run.
const KEYS: &str = "0 down 5\n458500 up 5\n";

const LET_GO: LetGo = LetGo {
    key: 5,
    cycle: 458_500,
};

/// What came of a run.
#[derive(Clone, Copy)]
pub struct Came {
    /// Dispatch points and stops to which the language doesn't lead from the one before.
    pub wrong: u64,
    /// The cycles behind the last dispatch point.
    pub behind: u64,
}

/// The interpreter of a line of `data/wrong.txt`.
#[derive(Clone, Copy)]
pub struct Wrong<'a> {
    pub name: &'a str,
    rom: [u8; 2048],
    game: Game,
}

impl<'a> Wrong<'a> {
    /// That of a line, in an edition.
    pub fn read(edition: Edition, line: &'a str) -> Option<Wrong<'a>> {
        let (name, rest) = line.split_once('|')?;
        let (changes, opcodes) = rest.split_once('|')?;
        let mut wrong = Wrong {
            name: name.trim_end(),
            rom: *rom_of(edition),
            game: Game::NONE,
        };
        change(&mut wrong.rom, changes)?;
        wrong.game.push_words(opcodes)?;
        Some(wrong)
    }

    /// Runs its game.
    pub fn run(&self, alloc: Global, edition: Edition, watch: &mut Watch) -> anyhow::Result<Came> {
        let keys = script_of(alloc, KEYS)?;
        let game = self.game.bytes();
        let mut console = Console::with_rom(alloc, edition, &self.rom, game, &keys)?;
        Ok(follow(&mut console, edition, watch))
    }
}

/// Runs a board that was just reset, with the language beside it from its first dispatch point on.
fn follow(console: &mut Console, edition: Edition, watch: &mut Watch) -> Came {
    let mut wrong = 0_u64;
    let mut follower = Follower::at(console.board(), edition, Some(LET_GO));
    let mut dispatched = false;
    watch.begin(console);
    for _ in 0..=CYCLES {
        let right = match console.next() {
            Next::Dispatch if dispatched => follower.leads_to(console.board()),
            Next::Dispatch => {
                follower = Follower::at(console.board(), edition, Some(LET_GO));
                dispatched = true;
                true
            }
            Next::Stop => follower.stops(console.board(), stop_of(console.board())),
            _ => true,
        };
        wrong = wrong.saturating_add(u64::from(!right));
        if !watch.go_on(console, CYCLES) {
            break;
        }
    }
    watch.end(console);
    let behind = console.now().saturating_sub(watch.since());
    Came { wrong, behind }
}
