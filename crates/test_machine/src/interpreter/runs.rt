//! The runs that are measured: random games, and each instruction at every place of the frame.

use crate::interpreter::console::Console;
use crate::interpreter::edition::{GAME, Places};
use crate::interpreter::game::{Game, demo};
use crate::interpreter::watch::Watch;
use crate::keys::script_of;
use chip8_lang::Edition;
use std::alloc::Global;
use vip_keypad::Script;

/// The key script under which instructions are measured.
const MEASURED_KEYS: &str = "0 down F\n30000 up F\n";

/// The cycles of a run that measures an instruction.
const MEASURED_CYCLES: u64 = 45_000;

/// The cycles of a run of a random game, 250 frames.
const DEMO_CYCLES: u64 = 917_000;

/// How many dispatch points the random games have at least.
const DEMO_DISPATCHES: u64 = 20_000;

/// How many loads take as long as main code runs between two interrupts, twice over.
const MOST_LOADS: usize = 44;

/// Up to so many loads, a sprite behind them is prepared before the first interrupt or during it.
const EARLY_LOADS: usize = 9;

/// How many additions, each four cycles longer than a load, take as much longer as two loads.
const MOST_ADDS: usize = 44;

/// Runs random games, each from reset on, until they have enough dispatch points.
pub fn run_demos(alloc: Global, edition: Edition, watch: &mut Watch) {
    let keys = Script::empty(alloc);
    let places = Places::of(edition);
    let opcodes = usize::from(places.game_end.saturating_sub(GAME) / 2);
    let enough = watch.dispatches.saturating_add(DEMO_DISPATCHES);
    for number in 0..1_000 {
        if watch.dispatches >= enough {
            break;
        }
        watch.run_game(alloc, edition, &demo(number, opcodes), &keys, DEMO_CYCLES);
    }
}

/// Runs each instruction of a table behind other instructions, so that the interrupt falls at each of its places. One that waits for the
/// display is run at every even cycle in which the first interrupt can come while it is prepared. False where a line has no instruction.
pub fn run_instructions(alloc: Global, edition: Edition, text: &str, watch: &mut Watch) -> bool {
    let Ok(keys) = script_of(alloc, MEASURED_KEYS) else {
        return false;
    };
    let mut all = true;
    for line in text.lines() {
        if !line.starts_with('#') {
            all = run_instruction(alloc, edition, line, &keys, watch) && all;
        }
    }
    all
}

/// Runs the instruction of a line of the table. False where it has none.
fn run_instruction(
    alloc: Global,
    edition: Edition,
    line: &str,
    keys: &Script,
    watch: &mut Watch,
) -> bool {
    let waits = line.contains("| D") || line.contains("| 00E0");
    for loads in 0..MOST_LOADS {
        let adds = if waits && loads < EARLY_LOADS {
            MOST_ADDS
        } else {
            1
        };
        for more in 0..adds {
            match measured_game(line, loads, more) {
                Some(game) => watch.run_game(alloc, edition, &game, keys, MEASURED_CYCLES),
                None => return false,
            }
        }
    }
    true
}

/// The game that measures an instruction: what prepares it, loads and additions, and its opcode.
fn measured_game(line: &str, loads: usize, adds: usize) -> Option<Game> {
    let (before, opcode) = line.split_once('|')?;
    let mut game = Game::NONE;
    game.push_words(before)?;
    game.push_times(loads, 0x6E00);
    game.push_times(adds, 0x7E00);
    game.push_words(opcode)?;
    Some(game)
}

impl Watch {
    /// Runs a game from reset on. Where there is no memory it isn't run, and isn't counted.
    fn run_game(
        &mut self,
        alloc: Global,
        edition: Edition,
        game: &Game,
        keys: &Script,
        limit: u64,
    ) {
        if let Ok(mut console) = Console::start(alloc, edition, game.bytes(), keys) {
            self.run(&mut console, limit);
        }
    }
}
