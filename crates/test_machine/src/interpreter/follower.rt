//! The language beside the run of a board, from one dispatch point to the next one, as `docs/LANGUAGE.md` has it.

use crate::interpreter::edition::Places;
use crate::interpreter::language::{Language, State};
use crate::interpreter::watch::{FRAME, INTERRUPT};
use chip8_lang::{Edition, Stop};
use vip_board::Board;
use vip_relation::view_of;

/// A key that is let go once, and the cycle from which on it is up.
#[derive(Clone, Copy)]
pub struct LetGo {
    pub key: u8,
    pub cycle: u64,
}

/// The language state at a dispatch point of a run.
#[derive(Drop)]
pub struct Follower {
    edition: Edition,
    language: Language,
    state: State,
    cycle: u64,
    let_go: Option<LetGo>,
}

/// How many interrupts come before a cycle.
fn interrupts_before(cycle: u64) -> u64 {
    cycle.saturating_add(FRAME - INTERRUPT - 1) / FRAME
}

impl Follower {
    /// That of the dispatch point at which a board is, where no other key than one is let go in the run.
    pub fn at(board: &Board, edition: Edition, let_go: Option<LetGo>) -> Follower {
        let view = view_of(board, edition);
        Follower {
            edition,
            language: Language::on(board, Places::of(edition)),
            state: State::of(&view),
            cycle: view.cycle,
            let_go,
        }
    }

    /// Goes on to the next dispatch point, at which the board is now. Answers whether a step leads there, with a tick for each interrupt; of a step that
    /// writes, also whether game memory and screen are as it leaves them. The next one is judged from there either way.
    pub fn leads_to(&mut self, board: &Board) -> bool {
        let view = view_of(board, self.edition);
        let to = State::of(&view);
        let ticks = to.n().wrapping_sub(self.state.n());
        let passed = interrupts_before(view.cycle).saturating_sub(interrupts_before(self.cycle));
        self.language.let_go = self.let_go_before(view.cycle);
        let leads = u64::from(ticks) == passed && self.language.leads(&self.state, &to, ticks);
        let writes = self.language.act(&self.state);
        let lies = !writes || self.language.is_on(board);
        if !lies {
            self.language = Language::on(board, Places::of(self.edition));
        }
        self.state = to;
        self.cycle = view.cycle;
        leads && lies
    }

    // The key that is let go between the dispatch point and a cycle.
    fn let_go_before(&self, cycle: u64) -> Option<u8> {
        match self.let_go {
            Some(up) if self.cycle < up.cycle && up.cycle < cycle => Some(up.key),
            _ => None,
        }
    }

    /// The opcode at an address, where both its bytes lie in game memory.
    pub fn opcode(&self, pc: u16) -> Option<u16> {
        self.language.opcode(pc)
    }

    /// Whether this is the stop of the state, with game memory and screen as they were.
    pub fn stops(&self, board: &Board, stop: Stop) -> bool {
        self.language.step(&self.state) == Err(stop) && self.language.is_on(board)
    }
}
