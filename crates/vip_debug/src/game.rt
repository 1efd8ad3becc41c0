//! A machine that runs a game, as what the commands run that speak of the machine alone.

ghost use Rattle.std.specs.Prelude.{◌≡◌, ◌≤◌, None, true};
ghost use Rattle.vip_relation.specs.Follows.{Follows};
ghost use Rattle.vip_debug.specs.Commands.{came};
ghost use Rattle.vip_debug.specs.BoardParts.{Arrives, HasMoved, IsShown};
ghost use Rattle.vip_relation.specs.State.{interpreter};
ghost use Rattle.chip8_lang.specs.Events.{is_stop};
ghost use Rattle.vip_debug.specs.Game.{Leads, run_at};
ghost use Rattle.vip_debug.specs.GameLaws.{GameLeads, leads-on};

use crate::moves::{Change, go};
use crate::target::Target;
use vip_board::{Board, Moved, Stops};
use vip_relation::Vip;
use vip_text::Limit;
use vip_words::Running;

/// A machine that runs a game. Its run ends at the stop point.
#[derive(Drop)]
pub struct Game<'a> {
    pub vip: &'a mut Vip,
}

impl Target for Game<'_> {
    ghost seen = { λ game. game.vip.now.board };

    ghost ends = { λ game. is_stop (interpreter game.vip.now) };

    ghost leads = { GameLeads };

    ghost leads_on = { leads-on };

    fn board(&self) -> &Board {
        self.vip.board()
    }

    fn one_move(&mut self, limit: Limit) -> Moved {
        self.vip.one_move(limit)
    }

    fn move_on<S: Stops>(&mut self, limit: Limit, stops: S) -> u64 {
        self.vip.move_on(limit, stops)
    }
}

/// Runs the board of a game as a command says, up to the limit and the stop point. Answers whether the command is completed; what shows it then
/// besides the board is in `change`.
pub fn run_game(vip: &mut Vip, running: Running, limit: Limit, change: &mut Change) -> bool
    requires follows { Follows vip.old }
    requires within { vip.old.board.machine.cycle ≤ limit }
    ensures comes { let r = run_at vip.old vip.old.moves in Arrives limit r (came r limit running) vip.new.board result }
    ensures moved { HasMoved Leads (came (run_at vip.old vip.old.moves) limit running).moves vip.old vip.new }
    ensures shown { let r = run_at vip.old vip.old.moves in result ≡ true → IsShown None running r (came r limit running).moves change.new }
{
    let mut game = Game { vip };
    go(&mut game, running, limit, None, change)
}
