//! What the commands make moves of.

ghost use Rattle.std.specs.Prelude.{◌≡◌, ◌+◌, ◌<◌, ◌≤◌, ◌↔◌, ℕ, Bool};
ghost use Rattle.machine.specs.Board.{Machine};
ghost use Rattle.vip_board.specs.Moves.{IfDone, moved};
ghost use Rattle.vip_board.specs.Seen.{Seen};
ghost use Rattle.vip_cpu.specs.declared.cpu.Phase.{Phase};
ghost use Rattle.vip_debug.specs.TargetRun.{Makes, Rests};

use vip_board::{Board, Moved, Stops};
use vip_text::Limit;

/// A board that goes along a run, move by move, up to an end of the run.
pub trait Target {
    // the board, and the states at which its run ends
    ghost seen: { Self → Seen };

    ghost ends: { Self → Machine → Bool };

    // so many moves lead from the first to the second, and what it keeps beside the board has come along
    ghost leads: { ℕ → Self → Self → Type 0 };

    /// The board.
    fn board(&self) -> &Board
        ensures { result.now ≡ seen self.now };

    /// Makes the next move and names it. `End` comes exactly where the run has ended or the move would end after cycle `limit`, and changes
    /// nothing.
    fn one_move(&mut self, limit: Limit) -> Moved
        requires boundary { (seen self.old).phase ≡ Phase.Boundary }
        ensures end { (result ≡ Moved.End) ↔ Rests (ends self.old) limit (seen self.old) }
        ensures kept { result ≡ Moved.End → self.new ≡ self.old }
        ensures moved { IfDone result (λ _. (seen self.new ≡ moved (seen self.old)) × (ends self.new ≡ ends self.old) × leads 1 self.old self.new) };

    /// Makes some of the next moves: none behind which one of `stops` comes next, at which the run ends, or which ends after cycle `limit`, but for
    /// the last one, which ends by then too. Answers how many. None comes exactly where the run has ended or the next move would end after
    /// `limit`, and changes nothing.
    fn move_on<S: Stops>(&mut self, limit: Limit, stops: S) -> u64
        requires boundary { (seen self.old).phase ≡ Phase.Boundary }
        ensures end { (result ≡ 0) ↔ Rests (ends self.old) limit (seen self.old) }
        ensures kept { result ≡ 0 → self.new ≡ self.old }
        ensures moved { 0 < result → Makes (S.stands stops) (ends self.old) limit (seen self.old) (seen self.new) result × (ends self.new ≡ ends self.old) × leads result self.old self.new };

    ghost leads_on: { (j k : ℕ) (a b c : Self) → leads j a b → leads k b c → leads (j + k) a c };
}
