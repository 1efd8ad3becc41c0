//! What a certificate shows of its game, each law the contract of a function without parameters.

ghost use Rattle.game_check.specs.Laws.{EveryStep, CertifiedGames};

/// The step law: no stop fits a state that a line of an accepted certificate stands for and that has the game's bytes in the code; and after any
/// number of timer ticks, with any keys and whatever the random byte is, each state that may follow is such a state again.
pub fn every_step()
    ensures { EveryStep }
{}

/// So a game with an accepted certificate never stops: no stop fits any state of a run that begins in its first state.
pub fn certified_games()
    ensures { CertifiedGames }
{}
