//! What is proved of linked moves and of moves under two key scripts, each law the contract of a function without parameters.

ghost use Rattle.vip_board.specs.Alike.{MovesAlike};
ghost use Rattle.vip_board.specs.Alone.{AsAlone};

/// A machine that is joined to wires which nobody fills behaves as one alone: as long as both are empty, each linked move is the move of the
/// board. A call does nothing: the law is its contract.
pub fn as_alone()
    ensures { AsAlone }
{}

/// A board that moves under one key script moves alike under each other one that holds the same keys down from where the moves begin to
/// where they end; so it moves under a set of held keys as under each script that holds exactly these down. A call does nothing: the law is
/// its contract.
pub fn moves_alike()
    ensures { MovesAlike }
{}
