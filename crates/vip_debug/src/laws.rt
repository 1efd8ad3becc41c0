//! What is proved of commands, each law the contract of a function without parameters.

ghost use Rattle.vip_debug.specs.Behind.{GoesOnBehind};

/// Where a run comes to a dispatch point by a cycle, the answers of commands behind `to` that cycle, and the board that they leave, are those of the same
/// commands on a run that begins with a file of the machine there, under every script that holds the same keys down from there on.
pub fn goes_on_behind()
    ensures { GoesOnBehind }
{}
