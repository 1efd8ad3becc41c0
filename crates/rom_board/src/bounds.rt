//! The least bounds, a law that is the contract of a function without parameters.

ghost use Rattle.rom_board.specs.LeastBounds.{LeastBounds};

/// For each line that `bounds` prints the least number of machine cycles that holds, by the language's time alone, in both editions. The first dispatch
/// point is in cycle 56 (`boot`). Every dispatch point of a run, from reset or from any machine that may start, is in an even cycle, and its variables
/// are bytes (`points`, `points_behind`). Behind any such cycle and state the next point or the stop comes at most 6,384 cycles later (tall 7,152) for 00E0,
/// 10,406 for DXYN, 2,136 for FX33, 2,232 for FX55, 2,254 for FX65, 2,078 for a stop and 1,992 for every other instruction (`holds`); and for each of
/// them the run of a game takes exactly so many (`taken`). FX0A has ended before all keys have been up in 1,857 successive cycles, behind 2,172 in which
/// a key was down since it began (`key`): a game's run ends it in the last of the former, and one waits on where the key is down in 2,171 alone
/// (`key_taken`, `key_missed`).
pub fn least_bounds()
    ensures { LeastBounds }
{}
