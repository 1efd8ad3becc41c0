//! What is proved of accepted files and of those that are written, each law the contract of a function without parameters.

ghost use Rattle.rom_board.specs.Saved.{SavedJoins, WritesTheSame};

/// What is saved of a run, from a reset or from a saved state, is an accepted file, which shows the machine state at the run's last dispatch point, in
/// some cycle. Under every script that holds the same keys before that cycle, up to every limit from it on, the run is that up to the cycle followed by
/// that from the file: all events, with the bytes of the pictures. It ends as that from the file does, and the file that is saved of it is the same.
pub fn saved_joins()
    ensures { SavedJoins }
{}

/// The state that an accepted file shows, saved again, gives the same bytes.
pub fn writes_the_same()
    ensures { WritesTheSame }
{}
