//! The line that sums up a run.

ghost use Rattle.std.specs.Prelude.{◌≡◌, []};
ghost use Rattle.vip_text.specs.Summaries.{summary_line};

use vip_byte::{Buffer, put, put_number};

/// Writes the summary of a demonstration game's run into an empty buffer: the number of the game, how many dispatch points and finished
/// pictures the run had, and how many pixels are lit at the last dispatch point.
pub fn summary_text(number: u32, dispatches: u64, pictures: u64, lit: u64, into: &mut Buffer)
    requires { into.old.items ≡ [] }
    ensures { into.new.items ≡ summary_line number dispatches pictures lit }
{
    put(into, b"demo ");
    put_number(into, u64::from(number));
    put(into, b" dispatches ");
    put_number(into, dispatches);
    put(into, b" pictures ");
    put_number(into, pictures);
    put(into, b" lit ");
    put_number(into, lit);
    put(into, b"\n");
}
