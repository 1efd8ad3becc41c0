//! The line of summary of a run.

ghost use Rattle.std.specs.Prelude.{◌≡◌, ◌+◌, ◌*◌, ◌/◌, ◌≤◌, length, if◌then◌else◌};
ghost use Rattle.std.specs.List.{range_with_len};
ghost use Rattle.vip_relation.specs.State.{screen_size};
ghost use Rattle.vip_text.specs.Screens.{pixels_of};
ghost use Rattle.vip_show.specs.Answers.{IsFresh, ShowAnswers, run_summary};
ghost use Rattle.vip_show.specs.Output.{lit_in_row, lit_in_rows};
ghost use Rattle.vip_show.specs.Run.{lit_told};

use crate::run::{Shown, put_events};
use vip_byte::Buffer;
use vip_outside::{Failed, Sink};
use vip_relation::Run;
use vip_text::{Limit, ROW_SIZE, RunEnd, WIDTH, is_lit, summary_text};

/// How much a pixel adds to a count of lit ones.
fn count_of(lit: bool) -> u64
    ensures value { result ≡ (if lit then 1 else 0) }
    ensures few { result ≤ 1 }
{
    if lit { 1 } else { 0 }
}

/// How many pixels of row y of a screen are lit.
fn lit_in_row(rows: &[u8], y: usize) -> u64
    requires { 8 * y + 8 ≤ length rows.now }
    ensures value { result ≡ lit_in_row (pixels_of rows.now) y }
    ensures few { result ≤ 64 }
{
    let mut lit = 0u64;
    for x in 0..WIDTH {
        lit += count_of(is_lit(rows, x, y));
    }
    lit
}

/// How many pixels of a screen are lit.
fn lit_pixels(rows: &[u8]) -> u64
    requires { length rows.now ≤ 512 }
    ensures { result ≡ lit_in_rows (pixels_of rows.now) (range_with_len 0 (length rows.now / 8)) }
{
    let mut lit = 0u64;
    for y in 0..rows.len() / ROW_SIZE {
        lit += lit_in_row(rows, y);
    }
    lit
}

/// The lit pixels of the screen at the last dispatch point met, or 0 where none was met.
fn lit(run: &Run, screen: &[u8]) -> u64
    requires bytes { screen.now ≡ run.now.shown }
    requires size { length screen.now ≡ screen_size run.now.edition }
    ensures { result ≡ lit_told run.now }
{
    let Some(_) = run.last_pc() else {
        return 0;
    };
    lit_pixels(screen)
}

/// Runs a machine that begins, and puts a line that sums its run up as that of the demonstration game of a number, as one piece: how many
/// dispatch points and finished pictures it had, and how many pixels are lit at the last dispatch point.
pub fn show_summary<O: Sink>(
    run: &mut Run,
    limit: Limit,
    number: u32,
    out: &mut O,
) -> Result<RunEnd, Failed>
    requires fresh { IsFresh run.old }
    ensures { ShowAnswers run.old limit (run_summary number run.old limit) (O.meaning out.old) (O.meaning out.new) result }
{
    let tally = put_events(run, limit, Shown::Nothing, true, out)?;
    let mut text = Buffer::new();
    summary_text(
        number,
        tally.dispatches,
        tally.pictures,
        lit(run, tally.screen.as_slice()),
        &mut text,
    );
    out.put(text.as_slice())?;
    Ok(tally.end)
}
