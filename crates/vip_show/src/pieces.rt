//! The output of a trace and of pictures.

ghost use Rattle.std.specs.Prelude.{◌≡◌, length};
ghost use Rattle.std.specs.Option.{option_map};
ghost use Rattle.chip8_lang.specs.Editions.{rows_of};
ghost use Rattle.chip8_lang.specs.Places.{pixels};
ghost use Rattle.vip_relation.specs.State.{screen_size};
ghost use Rattle.vip_text.specs.Screens.{screen_lines};
ghost use Rattle.vip_show.specs.Answers.{IsFresh, ShowAnswers, run_trace, run_pictures};
ghost use Rattle.vip_show.specs.Run.{PieceAnswers, screen_told};

use crate::run::{Shown, put_events};
use asm_core::Origins;
use vip_byte::Buffer;
use vip_outside::{Failed, Sink};
use vip_relation::Run;
use vip_text::{Limit, RunEnd, TraceColumns, screen_text};

/// Puts the screen at the last dispatch point, as one piece, or nothing where there was none.
fn put_screen<O: Sink>(run: &Run, screen: &[u8], out: &mut O) -> Result<(), Failed>
    requires bytes { screen.now ≡ run.now.shown }
    requires size { length screen.now ≡ screen_size run.now.edition }
    ensures { PieceAnswers (screen_told run.now) (O.meaning out.old) (O.meaning out.new) result }
{
    let Some(_) = run.last_pc() else {
        return Ok(());
    };
    let mut text = Buffer::new();
    screen_text(screen, &mut text);
    out.put(text.as_slice())
}

/// Runs a machine that begins, and puts the line of each dispatch point, with these columns and the source's line that gave it, where it is told, and at the
/// end the screen where they ask for it, each as one piece. A put that fails ends it.
pub fn show_trace<O: Sink>(
    run: &mut Run,
    limit: Limit,
    columns: TraceColumns,
    origins: &Origins,
    out: &mut O,
) -> Result<RunEnd, Failed>
    requires fresh { IsFresh run.old }
    ensures { ShowAnswers run.old limit (run_trace origins.now columns run.old limit) (O.meaning out.old) (O.meaning out.new) result }
{
    let tally = put_events(
        run,
        limit,
        Shown::Lines(columns, origins),
        columns.screen,
        out,
    )?;
    if columns.screen {
        put_screen(run, tally.screen.as_slice(), out)?;
    }
    Ok(tally.end)
}

/// Runs a machine that begins, and puts each finished picture, each as one piece. A put that fails ends it.
pub fn show_pictures<O: Sink>(run: &mut Run, limit: Limit, out: &mut O) -> Result<RunEnd, Failed>
    requires fresh { IsFresh run.old }
    ensures { ShowAnswers run.old limit (run_pictures run.old limit) (O.meaning out.old) (O.meaning out.new) result }
{
    Ok(put_events(run, limit, Shown::Pictures, false, out)?.end)
}
