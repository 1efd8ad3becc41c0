//! A run from event to event.

ghost use Rattle.std.specs.Prelude.{◌≡◌, IfOk, IsTrue, length};
ghost use Rattle.std.specs.Option.{option_map};
ghost use Rattle.chip8_lang.specs.View.{view_at};
ghost use Rattle.vip_outside.specs.Sink.{PutAnswers};
ghost use Rattle.vip_relation.specs.State.{screen_bytes, screen_size};
ghost use Rattle.vip_text.specs.Screens.{picture_file};
ghost use Rattle.vip_text.specs.Traces.{told_line};
ghost use Rattle.vip_show.specs.Answers.{IsFresh};
ghost use Rattle.vip_show.specs.Run.{PieceAnswers, event_piece, told_of, RunAnswers};

use asm_core::Origins;
use vip_byte::Buffer;
use vip_outside::{Failed, Sink};
use vip_relation::{Met, Run, Screen, dark};
use vip_text::{Limit, RunEnd, TraceColumns, picture_text, told_text};

/// What is written of each event.
#[derive(Clone, Copy)]
pub enum Shown<'a> {
    /// A line for each dispatch point, with these columns, and the source's line that gave the opcode, where it is told.
    Lines(TraceColumns, &'a Origins),
    /// A file for each picture.
    Pictures,
    Nothing,
}

/// How a run ended, how many dispatch points and pictures it had, and, where it was asked for, the screen at the last dispatch point.
#[derive(Drop)]
pub struct Tally {
    pub end: RunEnd,
    pub dispatches: u64,
    pub pictures: u64,
    pub screen: Screen,
}

/// Puts the line of the dispatch point where the board stands. It is written over what `text` has.
fn put_line<O: Sink>(
    run: &Run,
    columns: TraceColumns,
    origins: &Origins,
    text: &mut Buffer,
    out: &mut O,
) -> Result<(), Failed>
    ensures { PutAnswers (told_line origins.now columns (view_at run.now.edition run.now.board.machine)) (O.meaning out.old) (O.meaning out.new) result }
{
    text.clear();
    told_text(&run.view(), columns, origins, text);
    out.put(text.as_slice())
}

/// Puts the last picture that was finished, where there is one. It is written over what `text` has.
fn put_picture<O: Sink>(run: &Run, text: &mut Buffer, out: &mut O) -> Result<(), Failed>
    ensures { PieceAnswers (option_map picture_file run.now.board.pictures.finished) (O.meaning out.old) (O.meaning out.new) result }
{
    let Some(picture) = run.board().video().finished() else {
        return Ok(());
    };
    text.clear();
    picture_text(picture, text);
    out.put(text.as_slice())
}

/// Puts what is shown of an event that was just met. It is written over what `text` has.
fn put_event<O: Sink>(
    run: &Run,
    met: &Met,
    shown: Shown,
    text: &mut Buffer,
    out: &mut O,
) -> Result<(), Failed>
    ensures { PieceAnswers (event_piece (told_of shown.entry) met.now run.now) (O.meaning out.old) (O.meaning out.new) result }
{
    match (shown, met) {
        (Shown::Lines(columns, origins), Met::Dispatch) => put_line(
            run, columns, origins, text, out,
        ),
        (Shown::Pictures, Met::Picture) => put_picture(run, text, out),
        _ => Ok(()),
    }
}

/// Copies the screen at the dispatch point where the board stands, where it is asked for.
pub(crate) fn keep_screen(run: &Run, is_asked: bool, screen: &mut Screen)
    requires size { length screen.old.items ≡ screen_size run.now.edition }
    ensures screen { IsTrue is_asked → screen.new.items ≡ screen_bytes run.now.edition run.now.board.machine }
    ensures size { length screen.new.items ≡ screen_size run.now.edition }
{
    if is_asked {
        run.copy_screen(screen);
    }
}

/// The screen that is told of before any event is met: dark, or that of the dispatch point at which the run starts.
pub(crate) fn start_screen(run: &Run) -> Screen
    requires { IsFresh run.now }
    ensures screen { result.items ≡ run.now.shown }
    ensures size { length result.items ≡ screen_size run.now.edition }
{
    let mut screen = dark(run.edition());
    if let Some(_) = run.last_pc() {
        run.copy_screen(&mut screen);
    }
    screen
}

/// Runs a machine that begins up to its limit or its stop point, and puts what is shown of each event, each as one piece.
pub fn put_events<O: Sink>(
    run: &mut Run,
    limit: Limit,
    shown: Shown,
    keeps_screen: bool,
    out: &mut O,
) -> Result<Tally, Failed>
    requires fresh { IsFresh run.old }
    ensures answer { RunAnswers (told_of shown.entry) limit run.old run.new (O.meaning out.old) (O.meaning out.new) result }
    ensures screen { IsTrue keeps_screen → IfOk result (λ tally. tally.screen.items ≡ run.new.shown) }
    ensures size { IfOk result (λ tally. length tally.screen.items ≡ screen_size run.new.edition) }
{
    let mut dispatches = 0u64;
    let mut pictures = 0u64;
    let mut screen = start_screen(run);
    // one for all events, since a new one is filled with 00 each time
    let mut text = Buffer::new();
    loop {
        let met = run.advance(limit);
        match met {
            Met::Dispatch => {
                dispatches += 1;
                keep_screen(run, keeps_screen, &mut screen);
                put_event(run, &met, shown, &mut text, out)?;
            }
            Met::Picture => {
                pictures += 1;
                put_event(run, &met, shown, &mut text, out)?;
            }
            Met::Stopped(stop) => {
                return Ok(Tally {
                    end: RunEnd::AtStop(stop),
                    dispatches,
                    pictures,
                    screen,
                });
            }
            Met::End => {
                return Ok(Tally {
                    end: RunEnd::AtLimit,
                    dispatches,
                    pictures,
                    screen,
                });
            }
        }
    }
}
