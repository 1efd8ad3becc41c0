//! The digests of a run: SHA-256 (FIPS 180-4) of its trace and of its pictures, made while it runs.

ghost use Rattle.std.specs.Prelude.{◌≡◌, ◌++◌, ℕ, List, Some, length, unwrap_or, []};
ghost use Rattle.std.specs.Option.{option_map};
ghost use Rattle.chip8_lang.specs.View.{view_at};
ghost use Rattle.sha2.specs.Hashers.{Holds256};
ghost use Rattle.sha2.specs.Sha256.{sha256};
ghost use Rattle.vip_relation.specs.State.{screen_size};
ghost use Rattle.vip_text.specs.Screens.{picture_file};
ghost use Rattle.vip_text.specs.Traces.{trace_line};
ghost use Rattle.vip_show.specs.Answers.{IsFresh};
ghost use Rattle.vip_show.specs.Digests.{AddsPiece, IsDigested, digested_columns};
ghost use Rattle.vip_show.specs.Run.{screen_told};

use crate::run::{keep_screen, start_screen};
use sha2::{Digest, Sha256};
use vip_byte::Buffer;
use vip_relation::{Met, Run};
use vip_text::{Limit, RunEnd, TraceColumns, picture_text, screen_text, trace_text};

/// What is told of a run.
#[derive(Clone, Copy)]
pub struct Digests {
    /// The digest of its trace, with the tick and the cycle of each line and the screen behind the lines.
    pub trace: [u8; 32],
    /// The digest of its pictures.
    pub pictures: [u8; 32],
    /// How many dispatch points it had behind its start.
    pub points: u64,
    pub end: RunEnd,
}

/// What the trace shows of which the digest is told.
const COLUMNS: TraceColumns = TraceColumns {
    time: true,
    words: false,
    screen: true,
};

/// Adds the line of the dispatch point where the board stands. It is written over what `text` has.
fn add_line(run: &Run, text: &mut Buffer, trace: &mut Sha256)
    ensures { AddsPiece (Some (trace_line digested_columns (view_at run.now.edition run.now.board.machine))) trace.old trace.new }
{
    text.clear();
    trace_text(&run.view(), COLUMNS, text);
    trace.update(text.as_slice());
}

/// Adds the last picture that was finished, where there is one. It is written over what `text` has.
fn add_picture(run: &Run, text: &mut Buffer, pictures: &mut Sha256)
    ensures { AddsPiece (option_map picture_file run.now.board.pictures.finished) pictures.old pictures.new }
{
    if let Some(picture) = run.board().video().finished() {
        text.clear();
        picture_text(picture, text);
        pictures.update(text.as_slice());
    }
}

/// Adds the screen at the last dispatch point, or nothing where there was none.
fn add_screen(run: &Run, screen: &[u8], trace: &mut Sha256)
    requires bytes { screen.now ≡ run.now.shown }
    requires size { length screen.now ≡ screen_size run.now.edition }
    ensures { AddsPiece (screen_told run.now) trace.old trace.new }
{
    if let Some(_) = run.last_pc() {
        let mut text = Buffer::new();
        screen_text(screen, &mut text);
        trace.update(text.as_slice());
    }
}

/// The digest of a trace whose lines are added, with the screen at the last dispatch point behind them.
fn end_trace(run: &Run, screen: &[u8], mut trace: Sha256) -> [u8; 32]
    requires bytes { screen.now ≡ run.now.shown }
    requires size { length screen.now ≡ screen_size run.now.edition }
    ensures { (lines : List ℕ) → Holds256 trace lines → result ≡ sha256 (lines ++ unwrap_or (screen_told run.now) []) }
{
    add_screen(run, screen, &mut trace);
    trace.finalize()
}

/// Runs a machine that begins up to its limit or its stop point: the digests of what `show_trace` puts of it, with the tick and the cycle of each line and
/// the screen, and of what `show_pictures` puts, by one run for both. It keeps no text of the run, and takes no memory.
pub fn digest_run(run: &mut Run, limit: Limit) -> Digests
    requires fresh { IsFresh run.old }
    ensures { IsDigested run.old limit result }
{
    let mut trace = Sha256::new();
    let mut pictures = Sha256::new();
    let mut points = 0u64;
    let mut screen = start_screen(run);
    // one for all events, since a new one is filled with 00 each time
    let mut text = Buffer::new();
    loop {
        match run.advance(limit) {
            Met::Dispatch => {
                points += 1;
                keep_screen(run, true, &mut screen);
                add_line(run, &mut text, &mut trace);
            }
            Met::Picture => add_picture(run, &mut text, &mut pictures),
            Met::Stopped(stop) => {
                return Digests {
                    trace: end_trace(run, screen.as_slice(), trace),
                    pictures: pictures.finalize(),
                    points,
                    end: RunEnd::AtStop(stop),
                };
            }
            Met::End => {
                return Digests {
                    trace: end_trace(run, screen.as_slice(), trace),
                    pictures: pictures.finalize(),
                    points,
                    end: RunEnd::AtLimit,
                };
            }
        }
    }
}
