//! What is saved of a run: the file of the state at its last dispatch point.

ghost use Rattle.std.specs.Prelude.{◌≡◌, [], unwrap_or};
ghost use Rattle.vip_relation.specs.State.{events_to, first_events};
ghost use Rattle.vip_show.specs.Answers.{IsFresh};
ghost use Rattle.vip_show.specs.Endings.{ending_of};
ghost use Rattle.vip_show.specs.StateOutput.{KeepsFile, SavedAnswers, saved_file};

use crate::writing::write_run;
use vip_byte::Buffer;
use vip_outside::{Failed, Sink};
use vip_relation::{Met, Run};
use vip_text::{Limit, RunEnd};

/// Writes the file of the dispatch point at which a run from a saved state begins into an empty buffer, and of a run from a reset nothing.
fn keep_first(run: &Run, file: &mut Buffer)
    requires fresh { IsFresh run.now }
    requires empty { file.old.items ≡ [] }
    ensures { file.new.items ≡ unwrap_or (saved_file run.now.edition (first_events run.now.start)) [] }
{
    if let Some(_) = run.last_pc() {
        write_run(run, file);
    }
}

/// Runs a machine that begins up to its limit or its stop point. An empty buffer then has the file of the state at the last dispatch point, and is
/// empty where there was none.
fn keep_last(run: &mut Run, limit: Limit, file: &mut Buffer) -> RunEnd
    requires fresh { IsFresh run.old }
    requires empty { file.old.items ≡ [] }
    ensures { KeepsFile run.old limit run.new file.new.items result }
{
    keep_first(run, file);
    loop {
        match run.advance(limit) {
            Met::Dispatch => {
                file.clear();
                write_run(run, file);
            }
            Met::Picture => {}
            Met::Stopped(stop) => return RunEnd::AtStop(stop),
            Met::End => return RunEnd::AtLimit,
        }
    }
}

/// Runs a machine that begins, and puts the file of the state at its last dispatch point, as one piece: for a run from a saved state where no point
/// comes behind it, that of the saved one. None comes exactly where there is no dispatch point, as only in a run from a reset; nothing is put then. A
/// put that fails ends it.
pub fn show_saved<O: Sink>(
    run: &mut Run,
    limit: Limit,
    out: &mut O,
) -> Result<Option<RunEnd>, Failed>
    requires fresh { IsFresh run.old }
    ensures { SavedAnswers (saved_file run.old.edition (events_to run.old limit)) (ending_of run.old.edition (events_to run.old limit)) (O.meaning out.old) (O.meaning out.new) result }
{
    let mut file = Buffer::new();
    let end = keep_last(run, limit, &mut file);
    let Some(_) = run.last_pc() else {
        return Ok(None);
    };
    out.put(file.as_slice())?;
    Ok(Some(end))
}
