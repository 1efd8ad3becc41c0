//! The work of a run of the language, once it is ready, and of a verb that writes a text.

ghost use Rattle.std.specs.Prelude.{◌≡◌};
ghost use Rattle.vip_verbs.specs.Prepared.{IsReady, PerformAnswers, DebugEnds, outcome_of, run_ended, save_ended, shown_as, IsBeginning};
ghost use Rattle.vip_verbs.specs.declared.prepared.Prepared.TheVariants as ready;
ghost use Rattle.vip_verbs.specs.declared.prepared.ReadyShow.TheVariants as show;

use crate::prepared::ReadyShow;
use asm_listing::CheckText;
use vip_debug::{DebugEnd, Looks, run_commands};
use vip_outside::{Failed, Sink};
use vip_relation::{Run, Vip};
use vip_show::{show_pictures, show_profile, show_saved, show_summary, show_trace};
use vip_text::{Limit, RunEnd};
use vip_tools::{Ended, PerformFault};
use vip_words::Commands;

/// How a run up to a limit ended.
fn ran(limit: Limit, end: Result<RunEnd, Failed>) -> Result<Ended, PerformFault>
    ensures { result ≡ run_ended limit end }
{
    match end {
        Ok(end) => Ok(Ended::Ran(limit, end)),
        Err(Failed) => Err(PerformFault::WriteFault),
    }
}

/// How a run up to a limit ended that was saved. It is refused where it had no dispatch point.
fn end_of_saving(limit: Limit, end: Result<Option<RunEnd>, Failed>) -> Result<Ended, PerformFault>
    ensures { result ≡ save_ended limit end }
{
    match end {
        Ok(Some(end)) => Ok(Ended::Ran(limit, end)),
        Ok(None) => Err(PerformFault::NoDispatch),
        Err(Failed) => Err(PerformFault::WriteFault),
    }
}

/// How a run under the debugger ended.
fn end_of_commands(limit: Limit, end: DebugEnd) -> Result<Ended, PerformFault>
    ensures { DebugEnds limit end result }
{
    match end {
        DebugEnd::Done => Ok(Ended::Ran(limit, RunEnd::AtLimit)),
        DebugEnd::Stopped(stop) => Ok(Ended::Ran(limit, RunEnd::AtStop(stop))),
        DebugEnd::WriteFault => Err(PerformFault::WriteFault),
    }
}

/// Runs the debugger's commands on a run.
fn debug<O: Sink>(
    run: Run,
    limit: Limit,
    commands: Commands,
    looks: Looks,
    out: &mut O,
) -> Result<Ended, PerformFault>
    requires { IsReady (ready.Run run limit (show.Commands commands looks)) }
    ensures { PerformAnswers (shown_as (show.Commands commands looks) run limit) (O.meaning out.old) (O.meaning out.new) result }
{
    let mut vip = Vip::of(run);
    end_of_commands(limit, run_commands(&mut vip, &commands, &looks, limit, out))
}

/// Makes a run, and puts what is shown of it.
pub(crate) fn perform_run<O: Sink>(
    mut run: Run,
    limit: Limit,
    show: ReadyShow,
    out: &mut O,
) -> Result<Ended, PerformFault>
    requires { IsReady (ready.Run run limit show) }
    ensures { PerformAnswers (shown_as show run limit) (O.meaning out.old) (O.meaning out.new) result }
{
    match show {
        ReadyShow::Trace { columns, origins } => {
            ran(limit, show_trace(&mut run, limit, columns, &origins, out))
        }
        ReadyShow::Pictures => ran(limit, show_pictures(&mut run, limit, out)),
        ReadyShow::Commands { commands, looks } => debug(run, limit, commands, looks, out),
        ReadyShow::State => end_of_saving(limit, show_saved(&mut run, limit, out)),
        ReadyShow::Profile {
            mut counts,
            mut page,
        } => ran(
            limit,
            show_profile(&mut run, limit, &mut counts, &mut page, out),
        ),
        ReadyShow::Summary(number) => ran(limit, show_summary(&mut run, limit, number, out)),
    }
}

/// Puts a text, as one piece.
pub(crate) fn put_text<O: Sink>(text: Vec<u8>, out: &mut O) -> Result<Ended, PerformFault>
    requires { IsReady (ready.Text text) }
    ensures { PerformAnswers (outcome_of (ready.Text text)) (O.meaning out.old) (O.meaning out.new) result }
{
    out.put(text.as_slice())?;
    Ok(Ended::Worked)
}

/// Puts what is told of a source, as one piece.
pub(crate) fn put_told<O: Sink>(told: CheckText, out: &mut O) -> Result<Ended, PerformFault>
    requires { IsReady (ready.Checked told) }
    ensures { PerformAnswers (outcome_of (ready.Checked told)) (O.meaning out.old) (O.meaning out.new) result }
{
    out.put(told.text.as_slice())?;
    Ok(Ended::Checked {
        faulty: told.faulty,
    })
}
