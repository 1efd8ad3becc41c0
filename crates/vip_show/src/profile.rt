//! A profile of a run: where its time goes, by its dispatch points.

ghost use Rattle.std.specs.Prelude.{◌≡◌, []};
ghost use Rattle.vip_relation.specs.Follows.{Follows};
ghost use Rattle.vip_relation.specs.State.{events_to, first_events};
ghost use Rattle.vip_show.specs.Answers.{IsFresh, ShowAnswers};
ghost use Rattle.vip_show.specs.Profile.{Profiles, ProfilesRun, profile_pieces, views_of};

use crate::opcodes::Profile;
use vip_outside::{Failed, Sink};
use vip_program::Page;
use vip_relation::{Met, Run, view_of};
use vip_text::{Limit, RunEnd};

/// Counts the dispatch point at which a run from a saved state begins, and of a run from a reset none.
fn count_first(run: &Run, profile: &mut Profile)
    requires fresh { IsFresh run.now }
    requires none { Profiles profile.old [] }
    ensures counted { Profiles profile.new (views_of run.now.edition (first_events run.now.start)) }
    ensures follows { Follows run.now }
{
    let board = run.board();
    if let Some(_) = run.last_pc() {
        profile.meet(&view_of(board, run.edition()));
    }
}

/// Counts the dispatch points of a run that begins, that of a saved state first, up to its limit or its stop point.
fn count_points(run: &mut Run, limit: Limit, profile: &mut Profile) -> RunEnd
    requires fresh { IsFresh run.old }
    ensures { ProfilesRun run.old limit profile.new result }
{
    profile.clear();
    count_first(run, profile);
    loop {
        match run.advance(limit) {
            Met::Dispatch => profile.meet(&run.view()),
            Met::Picture => {}
            Met::Stopped(stop) => return RunEnd::AtStop(stop),
            Met::End => return RunEnd::AtLimit,
        }
    }
}

/// Runs a machine that begins, and puts its profile, as one piece. A put that fails ends it. It takes no memory but that of `profile` and of the page,
/// and what was there before is gone.
pub fn show_profile<O: Sink>(
    run: &mut Run,
    limit: Limit,
    profile: &mut Profile,
    page: &mut Page,
    out: &mut O,
) -> Result<RunEnd, Failed>
    requires fresh { IsFresh run.old }
    ensures { ShowAnswers run.old limit (profile_pieces page.old run.old.edition (events_to run.old limit)) (O.meaning out.old) (O.meaning out.new) result }
{
    let end = count_points(run, limit, profile);
    page.put(&profile.counts, &profile.opcodes, out)?;
    Ok(end)
}
