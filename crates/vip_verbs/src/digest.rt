//! The verb `digest`: each game of a list is run on a board of its own, from reset, and a line tells the digests of what is shown of its run.

ghost use Rattle.std.specs.Prelude.{◌≡◌, ◌≤◌, ◌++◌, length, IfOk, OnOk};
ghost use Rattle.std.specs.List.{flat_map};
ghost use Rattle.vip_relation.specs.State.Start.{Reset};
ghost use Rattle.vip_tools.specs.Files.{most_text};
ghost use Rattle.vip_tools.specs.Work.{TextAnswers};
ghost use Rattle.vip_verbs.specs.Opening.{IsStarted};
ghost use Rattle.vip_verbs.specs.Outcome.{DigestComes, digest_line};
ghost use Rattle.vip_verbs.specs.Prepared.{told_line};

use itoa::Buffer as Digits;
use std::alloc::{AllocError, Global};
use vip_byte::Buffer;
use vip_relation::Run;
use vip_show::{Digests, digest_run};
use vip_text::Limit;
use vip_tools::{Ended, ListedGame, Refusal, append, end_text, read_games};

/// A run of a game from reset. A game of a list fits into its memory, so it is memory alone that can be wanting.
fn start(alloc: Global, game: &ListedGame) -> Result<Run, AllocError>
    ensures { IfOk result (IsStarted game.now.edition (Reset game.now.bytes) game.now.keys) }
{
    match Run::start_as(alloc, game.edition(), game.bytes(), game.keys()) {
        Ok(run) => Ok(run),
        Err(_) => Err(AllocError),
    }
}

/// Appends the line of a run up to a limit of which this is told.
fn append_line(
    alloc: Global,
    text: &mut Vec<u8>,
    digests: &Digests,
    limit: Limit,
) -> Result<(), AllocError>
    ensures { OnOk result (text.new.items ≡ text.old.items ++ told_line limit digests.now) }
{
    let trace = hex::encode(alloc, digests.trace)?;
    let pictures = hex::encode(alloc, digests.pictures)?;
    let mut points = Digits::new();
    let points = points.format(digests.points).as_bytes();
    let mut report = Buffer::new();
    end_text(&Ended::Ran(limit, digests.end), &mut report);
    let blank: &[u8] = b" ";
    append(
        text,
        &[
            trace.as_bytes(),
            blank,
            pictures.as_bytes(),
            blank,
            points,
            blank,
            report.as_slice(),
        ],
    )
}

/// Runs games up to a limit, one after another, each on a board that begins: a line of each. Nothing of a run is kept for the next one.
fn lines(alloc: Global, games: &[ListedGame], limit: Limit) -> Result<Vec<u8>, AllocError>
    ensures { IfOk result (λ text. text.items ≡ flat_map (digest_line limit) games.now) }
{
    let mut text = Vec::new(alloc);
    for game in games {
        let mut run = start(alloc, game)?;
        let digests = digest_run(&mut run, limit);
        append_line(alloc, &mut text, &digests, limit)?;
    }
    Ok(text)
}

/// Reads a list of games, all of it before the first one runs, and runs each: a line of each.
pub(crate) fn digest<'a>(alloc: Global, limit: Limit, list: &[u8]) -> Result<Vec<u8>, Refusal<'a>>
    requires { length list.now ≤ most_text }
    ensures { TextAnswers (DigestComes limit list.now) result }
{
    let games = read_games(alloc, list)?;
    let text = lines(alloc, games.as_slice(), limit)?;
    Ok(text)
}
