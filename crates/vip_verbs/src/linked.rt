//! The verb `link`: two boards that are joined by port 3.

ghost use Rattle.std.specs.Prelude.{◌≤◌, length};
ghost use Rattle.vip_link.specs.Laws.{most_bytes};
ghost use Rattle.vip_verbs.specs.Outcome.{LinkComes, linked, linked_after};
ghost use Rattle.vip_verbs.specs.Prepared.{IsJoined, PrepareAnswers, PerformAnswers};

use crate::prepared::Prepared;
use std::alloc::Global;
use vip_link::laws::sources_give_roms;
use vip_link::{Link, LinkFault};
use vip_outside::Sink;
use vip_tools::{Ended, Kind, PerformFault, Refusal};
use vip_words::Moves;

/// Joins two boards with a message. Both ROMs are what their sources give, by the law of `vip_link`.
pub(crate) fn open_link<'a>(
    alloc: Global,
    message: &[u8],
    moves: Moves,
    number: u32,
) -> Result<Prepared, Refusal<'a>>
    requires { length message.now ≤ most_bytes }
    ensures { PrepareAnswers (LinkComes message.now moves number) result }
{
    sources_give_roms();
    match Link::new(alloc, message) {
        Ok(link) => Ok(Prepared::Link {
            link,
            number,
            moves,
        }),
        Err(LinkFault::MessageTooLarge(_)) => Err(Refusal::TooLarge(Kind::Message)),
        Err(LinkFault::NoMemory) => Err(Refusal::NoMemory),
    }
}

/// Makes the moves of a number's schedule, and puts the bytes that were received, as one piece.
pub(crate) fn run_link<O: Sink>(
    link: &mut Link,
    number: u32,
    moves: Moves,
    out: &mut O,
) -> Result<Ended, PerformFault>
    requires { IsJoined link.old }
    ensures { PerformAnswers (linked (linked_after number moves link.old.message)) (O.meaning out.old) (O.meaning out.new) result }
{
    link.run(number, moves.count());
    out.put(link.received())?;
    Ok(Ended::Linked {
        sent: link.sent(),
        received: link.received().len() as u32,
    })
}
