//! The profile of a program: where the time of its run goes, by its instructions.

ghost use Rattle.std.specs.Prelude.{◌≡◌, ◌≤◌};
ghost use Rattle.vip_board.specs.Moves.{moved_by};
ghost use Rattle.vip_board.specs.Seen.{held_by};
ghost use Rattle.vip_cpu.specs.declared.cpu.Phase.TheVariants.{Boundary};
ghost use Rattle.vip_program.specs.Counts.{IsCount};
ghost use Rattle.vip_program.specs.Instructions.{Profiles, program_profile};
ghost use Rattle.vip_program.specs.Pictures.{made};
ghost use Rattle.vip_program.specs.Trace.{ShowAnswers, moves_to};

use crate::instructions::ProgramProfile;
use crate::moves::{goes_on, make};
use crate::page::Page;
use crate::trace::{ProgramEnd, ending};
use vip_board::Board;
use vip_outside::{Failed, Sink};
use vip_text::Limit;

/// Makes the moves of a run up to its end, and counts its instructions.
fn count_moves(board: &mut Board, limit: Limit, profile: &mut ProgramProfile)
    requires boundary { board.old.phase ≡ Boundary }
    requires within { board.old.machine.cycle ≤ limit }
    ensures moved { board.new ≡ moved_by (moves_to board.old.rom (held_by board.old) board.old.machine limit) board.old }
    ensures profiles { Profiles profile.new board.old.rom (made board.old limit) }
    ensures count { IsCount profile.new.counts }
{
    profile.clear();
    while goes_on(board, limit) {
        profile.meet(board);
        make(board, limit);
    }
}

/// Runs a program up to the limit, or up to where the processor idles with the display off, and puts its profile, as one piece. A put that fails
/// ends it. It takes no memory but that of `profile` and of the page, and what was there before is gone.
pub fn show_profile<O: Sink>(
    board: &mut Board,
    limit: Limit,
    profile: &mut ProgramProfile,
    page: &mut Page,
    out: &mut O,
) -> Result<ProgramEnd, Failed>
    requires boundary { board.old.phase ≡ Boundary }
    requires within { board.old.machine.cycle ≤ limit }
    ensures { ShowAnswers (program_profile page.old board.old limit) limit board.old (O.meaning out.old) (O.meaning out.new) result }
{
    count_moves(board, limit, profile);
    page.put(&profile.counts, &profile.instructions, out)?;
    Ok(ending(board))
}
