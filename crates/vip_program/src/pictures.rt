//! The pictures of a run.

ghost use Rattle.std.specs.Prelude.{◌≡◌, []};
ghost use Rattle.std.specs.Option.{option_map};
ghost use Rattle.vip_board.specs.Shown.{HasPictures};
ghost use Rattle.vip_cpu.specs.declared.cpu.Phase.TheVariants.{Boundary};
ghost use Rattle.vip_program.specs.Pictures.{PictureAnswers, pictured};
ghost use Rattle.vip_program.specs.Trace.{ShowAnswers};
ghost use Rattle.vip_text.specs.Screens.{picture_file};

use crate::moves::goes_on;
use crate::trace::{ProgramEnd, ending};
use vip_board::Board;
use vip_byte::Buffer;
use vip_outside::{Failed, Sink};
use vip_text::{Limit, picture_text};

/// Puts the last picture that was finished, where there is one, as one piece.
fn put_picture<O: Sink>(board: &Board, out: &mut O) -> Result<(), Failed>
    ensures { PictureAnswers board.now.pictures.finished (O.meaning out.old) (O.meaning out.new) result }
{
    let Some(picture) = board.video().finished() else {
        return Ok(());
    };
    let mut text = Buffer::new();
    picture_text(picture, &mut text);
    out.put(text.as_slice())
}

/// How many pictures the video chip has finished.
fn finished(board: &Board) -> u64
    ensures { result ≡ board.now.pictures.count }
{
    board.video().count()
}

/// Runs a program that begins up to the limit, or up to where the processor idles with the display off, and puts each finished picture, each
/// as one piece. A put that fails ends it. No memory is taken.
pub fn show_pictures<O: Sink>(
    board: &mut Board,
    limit: Limit,
    out: &mut O,
) -> Result<ProgramEnd, Failed>
    requires boundary { board.old.phase ≡ Boundary }
    requires begins { board.old.machine.cycle ≡ 0 }
    requires pictures { HasPictures board.old.rom [] board.old.machine.cycle board.old.pictures }
    ensures { ShowAnswers (pictured board.old limit) limit board.old (O.meaning out.old) (O.meaning out.new) result }
{
    while goes_on(board, limit) {
        let before = finished(board);
        board.run(limit.cycles(), ());
        if finished(board) != before {
            put_picture(board, out)?;
        }
    }
    Ok(ending(board))
}
