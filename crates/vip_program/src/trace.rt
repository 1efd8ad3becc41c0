//! The lines of a run.

ghost use Rattle.std.specs.Prelude.{◌≡◌, ◌≤◌};
ghost use Rattle.vip_cpu.specs.declared.cpu.Phase.TheVariants.{Boundary};
ghost use Rattle.vip_program.specs.Trace.{ShowAnswers, TraceAnswers, end_at, program_trace};

use crate::labels::{next_place, put_labels, put_line_end};
use crate::moves::{goes_on, next_line};
use asm_core::Origins;
use vip_board::Board;
use vip_byte::{Buffer, add16, put};
use vip_outside::{Failed, Sink};
use vip_text::Limit;

/// How the run of a program ended.
#[derive(Clone, Copy)]
pub enum ProgramEnd {
    /// The next move would end after the limit.
    AtLimit,
    /// The processor idles, and no signal can wake it, since the display is off. This is the address of the IDL.
    Idle(u16),
}

/// How a run ends where a board stands: `Idle` comes exactly where the processor idles and the display is off.
pub fn ending(board: &Board) -> ProgramEnd
    ensures { result ≡ end_at board.now.machine }
{
    if board.sleeps() {
        let cpu = board.cpu();
        ProgramEnd::Idle(add16(cpu.r(cpu.p()), 0xFFFF))
    } else {
        ProgramEnd::AtLimit
    }
}

/// Makes at most `count` moves, those that end at or before the limit, and none from where the processor idles with the display off. Puts
/// their lines, each as one piece, that of an instruction behind those of the labels at its opcode and with the source's line that gave it, where it is
/// told, and answers how many moves were made. The board is at a boundary, before and after.
///
/// A put that fails ends it: the board has made the moves of that line, and no others.
pub fn trace_moves<O: Sink>(
    board: &mut Board,
    origins: &Origins,
    count: u64,
    limit: Limit,
    out: &mut O,
) -> Result<u64, Failed>
    requires boundary { board.old.phase ≡ Boundary }
    requires within { board.old.machine.cycle ≤ limit }
    ensures { TraceAnswers origins.now count limit board.old board.new (O.meaning out.old) (O.meaning out.new) result }
{
    let mut made = 0;
    // one of each for all lines, since a new one is filled with 00 each time
    let mut line = Buffer::new();
    let mut end = Buffer::new();
    while made < count && goes_on(board, limit) {
        let place = next_place(board);
        // by the bytes before the moves, which may change them
        end.clear();
        put_line_end(board, origins, &mut end);
        line.clear();
        made += next_line(board, count - made, limit, &mut line);
        put(&mut line, end.as_slice());
        put_labels(origins, place, out)?;
        out.put(line.as_slice())?;
    }
    Ok(made)
}

/// Runs a program up to the limit, or up to where the processor idles with the display off, and puts the lines of its moves and of the
/// labels at them, each as one piece. A put that fails ends it. No memory is taken.
pub fn show_trace<O: Sink>(
    board: &mut Board,
    origins: &Origins,
    limit: Limit,
    out: &mut O,
) -> Result<ProgramEnd, Failed>
    requires boundary { board.old.phase ≡ Boundary }
    requires within { board.old.machine.cycle ≤ limit }
    ensures { ShowAnswers (program_trace origins.now board.old limit) limit board.old (O.meaning out.old) (O.meaning out.new) result }
{
    trace_moves(board, origins, limit.cycles(), limit, out)?;
    Ok(ending(board))
}
