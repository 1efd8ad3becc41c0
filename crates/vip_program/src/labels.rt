//! What a source says of an instruction: the lines of its labels, and the line that gave it.

ghost use Rattle.std.specs.Prelude.{◌≡◌, ◌+◌, ◌≤◌, ◌++◌, []};
ghost use Rattle.arrayvec.specs.ArrayVec.{array_vec_len};
ghost use Rattle.std.specs.Option.{option_map_or};
ghost use Rattle.machine.specs.Board.{case_of};
ghost use Rattle.vip_cpu.specs.declared.cpu.Phase.TheVariants.{Boundary};
ghost use Rattle.vip_outside.specs.Pieces.{StreamAnswers};
ghost use Rattle.asm_core.specs.Origins.{labels_over};
ghost use Rattle.vip_byte.specs.Room.{HasRoom};
ghost use Rattle.vip_program.specs.Lines.{end_behind, place_in, source_in};

use crate::line::three_at;
use asm_core::{Origins, read_place, size_at};
use vip_board::Board;
use vip_byte::{Buffer, put};
use vip_outside::{Failed, Sink};

/// The address from which the opcode of the instruction that comes next is read, if one does. The board is at a boundary.
pub fn next_place(board: &Board) -> Option<u16>
    requires { board.now.phase ≡ Boundary }
    ensures { result ≡ place_in (case_of board.now.machine) board.now.machine }
{
    if board.next_is_instruction() {
        let cpu = board.cpu();
        Some(read_place(board.memory().latch_set(), cpu.r(cpu.p())))
    } else {
        None
    }
}

/// Appends the source's line that gave the instruction that comes next, if one does and the line is told.
fn put_source(board: &Board, origins: &Origins, into: &mut Buffer)
    requires boundary { board.now.phase ≡ Boundary }
    requires room { HasRoom into.old.items 320 }
    ensures items { into.new.items ≡ into.old.items ++ source_in origins.now board.now.rom (case_of board.now.machine) board.now.machine }
    ensures len { array_vec_len into.new ≤ array_vec_len into.old + 320 }
{
    if board.next_is_instruction() {
        let cpu = board.cpu();
        let address = cpu.r(cpu.p());
        let memory = board.memory();
        let three = three_at(memory, address);
        let code = &three[..usize::from(size_at(three[0]))];
        origins.put_end(memory.latch_set(), address, code, into);
    }
}

/// Appends the end of the line of a board's next move: the source's line that gave it, if it is an instruction and the line is told, and the newline. The
/// board is at a boundary.
pub fn put_line_end(board: &Board, origins: &Origins, into: &mut Buffer)
    requires boundary { board.now.phase ≡ Boundary }
    requires room { HasRoom into.old.items 321 }
    ensures items { into.new.items ≡ into.old.items ++ end_behind origins.now board.now.rom board.now.machine }
    ensures len { array_vec_len into.new ≤ array_vec_len into.old + 321 }
{
    put_source(board, origins, into);
    put(into, b"\n");
}

/// Puts the lines that show the labels at the byte of an address, each as one piece.
pub fn put_labels_at<O: Sink>(origins: &Origins, address: u16, out: &mut O) -> Result<(), Failed>
    ensures { StreamAnswers (labels_over origins.now address) (O.meaning out.old) (O.meaning out.new) result }
{
    for line in origins.labels_over(address) {
        out.put(line)?;
    }
    Ok(())
}

/// Puts those of a place, which may be none.
pub fn put_labels<O: Sink>(origins: &Origins, place: Option<u16>, out: &mut O) -> Result<(), Failed>
    ensures { StreamAnswers (option_map_or (labels_over origins.now) place []) (O.meaning out.old) (O.meaning out.new) result }
{
    match place {
        Some(address) => put_labels_at(origins, address, out),
        None => Ok(()),
    }
}
