//! The moves of one line.

ghost use Rattle.std.specs.Prelude.{◌≡◌, ◌+◌, ◌*◌, ◌/◌, ◌<◌, ◌≤◌, ◌++◌, ◌==◌, ◌&&◌, [], ◌∷◌, length, map, true};
ghost use Rattle.arrayvec.specs.ArrayVec.{array_vec_len};
ghost use Rattle.machine.specs.Board.{case_of, dma_byte};
ghost use Rattle.machine.specs.Instruction.{at};
ghost use Rattle.machine.specs.Run.{states};
ghost use Rattle.machine.specs.Signals.{line_cycles};
ghost use Rattle.vip_board.specs.Moves.{moved};
ghost use Rattle.vip_board.specs.Seen.{held_by};
ghost use Rattle.vip_board.specs.Shown.{CarriesOn};
ghost use Rattle.vip_byte.specs.HexText.{bytes_text};
ghost use Rattle.vip_byte.specs.Room.{HasRoom};
ghost use Rattle.vip_cpu.specs.declared.cpu.Phase.TheVariants.{Boundary};
ghost use Rattle.vip_program.specs.Lines.{dma_text, interrupt_text, line_of, moves_text};
ghost use Rattle.vip_program.specs.Moves.{goes_on, is_idle, is_scan, MakesAll, MakesStretch, TakesLine};

use crate::line::{put_cycle, put_instruction};
use vip_board::{Board, Move};
use vip_byte::{Buffer, MOST_CYCLE, hex2, hex4, put, put_number};
use vip_cpu::Cpu;
use vip_text::Limit;
use vip_video::LINE_CYCLES;

/// The raster line of the present cycle, counted from reset.
fn raster_line(board: &Board) -> u64
    ensures { result ≡ board.now.machine.cycle / line_cycles }
{
    board.now() / LINE_CYCLES
}

/// Whether the next move is made: the board doesn't sleep, and the move ends at or before the limit.
pub fn goes_on(board: &Board, limit: Limit) -> bool
    requires within { board.now.machine.cycle ≤ limit }
    ensures goes { result ≡ goes_on limit board.now.rom board.now.machine }
    ensures cycle { board.now.machine.cycle ≤ MOST_CYCLE }
{
    let left = limit.cycles() - board.now();
    !board.sleeps() && board.next_length() <= left
}

/// Whether the next move is made and is an idle cycle.
fn idles(board: &Board, limit: Limit) -> bool
    requires within { board.now.machine.cycle ≤ limit }
    ensures { result ≡ (goes_on limit board.now.rom board.now.machine && is_idle (case_of board.now.machine)) }
{
    goes_on(board, limit) && board.next_move() == Move::Idle
}

/// Whether the next move is made and is a DMA cycle of a raster line, counted from reset.
fn scans(board: &Board, line: u64, limit: Limit) -> bool
    requires within { board.now.machine.cycle ≤ limit }
    ensures { result ≡ (goes_on limit board.now.rom board.now.machine && is_scan line (case_of board.now.machine) board.now.machine) }
{
    goes_on(board, limit) && board.next_move() == Move::Dma && raster_line(board) == line
}

/// Makes the next move, which ends at or before the limit.
pub fn make(board: &mut Board, limit: Limit)
    requires boundary { board.old.phase ≡ Boundary }
    requires goes { goes_on limit board.old.rom board.old.machine ≡ true }
    ensures moved { board.new ≡ moved board.old }
    ensures boundary { board.new.phase ≡ Boundary }
    ensures pictures { CarriesOn board.old board.new }
{
    let _ = board.to_boundary(limit.cycles());
}

/// Appends what the line of an interrupt says.
fn put_interrupt(into: &mut Buffer, cpu: &Cpu)
    requires { HasRoom into.old.items 9 }
    ensures items { into.new.items ≡ into.old.items ++ interrupt_text cpu.now.regs }
    ensures len { array_vec_len into.new ≡ array_vec_len into.old + 9 }
{
    put(into, b" INT T ");
    put(into, &hex2(cpu.x() * 16 + cpu.p()));
}

/// The address of the byte that a DMA cycle puts on the bus, R(0).
fn dma_address(board: &Board) -> u16
    ensures { result ≡ at board.now.machine.regs 0 }
{
    board.cpu().r(0)
}

/// Appends what the line of DMA cycles says before their bytes, with this in R(0).
fn put_dma(into: &mut Buffer, address: u16)
    requires { HasRoom into.old.items 12 }
    ensures items { into.new.items ≡ into.old.items ++ dma_text address }
    ensures len { array_vec_len into.new ≡ array_vec_len into.old + 12 }
{
    put(into, b" DMA R0 ");
    put(into, &hex4(address));
}

/// Appends the byte that a DMA cycle puts on the bus.
fn put_dma_byte(into: &mut Buffer, board: &Board)
    requires { HasRoom into.old.items 3 }
    ensures items { into.new.items ≡ into.old.items ++ bytes_text (dma_byte board.now.rom board.now.machine ∷ []) }
    ensures len { array_vec_len into.new ≡ array_vec_len into.old + 3 }
{
    put(into, b" ");
    put(into, &hex2(board.memory().read(dma_address(board))));
}

/// Makes the idle cycles that come next, at most `count`, and answers how many.
fn idle(board: &mut Board, count: u64, limit: Limit) -> u64
    requires boundary { board.old.phase ≡ Boundary }
    requires within { board.old.machine.cycle ≤ limit }
    ensures boundary { board.new.phase ≡ Boundary }
    ensures makes { MakesAll (λ b. is_idle (case_of b)) count limit board.old board.new result }
{
    let mut made = 0;
    while made < count && idles(board, limit) {
        make(board, limit);
        made += 1;
    }
    made
}

/// Makes the DMA cycles of a raster line that come next, at most `count`, appends their bytes, and answers how many.
fn scan(board: &mut Board, line: u64, count: u64, limit: Limit, into: &mut Buffer) -> u64
    requires boundary { board.old.phase ≡ Boundary }
    requires within { board.old.machine.cycle ≤ limit }
    requires room { HasRoom into.old.items 45 }
    ensures boundary { board.new.phase ≡ Boundary }
    ensures makes { MakesAll (λ b. is_scan line (case_of b) b) count limit board.old board.new result }
    ensures items { into.new.items ≡ into.old.items ++ bytes_text (map (dma_byte board.old.rom) (states board.old.rom (held_by board.old) board.old.machine result)) }
    ensures len { array_vec_len into.new ≤ array_vec_len into.old + 42 }
{
    let mut made = 0;
    while made < count && scans(board, line, limit) {
        put_dma_byte(into, board);
        make(board, limit);
        made += 1;
    }
    made
}

/// Appends what the line of a board's next move says of that move alone.
fn put_move(into: &mut Buffer, board: &Board)
    requires cycle { board.now.machine.cycle ≤ MOST_CYCLE }
    requires room { HasRoom into.old.items 90 }
    ensures items { into.new.items ≡ into.old.items ++ moves_text board.now.rom (held_by board.now) (case_of board.now.machine) board.now.machine (board.now.machine ∷ []) }
    ensures len { array_vec_len into.new ≤ array_vec_len into.old + 70 }
{
    match board.next_move() {
        Move::Instruction(_) => put_instruction(into, board),
        Move::Interrupt => put_interrupt(into, board.cpu()),
        Move::Idle => put(into, b" IDLE 1"),
        Move::Dma => {
            put_dma(into, dma_address(board));
            put_dma_byte(into, board);
        }
    }
}

/// Writes the line that a board's next move has alone into an empty buffer, without its end. The board is at a boundary.
#[tactic(auto, unfolding(crate::specs::Lines::line_from))]
pub fn move_text(board: &Board, into: &mut Buffer)
    requires cycle { board.now.machine.cycle ≤ MOST_CYCLE }
    requires empty { into.old.items ≡ [] }
    ensures line { into.new.items ≡ line_of board.now.rom (held_by board.now) (board.now.machine ∷ []) }
    ensures columns { length into.new.items ≤ 80 }
{
    put_cycle(into, board);
    put_move(into, board);
}

/// Makes the moves of the next line, at most `count` of them, and appends what it says of them. Answers how many.
fn make_line(board: &mut Board, count: u64, limit: Limit, into: &mut Buffer) -> u64
    requires boundary { board.old.phase ≡ Boundary }
    requires some { 0 < count }
    requires cycle { board.old.machine.cycle ≤ MOST_CYCLE }
    requires within { board.old.machine.cycle ≤ limit }
    requires goes { goes_on limit board.old.rom board.old.machine ≡ true }
    requires room { HasRoom into.old.items 90 }
    ensures boundary { board.new.phase ≡ Boundary }
    ensures stretch { MakesStretch count limit board.old board.new result }
    ensures items { into.new.items ≡ into.old.items ++ moves_text board.old.rom (held_by board.old) (case_of board.old.machine) board.old.machine (states board.old.rom (held_by board.old) board.old.machine result) }
    ensures len { array_vec_len into.new ≤ array_vec_len into.old + 70 }
{
    match board.next_move() {
        Move::Instruction(_) => {
            put_instruction(into, board);
            make(board, limit);
            1
        }
        Move::Interrupt => {
            put_interrupt(into, board.cpu());
            make(board, limit);
            1
        }
        Move::Idle => {
            put(into, b" IDLE ");
            let cycles = idle(board, count, limit);
            put_number(into, cycles);
            cycles
        }
        Move::Dma => {
            put_dma(into, dma_address(board));
            let line = raster_line(board);
            scan(board, line, count, limit, into)
        }
    }
}

/// Makes the moves of the next line, at most `count` of them and at least one, and writes the line into an empty buffer, without its end. Answers how
/// many.
pub fn next_line(board: &mut Board, count: u64, limit: Limit, into: &mut Buffer) -> u64
    requires boundary { board.old.phase ≡ Boundary }
    requires some { 0 < count }
    requires cycle { board.old.machine.cycle ≤ MOST_CYCLE }
    requires within { board.old.machine.cycle ≤ limit }
    requires goes { goes_on limit board.old.rom board.old.machine ≡ true }
    requires empty { into.old.items ≡ [] }
    ensures boundary { board.new.phase ≡ Boundary }
    ensures line { TakesLine count limit board.old board.new into.new.items result }
    ensures columns { length into.new.items ≤ 80 }
{
    put_cycle(into, board);
    make_line(board, count, limit, into)
}
