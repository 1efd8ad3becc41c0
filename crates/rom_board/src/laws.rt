//! What is proved of the interpreter's ROM part by part, over the definitions alone, and of any board that runs it.

ghost use Rattle.chip8_image.specs.declared.parts.Part.{Part};
ghost use Rattle.rom_run.specs.Laws.{RowsIn, MovesIn, BootRows, DispatchIn};
ghost use Rattle.rom_board.specs.Runs.{KeepsRunning, KeepsBooting, KeepsTime, KeepsDisplay};
ghost use Rattle.rom_board.specs.Ticks.{TakesTick, MakesTick, ScansScreen};

/// For both editions and each part of the ROM: from every state in a row whose next address lies in the part, a main move comes to a row, to a
/// dispatch or to a stop, and carries on the record of what came since the last dispatch point. The same holds of the board's own move from
/// every such state of which `Running` holds. A move of boot stays in boot, or comes to the first dispatch point. The move of the fetch that
/// goes to a routine ends exactly 80 main cycles after the dispatch point, for every opcode.
pub fn main_rows()
    ensures rows { (p : Part) → RowsIn p }
    ensures moves { (p : Part) → MovesIn p }
    ensures boot { BootRows }
    ensures dispatch { DispatchIn }
{}

/// The next move of a board that runs the interpreter, or boots: in each part of the ROM, and in boot, what is known of a running interpreter holds
/// afterwards. The move of the fetch that goes to a routine ends exactly 80 main cycles after the dispatch point, for every opcode. One of a sprite
/// that comes to the wait for the display ends at most 2,154 main cycles after it.
pub fn every_move()
    ensures running { (p : Part) → KeepsRunning p }
    ensures booting { KeepsBooting }
    ensures dispatch { KeepsTime }
    ensures display { KeepsDisplay }
{}

/// A run of the interrupt routine, from the interrupt of a board that runs the interpreter to the boundary behind the routine's return: as many
/// moves as the routine has, 1,435, in 1,846 machine cycles. One timer tick is made, and what is known of a running interpreter holds afterwards. In
/// between the 128 lines of the display window are scanned by 1,024 DMA cycles, eight a line, with the bytes of the line's row of the screen at the
/// interrupt.
pub fn every_tick()
    ensures takes { TakesTick }
    ensures makes { MakesTick }
    ensures scans { ScansScreen }
{}
