//! What a run is to the language, each law the contract of a function without parameters.

ghost use Rattle.rom_board.specs.Laws.{EveryAnswer, EveryBoard, EveryEvent, EveryFrame, EveryFrameBehind, EveryRun, EveryStart, EveryTime, EveryTimeBehind, FileMayStart};

/// The run of every game that fits into game memory, under every key script and up to every limit, is a run of CHIP-8: its first event is a dispatch
/// point of the game's first state; each next one comes by one step of the language, with the timer ticks and the keys of the cycles between, within
/// the bound of the state before it, and a wait for a key within a frame's cycles of all keys up behind a frame's of one down; its pictures are
/// those of all frames in turn, each the screen at the last dispatch point before it; and a stop is that of the last state.
pub fn every_run()
    ensures { EveryRun }
{
    rom_run::laws::every_run();
}

/// The run from every machine state that may start, under every key script and up to every limit, is a run of CHIP-8 from the language state that lies in
/// it on.
pub fn every_start()
    ensures { EveryStart }
{
    rom_run::laws::from_any_start();
}

/// The events of these runs are those of the language's time, one for one: as many pictures, dispatch points and stops, in the same order, each dispatch
/// point and each stop in the same cycle with the same state, and each picture that of the same frame and screen.
pub fn every_time()
    ensures from_reset { EveryTime }
    ensures from_any_start { EveryTimeBehind }
{
    rom_run::laws::every_time();
}

/// The machine state of any accepted file may start a run: the board is at a dispatch point, and stands for the language state in it.
pub fn file_may_start()
    ensures { FileMayStart }
{}

/// These runs keep to their frames. Up to the stop the next move is an interrupt exactly in cycle 0 of a frame's line 78, boot included, and no such
/// cycle is passed over. No interrupt disturbs the display: in the cycle of each one the screen in RAM is that of the last dispatch point; 00E0 and DXYN
/// wait for the display after exactly the main cycles of their time, 102 and at most 2,154, and nothing else waits or writes to the screen; they write at
/// most 1,560 cycles after the return of the interrupt routine, and from there up to the next dispatch point each move is an instruction, with no
/// interrupt's cycle among them.
pub fn every_frame()
    ensures from_reset { EveryFrame }
    ensures from_any_start { EveryFrameBehind }
{
    rom_run::laws::every_state();
    rom_run::laws::every_interrupt();
    rom_run::laws::undisturbed();
    rom_run::laws::waits_soon();
    rom_run::laws::writes_soon();
    rom_run::laws::changes_soon();
}

/// After every call the board of a run, from a reset or from a file, is in boot; or what is known of a running interpreter holds of it, with the record of its
/// moves since the last dispatch point; or it is at the stop point, with the stop of the state of which `last` tells.
pub fn every_board()
    ensures { EveryBoard }
{
    rom_run::laws::every_state();
    every_run();
    every_start();
    file_may_start();
}

/// Where no stop was met, the events that are left up to a limit are those of a run of CHIP-8 from the last dispatch point met on, whose view and
/// screen are `last` and `shown`, or from reset where none was met.
pub fn every_event()
    ensures { EveryEvent }
{
    every_run();
    every_start();
    file_may_start();
}

/// So each answer of `advance` says what comes next in that run: a dispatch point stands for the state that comes from the last one by one step, in
/// time; a picture is the screen of the last one; a stop is that of the last one, and names its pc and opcode; and where the limit comes first, the
/// next point wouldn't be too late yet, and by the language's time none is due.
pub fn every_answer()
    ensures { EveryAnswer }
{
    every_event();
}
