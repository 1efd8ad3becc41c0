//! What is proved of the whole interpreter's ROM, each law the contract of a function without parameters.

ghost use Rattle.rom_run.specs.Image.{EveryPart, ImageOfParts};
ghost use Rattle.rom_run.specs.Laws.{AnySchedule, MainRows, Timely, Undisturbed, WaitsSoon, WritesSoon, ChangesSoon};
ghost use Rattle.rom_run.specs.Timeline.{EveryTime, EveryTimeBehind};
ghost use Rattle.rom_run.specs.Laws.{BootStarts, EveryRun, FromAnyStart, EveryPicture, EveryPictureBehind, EveryState, EveryInterrupt, NoneMissing};

/// The law of every schedule, for both editions: from a dispatch point on, whenever timer ticks come and whatever keys are held down, the
/// first main move that comes to the fetch loop or to the stop has made one step of the language, or has come to the stop of the state.
pub fn any_schedule()
    ensures { AnySchedule }
{}

/// The board's own moves, for both editions: from a state of which `Running` holds, each one comes to such a state, to a dispatch point with
/// the step, the timer ticks and the keys of the cycles since the last one, or to the stop of the state.
pub fn main_rows()
    ensures { MainRows }
{}

/// Each of these moves ends within the bound of the instruction at the last dispatch point, where that has one: FX0A has none.
pub fn timely()
    ensures { Timely }
{}

/// No interrupt comes while 00E0 or DXYN changes the screen: in the cycle of each one the screen in RAM is that of the last dispatch point.
pub fn undisturbed()
    ensures { Undisturbed }
{}

/// Main code waits for the display alone: in 00E0 after 102 main cycles from the dispatch point on, and in DXYN after exactly those in which the language's
/// time has the sprite prepared, at most 2,154.
pub fn waits_soon()
    ensures { WaitsSoon }
{}

/// Boot comes in 28 moves to a machine that may start, at cycle 56, which stands for the game's first state.
pub fn boot_starts()
    ensures { BootStarts }
{}

/// The law of every run of the board from reset, for both editions, every game that fits into game memory, every key script and every limit. The
/// first dispatch point, which comes within 1,000 machine cycles, has the game's first state. Each next one has the state after one step, with the
/// timer ticks and the keys of the cycles between; its cycle and its state are exactly those of the language's time. It comes within the bound of the
/// state before it, and after FX0A, which has none, before the last of 3,668 cycles in which all keys are up, behind as many in which a key is down. The
/// pictures are those of frames 0, 1, 2 and so on, without a gap: before a point come exactly those whose windows have ended by its cycle. Dot x of line
/// k of each is lit exactly where pixel (x, k / 4) is, in the tall edition (x, k / 2), in the screen of the language state at the last dispatch point
/// before it. A stop is that of the last state, with its number in 01F0, and its cycle and its state are exactly those of the language's time. Where the
/// limit ends the run, no next point was due by then.
pub fn every_run()
    ensures { EveryRun }
{}

/// The same of every run from a machine that stands for a language state at a dispatch point, in an even cycle, in its frame before the interrupt
/// or behind the window: of the events behind it, whose first picture is that of the first frame whose window hasn't ended.
pub fn from_any_start()
    ensures { FromAnyStart }
{}

/// The pictures of a run, from reset and from any such start, are those of all frames whose windows end by the cycle of its stop, or by its limit
/// where it has none. So says the law for every limit: a picture's event is at the state in whose cycle its window has ended.
pub fn every_picture()
    ensures from_reset { EveryPicture }
    ensures from_any_start { EveryPictureBehind }
{}

/// The events of a run are those of the language's time, one for one: as many pictures, dispatch points and stops, in the same order, from reset and from
/// any such start. Each picture is that of the same frame, and shows the screen; each dispatch point is in the same cycle, and the machine stands there for
/// the state; and so is the stop, with its number. So a run that its limit ends has no point less: none was due by then.
pub fn every_time()
    ensures from_reset { EveryTime }
    ensures from_any_start { EveryTimeBehind }
{}

/// Every state of a run up to its stop, from reset and from any such start: it is one of boot, or `Running` holds of it with the record of the moves
/// since the last dispatch point.
pub fn every_state()
    ensures { EveryState }
{}

/// The interrupts of these runs: up to the stop, boot included, the next move is an interrupt exactly in cycle 0 of line 78 of a frame, and no such
/// cycle is passed over.
pub fn every_interrupt()
    ensures there { EveryInterrupt }
    ensures none_missing { NoneMissing }
{}

/// Main code writes to the screen, also a byte that was there, in 00E0 and DXYN alone, at most 1,560 cycles after the return of the interrupt routine that
/// ended the wait.
pub fn writes_soon()
    ensures { WritesSoon }
{}

/// The display in a run from any such start: from where main code runs behind the wait of 00E0 or DXYN, or first writes to the screen, also a byte
/// that was there, up to the next dispatch point. Each move is an instruction of main code, and ends at most 1,700 cycles after the return of the
/// interrupt routine that ended the wait. No interrupt's cycle lies between that return and the dispatch point.
pub fn changes_soon()
    ensures { ChangesSoon }
{}

/// Of the image of each edition, what `rom_parts` proves of the bytes of each part that stand there: the rows and the addresses of its blocks and
/// places, boot, the time of the dispatch, the interrupt routine with its scan and its picture, and the sets of keys of FX0A.
pub fn every_part()
    ensures { EveryPart }
{}

/// The image of each edition is the bytes of the six parts and of the font, laid over zeros, and the bytes of each part have exactly the
/// addresses that the map gives it.
pub fn image_of_parts()
    ensures { ImageOfParts }
{}
