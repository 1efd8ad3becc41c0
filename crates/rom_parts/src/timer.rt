//! CXKK, FX07, FX15, FX18 and the interrupt routine, and which move the board makes at each place of a frame.

ghost use Rattle.chip8_image.specs.declared.parts.Part.TheVariants.{Timer};
ghost use Rattle.rom_rows.specs.Addresses.{AllInBlocks};
ghost use Rattle.rom_parts.specs.timer.Code.{timer_code};
ghost use Rattle.rom_parts.specs.Parts.{PartLaws, rom_of};
ghost use Rattle.rom_parts.specs.timer.Frame.{EveryMove, KeepsPlace, KeepsWaiting};

/// The laws of the blocks and places of CXKK, FX07, FX15 and FX18, where the count of ticks or a timer is read or written; and of the interrupt
/// routine, which is in no block: from the interrupt of a frame, of a machine whose main code runs or waits with room on the stack, the board comes
/// in 1,846 machine cycles to the return of the routine: one timer tick was made, and nothing else. In between R1 is the program counter, and the
/// display is on. In those moves each of the 128 lines of the window has eight DMA cycles, 1,024 in all, with the eight bytes of its row of the
/// screen. So the frame has a picture, which shows the screen that lies in RAM when its interrupt comes, in every run that goes on to the end of
/// the window: the display is on in all of its cycles.
pub fn part()
    ensures laws { PartLaws Timer (rom_of timer_code) }
    ensures covers { AllInBlocks Timer }
{}

/// Where the display is on and interrupts are enabled, outside of the window: the board makes the interrupt at cycle 1,092 of a frame, and
/// there alone. Elsewhere it makes a main move, or an idle cycle where the processor waits.
pub fn every_move()
    ensures { EveryMove }
{}

/// A main move of two cycles from a place of main code other than that of the interrupt ends at a place of main code.
pub fn keeps_place()
    ensures { KeepsPlace }
{}

/// So does an idle cycle, at even and odd cycles.
pub fn keeps_waiting()
    ensures { KeepsWaiting }
{}
