//! What is written of measurements and of sources: forms in which `#` stands for each number.

use crate::interpreter::costs::Costs;
use crate::interpreter::cuts::Seen as SeenCuts;
use crate::interpreter::edition::name;
use crate::interpreter::files::Seen;
use crate::interpreter::source::Form;
use crate::interpreter::watch::Watch;
use crate::interpreter::wrong::Came;
use chip8_lang::Edition;

const FORM: &str = "  # instructions, # lines of data outside the font and the dispatch table
  # of 16 routines in the dispatch table, # of 7 shifts in line
  # of 3 labels at their addresses, # bytes outside the text of their part
";

const FRAMES: &str = "  # dispatch points, # frames, # interrupts, # of them not at cycle 1092
  # pictures of # windows, # of them not the screen of the last dispatch point
  # interrupts between a write to the screen and the next dispatch point
";

/// Dispatch points and stops to which no step of the language leads; the cycles behind the last dispatch point; interrupts between a write to the screen
/// and the next dispatch point; main code from a dispatch point to the routine of its opcode, and of DXYN up to the wait.
const WRONG: &str =
    ": # dispatch points, # not of the language, # cycles behind the last; # pictures of # windows, # torn; # to # cycles to the routine, # to the wait\n";

/// The most cycles of each kind of step, beside its bound, and of its parts.
const COSTS: &str = "  boot: # of at most 1000 cycles, # of main code
  00E0: # of at most 7600 cycles, # of main code
  DXYN: # of at most 14672 cycles, # of main code
  FX33: # of at most 2600 cycles, # of main code
  FX55: # of at most 2600 cycles, # of main code
  FX65: # of at most 2600 cycles, # of main code
  other instructions but FX0A: # of at most 2200 cycles, # of main code
  stops: # of at most 2200 cycles, # of main code
  main code from a dispatch point to the routine of its opcode: # to # cycles
  main code of DXYN up to the wait: # of at most 2400 cycles
  main code after the wait: DXYN #, 00E0 # of at most 1700 cycles
  main code of FX0A: up to its first test #, after its last # of at most 300 cycles
  the interrupt routine: # to # of at most 1900 cycles
";

const FILES: &str = "machine states in files:
  # files, # of them refused; # steps and # stops, # of them not those of the language
";

const CUTS: &str = "runs that are saved and gone on with:
  # runs, # of them without a dispatch point to save; # dispatch points and # stops behind, # runs not as in one go
";

/// Writes a form with its numbers.
fn write(rt: &HostRuntime, form: &str, numbers: &[u64]) -> anyhow::Result<()> {
    let mut numbers = numbers.iter();
    let mut pieces = form.split('#');
    if let Some(first) = pieces.next() {
        print!(rt; "{first}")?;
    }
    for piece in pieces {
        if let Some(number) = numbers.next() {
            print!(rt; "{number}{piece}")?;
        }
    }
    Ok(())
}

/// Writes what was found in a source.
pub fn write_form(rt: &HostRuntime, edition: Edition, form: &Form) -> anyhow::Result<()> {
    println!(rt; "{}, source:", name(edition))?;
    let numbers = [
        form.instructions,
        form.stray,
        form.routines,
        form.shifts,
        form.labels,
        form.misplaced,
    ];
    write(rt, FORM, &numbers)
}

/// Writes what was seen of frames.
pub fn write_frames(
    rt: &HostRuntime,
    edition: Edition,
    of: &str,
    watch: &Watch,
) -> anyhow::Result<()> {
    println!(rt; "{}, {of}:", name(edition))?;
    let numbers = [
        watch.dispatches,
        watch.frames,
        watch.interrupts,
        watch.strays,
        watch.pictures,
        watch.windows,
        watch.wrong_pictures,
        watch.torn,
    ];
    write(rt, FRAMES, &numbers)
}

/// Writes what was seen of a wrong interpreter.
pub fn write_wrong(rt: &HostRuntime, name: &str, came: &Came, watch: &Watch) -> anyhow::Result<()> {
    print!(rt; "  {name}")?;
    let dispatch = &watch.costs.dispatch;
    let numbers = [
        watch.dispatches,
        came.wrong,
        came.behind,
        watch.pictures,
        watch.windows,
        watch.torn,
        dispatch.least.min(dispatch.most),
        dispatch.most,
        watch.costs.prepare,
    ];
    write(rt, WRONG, &numbers)
}

/// Writes what the steps took.
pub fn write_costs(rt: &HostRuntime, costs: &Costs) -> anyhow::Result<()> {
    let numbers = [
        costs.boot.all,
        costs.boot.main,
        costs.clear.all,
        costs.clear.main,
        costs.draw.all,
        costs.draw.main,
        costs.decimal.all,
        costs.decimal.main,
        costs.store.all,
        costs.store.main,
        costs.fetch.all,
        costs.fetch.main,
        costs.ordinary.all,
        costs.ordinary.main,
        costs.stop.all,
        costs.stop.main,
        costs.dispatch.least,
        costs.dispatch.most,
        costs.prepare,
        costs.drawn,
        costs.cleared,
        costs.first_test,
        costs.after_test,
        costs.routine.least,
        costs.routine.most,
    ];
    write(rt, COSTS, &numbers)
}

/// Writes what was seen of machine states in files.
pub fn write_files(rt: &HostRuntime, seen: &Seen) -> anyhow::Result<()> {
    let numbers = [seen.files, seen.refused, seen.steps, seen.stops, seen.wrong];
    write(rt, FILES, &numbers)
}

/// Writes what was seen of runs that are saved and gone on with.
pub fn write_cuts(rt: &HostRuntime, seen: &SeenCuts) -> anyhow::Result<()> {
    let numbers = [seen.cut, seen.unsaved, seen.records, seen.stops, seen.wrong];
    write(rt, CUTS, &numbers)
}
