//! The one call that the program makes.

ghost use Rattle.std.specs.Prelude.{◌≡◌, map, string_bytes, IfErr, IfOk};
ghost use Rattle.vip_tools.specs.declared.refusal.Refusal.TheVariants.{NoMemory};
ghost use Rattle.vip_verbs.specs.Prepared.{IsReady, outcome_of};
ghost use Rattle.vip_call.specs.Words.{FinishAnswers, Finishes, OpensWords, PerformsAnswer, RomsAnswer, UnderstoodAnswers, performed_status};
ghost use Rattle.vip_call.specs.Top.{call_of, EveryCall, IsFinished, Promises};

use chip8_lang::Edition;
use chip8_source::laws::source_gives_rom;
use chip8_source::{ImageFault, check_image, check_tall};
use cycle_check::laws::accepted_leaves;
use game_check::laws::certified_games;
use rom_board::bounds::least_bounds;
use rom_board::language::{every_frame, every_run, every_start, every_time, file_may_start};
use rom_board::saved::saved_joins;
use std::alloc::Global;
use vip_debug::laws::goes_on_behind;
use vip_link::check_link;
use vip_link::laws::{every_schedule, sources_give_roms};
use vip_outside::{Files, Sink};
use vip_tools::{Ended, PerformFault, Refusal, Status, put_end, put_fault, put_refusal};
use vip_verbs::Prepared;
use vip_words::{Request, WordsFail, read_words, refused_by_rule};

/// What the words ask for.
fn read_request<'a>(alloc: Global, words: &'a [String]) -> Result<Request<&'a str>, Refusal<'a>>
    ensures { UnderstoodAnswers (map string_bytes words.entry.now) result }
{
    match read_words(alloc, words) {
        Ok(request) => Ok(request),
        Err(WordsFail::Refused) => Err(Refusal::Usage),
        Err(WordsFail::NoMemory) => Err(Refusal::NoMemory),
    }
}

/// Opens what the words ask for: reads the files that they name, in their order, each once, up to the first that is refused, and judges them. What
/// was opened is performed without want of memory.
pub fn open<'a, F: Files>(
    alloc: Global,
    words: &'a [String],
    files: &mut F,
) -> Result<Prepared, Refusal<'a>>
    ensures { OpensWords (map string_bytes words.entry.now) (F.meaning files.old) (F.meaning files.new) result }
{
    let request = read_request(alloc, words)?;
    vip_verbs::open(alloc, request, files)
}

/// Performs what was opened: its output goes to `out`, each piece by one put, and then one line of report to `err` by one put. A run that is to be saved
/// is refused where it has no dispatch point: then nothing goes to `out`. It is handed no allocator, and no answer is want of memory. After a put that
/// failed nothing more goes to that sink.
pub fn perform<O: Sink, E: Sink>(
    prepared: Prepared,
    out: &mut O,
    err: &mut E,
) -> Result<Ended, PerformFault>
    requires { IsReady prepared }
    ensures { PerformsAnswer (outcome_of prepared) (O.meaning out.old) (O.meaning out.new) (E.meaning err.old) (E.meaning err.new) result }
{
    match vip_verbs::perform(prepared, out) {
        Ok(ended) => {
            put_end(err, &ended)?;
            Ok(ended)
        }
        Err(fault) => {
            let _ = put_fault(err, fault);
            Err(fault)
        }
    }
}

/// The status of what was performed.
fn perform_status(answer: Result<Ended, PerformFault>) -> Status
    ensures { result ≡ performed_status answer }
{
    match answer {
        Ok(ended) => ended.status(),
        Err(fault) => fault.status(),
    }
}

/// Performs what was opened, and answers the status. It is handed no allocator, and the answer is never want of memory.
pub fn finish<O: Sink, E: Sink>(prepared: Prepared, out: &mut O, err: &mut E) -> Status
    requires { IsReady prepared }
    ensures { Finishes (outcome_of prepared) (O.meaning out.old) (O.meaning out.new) (E.meaning err.old) (E.meaning err.new) result }
{
    perform_status(perform(prepared, out, err))
}

/// Compares the ROMs of what was opened with what their built-in sources give.
fn compare_roms(alloc: Global, prepared: &Prepared) -> Result<(), ImageFault>
    ensures { RomsAnswer prepared.now result }
{
    match prepared {
        Prepared::Run { run, .. } => match run.edition() {
            Edition::Usual => check_image(alloc),
            Edition::Tall => check_tall(alloc),
        },
        Prepared::Link { .. } => check_link(alloc),
        Prepared::Program { .. }
        | Prepared::Resumed { .. }
        | Prepared::Text(_)
        | Prepared::Checked(_) => Ok(()),
    }
}

/// The refusal of a ROM that isn't what its source gives. Since each is by law, it can only be want of memory.
fn check_roms<'a>(alloc: Global, prepared: &Prepared) -> Result<(), Refusal<'a>>
    ensures { IfErr result (λ refusal. refusal ≡ NoMemory) }
{
    source_gives_rom();
    sources_give_roms();
    match compare_roms(alloc, prepared) {
        Ok(()) => Ok(()),
        Err(ImageFault::NoMemory) => Err(Refusal::NoMemory),
        Err(fault) => Err(Refusal::Rom(fault)),
    }
}

/// Opens what the words ask for, and compares its ROMs.
fn open_compared<'a, F: Files>(
    alloc: Global,
    words: &'a [String],
    files: &mut F,
) -> Result<Prepared, Refusal<'a>>
    ensures { OpensWords (map string_bytes words.entry.now) (F.meaning files.old) (F.meaning files.new) result }
{
    let prepared = open(alloc, words, files)?;
    check_roms(alloc, &prepared)?;
    Ok(prepared)
}

/// Finishes what was opened, or reports why nothing was.
fn end<O: Sink, E: Sink>(
    alloc: Global,
    opened: Result<Prepared, Refusal<'_>>,
    out: &mut O,
    err: &mut E,
) -> Status
    requires { IfOk opened IsReady }
    ensures { FinishAnswers opened.entry (O.meaning out.old) (O.meaning out.new) (E.meaning err.old) (E.meaning err.new) result }
{
    match opened {
        Ok(prepared) => finish(prepared, out, err),
        Err(refusal) => put_refusal(alloc, err, &refusal),
    }
}

/// The law of every call: whoever opens what the words ask for, and then finishes what was opened, or reports why nothing was, keeps what the program
/// promises.
pub fn every_call()
    ensures { EveryCall }
{
    every_run();
    every_start();
    every_time();
    every_frame();
    least_bounds();
    file_may_start();
    saved_joins();
    goes_on_behind();
    accepted_leaves();
    certified_games();
    every_schedule();
    source_gives_rom();
    sources_give_roms();
    refused_by_rule();
}

/// Runs the program on its words, as `vip_main` does, without the comparison of the ROMs with their sources: by the law of `chip8_source` it finds nothing, and
/// nearly all the time of a short run is that of assembling a source. It is for a caller that runs the program often.
pub fn run_words<F: Files, O: Sink, E: Sink>(
    alloc: Global,
    words: &[String],
    files: &mut F,
    out: &mut O,
    err: &mut E,
) -> Status
    ensures { Promises result (call_of (map string_bytes words.now) (F.meaning files.old) (F.meaning files.new) (O.meaning out.old) (O.meaning out.new) (E.meaning err.old) (E.meaning err.new)) }
{
    every_call();
    let opened = open(alloc, words, files);
    end(alloc, opened, out, err)
}

/// Runs the program on its words: opens what they ask for, compares the ROMs with their sources, and finishes, or reports a refusal. What it writes goes to
/// `out`, each piece by one put, and one line of report to `err` by one put; after a put that failed nothing more goes to that sink. The answer is the status
/// with which the process ends.
pub fn vip_main<F: Files, O: Sink, E: Sink>(
    alloc: Global,
    words: &[String],
    files: &mut F,
    out: &mut O,
    err: &mut E,
) -> Status
    ensures promises { Promises result (call_of (map string_bytes words.now) (F.meaning files.old) (F.meaning files.new) (O.meaning out.old) (O.meaning out.new) (E.meaning err.old) (E.meaning err.new)) }
    ensures finished { IsFinished (map string_bytes words.now) (F.meaning files.old) (F.meaning files.new) (O.meaning out.old) (O.meaning out.new) (E.meaning err.old) (E.meaning err.new) result }
{
    every_call();
    let opened = open_compared(alloc, words, files);
    end(alloc, opened, out, err)
}
