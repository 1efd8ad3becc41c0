//! The reports on the error output, each a line that goes out by one put.

ghost use Rattle.std.specs.Prelude.{◌≡◌, ◌++◌, [], codes, IfOk, OnOk};
ghost use Rattle.std.specs.List.{flat_map};
ghost use Rattle.chip8_lang.specs.State.{memory_size};
ghost use Rattle.vip_outside.specs.Pieces.{StreamAnswers};
ghost use Rattle.vip_outside.specs.Sink.{PutAnswers};
ghost use Rattle.vip_tools.specs.Report.{ended_report, fault_report, report_pieces, at_line, bad_state, done, image_report, larger_than, misfit_report, linked_report, no_certificate, report_of, rom_differs, too_large_report, no_timing};
ghost use Rattle.vip_tools.specs.Reported.{RefusalAnswers};
ghost use Rattle.vip_tools.specs.declared.refusal.NoTiming.TheVariants as why;

use crate::ended::Ended;
use crate::fault::PerformFault;
use crate::files::{MOST_MESSAGE, RAM, ROM};
use crate::obstacle::obstacle_text;
use crate::refusal::{Kind, Misfit, NoTiming, Refusal};
use crate::status::Status;
use chip8_lang::Edition;
use chip8_source::ImageFault;
use cycle_check::TimingObstacle;
use game_check::Obstacle;
use itoa::Buffer as Digits;
use std::alloc::{AllocError, Global};
use vip_byte::{Buffer, MOST_TEXT, hex2, hex4, put, put_number};
use vip_outside::{Failed, Sink};
use vip_text::{RunEnd, StateFault, idle_text, stop_text};

/// Appends these parts.
pub fn append(text: &mut Vec<u8>, parts: &[&[u8]]) -> Result<(), AllocError>
    ensures { OnOk result (text.new.items ≡ text.old.items ++ flat_map (λ part. part.now) parts.now) }
{
    for part in parts {
        text.extend_from_slice(part)?;
    }
    Ok(())
}

/// A line of these parts.
pub(crate) fn line(alloc: Global, parts: &[&[u8]]) -> Result<Vec<u8>, AllocError>
    ensures { IfOk result (λ line. line.items ≡ flat_map (λ part. part.now) parts.now) }
{
    let mut line = Vec::new(alloc);
    append(&mut line, parts)?;
    Ok(line)
}

/// The number of a line and what is wrong with it.
fn at_line(alloc: Global, text: &[u8], number: u32, cause: &str) -> Result<Vec<u8>, AllocError>
    ensures { IfOk result (λ line. line.items ≡ at_line text.now number cause.now) }
{
    let mut digits = Digits::new();
    let number = digits.format(number).as_bytes();
    line(alloc, &[text, number, b": ", cause.as_bytes(), b"\n"])
}

/// The first fault of a state file.
fn bad_state(alloc: Global, fault: StateFault) -> Result<Vec<u8>, AllocError>
    ensures { IfOk result (λ line. line.items ≡ bad_state fault) }
{
    let name = fault.name().as_bytes();
    line(alloc, &[b"vip: state file: ", name, b"\n"])
}

/// More bytes than so many.
fn larger(alloc: Global, text: &[u8], most: usize) -> Result<Vec<u8>, AllocError>
    ensures { IfOk result (λ line. line.items ≡ larger_than text.now most) }
{
    let mut digits = Digits::new();
    line(alloc, &[text, digits.format(most).as_bytes(), b" bytes\n"])
}

/// More bytes than the game memory of an edition has.
fn game_larger(alloc: Global, edition: Edition) -> Result<Vec<u8>, AllocError>
    ensures { IfOk result (λ line. line.items ≡ larger_than (codes "vip: game larger than ") (memory_size edition)) }
{
    larger(
        alloc,
        b"vip: game larger than ",
        usize::from(edition.memory_size()),
    )
}

/// Why the bytes that a source gives can't be run.
fn misfit_text(alloc: Global, misfit: Misfit) -> Result<Vec<u8>, AllocError>
    ensures { IfOk result (λ line. line.items ≡ misfit_report misfit) }
{
    match misfit {
        Misfit::Stray(address) => {
            let address = hex4(address);
            line(
                alloc,
                &[b"vip: source gives ", &address, b", where no memory is\n"],
            )
        }
        Misfit::Game(edition) => game_larger(alloc, edition),
    }
}

/// More bytes than a file of this kind may have.
fn too_large(alloc: Global, kind: Kind) -> Result<Vec<u8>, AllocError>
    ensures { IfOk result (λ line. line.items ≡ too_large_report kind) }
{
    match kind {
        Kind::Game => game_larger(alloc, Edition::Usual),
        Kind::TallGame => game_larger(alloc, Edition::Tall),
        Kind::Script => larger(alloc, b"vip: key script larger than ", MOST_TEXT),
        Kind::Commands => larger(alloc, b"vip: commands larger than ", MOST_TEXT),
        Kind::Source => line(alloc, &[b"vip: source too large\n"]),
        Kind::Certificate => larger(alloc, b"vip: certificate larger than ", MOST_TEXT),
        Kind::State | Kind::ProgramState => bad_state(alloc, StateFault::BadLength),
        Kind::Message => larger(alloc, b"vip: message larger than ", MOST_MESSAGE),
        Kind::Rom => larger(alloc, b"vip: rom larger than ", ROM),
        Kind::Ram => larger(alloc, b"vip: program larger than ", RAM),
        Kind::Games => larger(alloc, b"vip: games larger than ", MOST_TEXT),
    }
}

/// The first byte of the ROM that its source doesn't give.
fn difference(alloc: Global, address: u16, assembled: u8, image: u8) -> Result<Vec<u8>, AllocError>
    ensures { IfOk result (λ line. line.items ≡ rom_differs address assembled image) }
{
    let (address, assembled, image) = (hex4(address), hex2(assembled), hex2(image));
    let source: &[u8] = b": source ";
    line(
        alloc,
        &[
            b"vip: rom differs at ",
            &address,
            source,
            &assembled,
            b" image ",
            &image,
            b"\n",
        ],
    )
}

/// Why the built-in source doesn't give the ROM.
fn image_fault(alloc: Global, fault: ImageFault) -> Result<Vec<u8>, AllocError>
    ensures { IfOk result (λ line. line.items ≡ image_report fault) }
{
    match fault {
        ImageFault::BadRomSource { line, cause } => {
            at_line(alloc, b"vip: rom source line ", line, cause.name())
        }
        ImageFault::RomDiffers {
            address,
            assembled,
            image,
        } => difference(alloc, address, assembled, image),
        ImageFault::NoMemory => line(alloc, &[NO_MEMORY]),
    }
}

/// Where the search for a certificate ended.
fn obstacle(alloc: Global, obstacle: &Obstacle) -> Result<Vec<u8>, AllocError>
    ensures { IfOk result (λ line. line.items ≡ no_certificate obstacle.now) }
{
    let mut text = Buffer::new();
    obstacle_text(obstacle, &mut text);
    line(alloc, &[text.as_slice()])
}

/// Where the search for a routine's certificate ended.
fn routine_obstacle(alloc: Global, obstacle: &TimingObstacle) -> Result<Vec<u8>, AllocError>
    ensures { IfOk result (λ line. line.items ≡ no_timing (why.Obstacle obstacle.now)) }
{
    let mut text = Buffer::new();
    obstacle.put(&mut text);
    line(alloc, &[b"vip: no certificate: ", text.as_slice()])
}

/// Why no certificate of a routine was found.
fn no_timing(alloc: Global, why: &NoTiming) -> Result<Vec<u8>, AllocError>
    ensures { IfOk result (λ line. line.items ≡ no_timing why.now) }
{
    match why {
        NoTiming::Undefined(name) => line(
            alloc,
            &[b"vip: no certificate: Undefined ", name.as_slice(), b"\n"],
        ),
        NoTiming::Obstacle(obstacle) => routine_obstacle(alloc, obstacle),
    }
}

/// The report of want of memory.
const NO_MEMORY: &[u8] = b"vip: no memory\n";

/// The report of a refusal.
fn refusal_line(alloc: Global, refusal: &Refusal<'_>) -> Result<Vec<u8>, AllocError>
    ensures { IfOk result (λ line. line.items ≡ report_of refusal.now) }
{
    match refusal {
        Refusal::Usage => line(
            alloc,
            &[b"usage: vip trace, play, debug, demo, asm, list, dis or bounds\n"],
        ),
        Refusal::Unread(name) => line(alloc, &[b"vip: cannot read ", name.as_bytes(), b"\n"]),
        Refusal::TooLarge(kind) => too_large(alloc, *kind),
        Refusal::Script { line, cause } => {
            at_line(alloc, b"vip: key script line ", *line, cause.name())
        }
        Refusal::Command { line, cause } => {
            at_line(alloc, b"vip: commands line ", *line, cause.name())
        }
        Refusal::Source { line, cause } => {
            at_line(alloc, b"vip: source line ", *line, cause.name())
        }
        Refusal::Misfit(misfit) => misfit_text(alloc, *misfit),
        Refusal::State(fault) => bad_state(alloc, *fault),
        Refusal::Rom(fault) => image_fault(alloc, *fault),
        Refusal::Certificate { line, cause } => {
            at_line(alloc, b"vip: certificate line ", *line, cause.name())
        }
        Refusal::Proof { line, cause } => {
            at_line(alloc, b"vip: proof line ", *line, cause.name())
        }
        Refusal::Games { line, cause } => {
            at_line(alloc, b"vip: games line ", *line, cause.name())
        }
        Refusal::NoCertificate(found) => obstacle(alloc, found),
        Refusal::NoTiming(why) => no_timing(alloc, why),
        Refusal::NoMemory => line(alloc, &[NO_MEMORY]),
    }
}

/// Reports a refusal by one put, and answers its status. Where no memory is found for the report, it is want of memory that is reported and answered.
pub fn put_refusal<S: Sink>(alloc: Global, sink: &mut S, refusal: &Refusal<'_>) -> Status
    ensures { RefusalAnswers refusal.now (S.meaning sink.old) (S.meaning sink.new) result }
{
    match refusal_line(alloc, refusal) {
        Ok(line) => {
            let _ = sink.put(line.as_slice());
            refusal.status()
        }
        Err(AllocError) => {
            let _ = sink.put(NO_MEMORY);
            Status::NoMemory
        }
    }
}

/// Reports by one put why a verb that was opened came to no end.
pub fn put_fault<S: Sink>(sink: &mut S, fault: PerformFault) -> Result<(), Failed>
    ensures { PutAnswers (fault_report fault) (S.meaning sink.old) (S.meaning sink.new) result }
{
    match fault {
        PerformFault::NoDispatch => sink.put(b"vip: no dispatch point\n"),
        PerformFault::WriteFault => sink.put(b"vip: write fault\n"),
    }
}

/// Writes that a run reached its limit into an empty buffer.
fn done_text(limit: u64, into: &mut Buffer)
    requires { into.old.items ≡ [] }
    ensures { into.new.items ≡ done limit }
{
    put(into, b"done ");
    put_number(into, limit);
    put(into, b"\n");
}

/// Writes how many bytes of a message were sent and received into an empty buffer.
fn linked_text(sent: u32, received: u32, into: &mut Buffer)
    requires { into.old.items ≡ [] }
    ensures { into.new.items ≡ linked_report sent received }
{
    put(into, b"linked sent ");
    put_number(into, u64::from(sent));
    put(into, b" received ");
    put_number(into, u64::from(received));
    put(into, b"\n");
}

/// Writes the report of how a command ended into an empty buffer: nothing where a text alone was written.
pub fn end_text(ended: &Ended, into: &mut Buffer)
    requires { into.old.items ≡ [] }
    ensures { into.new.items ≡ ended_report ended.now }
{
    match ended {
        Ended::Worked | Ended::Checked { .. } => {}
        Ended::Ran(limit, RunEnd::AtLimit) => done_text(limit.cycles(), into),
        Ended::Ran(_, RunEnd::AtStop(stop)) => stop_text(stop, into),
        Ended::Idle(address) => idle_text(*address, into),
        Ended::Linked { sent, received } => linked_text(*sent, *received, into),
    }
}

/// Reports how a command ended by one put, or by none where it has no report.
pub fn put_end<S: Sink>(sink: &mut S, ended: &Ended) -> Result<(), Failed>
    ensures { StreamAnswers (report_pieces (ended_report ended.now)) (S.meaning sink.old) (S.meaning sink.new) result }
{
    let mut text = Buffer::new();
    end_text(ended, &mut text);
    let line = text.as_slice();
    if line.is_empty() {
        return Ok(());
    }
    sink.put(line)
}
