//! The opening of a request: its files are read and judged, and all the memory that its work needs is taken.

ghost use Rattle.std.specs.Prelude.{◌≡◌, ◌≤◌, length};
ghost use Rattle.vip_words.specs.Request.{asked_of, map_code};
ghost use Rattle.vip_tools.specs.Certificates.{SafeComes};
ghost use Rattle.vip_tools.specs.Code.{GameComes};
ghost use Rattle.vip_tools.specs.Files.{game_code, loaded_of, most_of, most_text, needed, AreFit, IsFit};
ghost use Rattle.vip_tools.specs.Judged.{bind};
ghost use Rattle.vip_tools.specs.Outcome.{Writes};
ghost use Rattle.vip_tools.specs.Work.{TextAnswers};
ghost use Rattle.vip_verbs.specs.Outcome.{built_in_text, own_text, HasOutcome, TextVerbComes};
ghost use Rattle.vip_verbs.specs.Prepared.{OpenAnswers, PrepareAnswers, checked, texted};

use crate::digest::digest;
use crate::linked::open_link;
use crate::opening::open_run;
use crate::prepared::Prepared;
use crate::program::{open_program, open_resumed};
use asm_listing::CheckText;
use chip8_lang::Edition;
use std::alloc::Global;
use vip_link::{receiver_text, sender_text};
use vip_outside::Files;
use vip_tools::{
    Refusal, asm, bounds, certify, check, cycles, dis, game, help, list, load, safe, source,
    timing, version, why,
};
use vip_words::{BuiltIn, Code, OwnText, Request, TextVerb};

/// A text, to be written.
fn write<'a>(alloc: Global, text: &[u8]) -> Result<Vec<u8>, Refusal<'a>>
    ensures { TextAnswers (Writes text.now) result }
{
    let copy = Vec::from_slice(alloc, text)?;
    Ok(copy)
}

/// A source that the program has in it.
fn built_in<'a>(alloc: Global, text: BuiltIn) -> Result<Vec<u8>, Refusal<'a>>
    ensures { TextAnswers (Writes (built_in_text text)) result }
{
    match text {
        BuiltIn::Interpreter(edition) => source(alloc, edition),
        BuiltIn::Sender => write(alloc, sender_text()),
        BuiltIn::Receiver => write(alloc, receiver_text()),
    }
}

/// Checks a certificate of a game by its code, which is assembled first where it is a source.
fn safe_code<'a>(
    alloc: Global,
    edition: Edition,
    code: Code<Vec<u8>>,
    certificate: &[u8],
) -> Result<Vec<u8>, Refusal<'a>>
    requires game { IsFit (game_code edition (map_code (λ bytes. bytes.items) code)) }
    requires certificate { length certificate.now ≤ most_text }
    ensures { TextAnswers (bind (GameComes edition (map_code (λ bytes. bytes.items) code)) (λ game. SafeComes edition game certificate.now)) result }
{
    let game = game(alloc, edition, code)?;
    safe(alloc, edition, game.as_slice(), certificate)
}

/// A verb that writes a text alone.
fn text<'a>(made: Result<Vec<u8>, Refusal<'a>>) -> Result<Prepared, Refusal<'a>>
    ensures { result ≡ texted made.entry }
{
    match made {
        Ok(text) => Ok(Prepared::Text(text)),
        Err(refusal) => Err(refusal),
    }
}

/// A source that was checked.
fn checked<'a>(told: Result<CheckText, Refusal<'a>>) -> Result<Prepared, Refusal<'a>>
    ensures { result ≡ checked told.entry }
{
    match told {
        Ok(told) => Ok(Prepared::Checked(told)),
        Err(refusal) => Err(refusal),
    }
}

/// A text of the program's own.
fn own_text<'a>(alloc: Global, text: OwnText) -> Result<Vec<u8>, Refusal<'a>>
    ensures { TextAnswers (Writes (own_text text)) result }
{
    match text {
        OwnText::Source(source) => built_in(alloc, source),
        OwnText::Bounds => bounds(alloc),
        OwnText::Help(verb) => help(alloc, verb),
        OwnText::Version => version(alloc),
        OwnText::Why(words) => why(alloc, words.as_slice()),
    }
}

/// A text that is made of a file.
fn open_text<'a>(alloc: Global, verb: TextVerb, file: &[u8]) -> Result<Prepared, Refusal<'a>>
    requires { length file.now ≤ most_of verb }
    ensures { PrepareAnswers (TextVerbComes verb file.now) result }
{
    match verb {
        TextVerb::Asm { isa, raw } => text(asm(alloc, isa, file, raw)),
        TextVerb::Check { name, isa } => checked(check(alloc, isa, name.as_slice(), file)),
        TextVerb::List { isa } => text(list(alloc, isa, file)),
        TextVerb::Dis { place } => text(dis(alloc, place.isa(), file, place.address())),
        TextVerb::Timing { entry, p, k } => text(timing(alloc, file, entry, p, k)),
        TextVerb::Digest { limit } => text(digest(alloc, limit, file)),
    }
}

/// Judges the contents of the files of a request, of which a saved state was judged when it was read.
fn prepare<'a>(alloc: Global, request: Request<Vec<u8>>) -> Result<Prepared, Refusal<'a>>
    requires { AreFit (needed (loaded_of request)) }
    ensures { PrepareAnswers (HasOutcome (loaded_of request)) result }
{
    match request {
        Request::Run(run) => open_run(alloc, run),
        Request::Program(run) => open_program(alloc, run),
        Request::Resumed(run) => open_resumed(alloc, run),
        Request::Link {
            message,
            moves,
            number,
        } => open_link(alloc, message.as_slice(), moves, number),
        Request::Text { verb, file } => open_text(alloc, verb, file.as_slice()),
        Request::Cycles {
            source,
            certificate,
            exits,
        } => text(cycles(alloc, source.as_slice(), certificate.as_slice(), exits)),
        Request::Safe {
            game,
            certificate,
            edition,
        } => text(safe_code(alloc, edition, game, certificate.as_slice())),
        Request::Certify { game, edition } => text(certify(alloc, edition, game)),
        Request::Own(own) => text(own_text(alloc, own)),
    }
}

/// Opens what is asked for: reads its files, in their order, up to the first that can't be read, is too large or is a saved state with a fault, and
/// judges their contents. What is then ready needs no more memory.
pub fn open<'a, F: Files>(
    alloc: Global,
    request: Request<&'a str>,
    files: &mut F,
) -> Result<Prepared, Refusal<'a>>
    ensures { OpenAnswers (asked_of request.entry) (F.meaning files.old) (F.meaning files.new) result }
{
    let request = load(alloc, files, request)?;
    prepare(alloc, request)
}
