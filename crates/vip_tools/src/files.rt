//! The files that a verb reads, each by its kind, and how one of them is read.

ghost use Rattle.std.specs.Prelude.{◌≡◌, ◌<◌, ◌+◌, ◌-◌, ℕ, slice_index};
ghost use Rattle.asm_lex.specs.Ranges.{last_of};
ghost use Rattle.vip_words.specs.Request.{code_of};
ghost use Rattle.vip_tools.specs.declared.refusal.Kind.TheVariants.{Games, Source};
ghost use Rattle.vip_tools.specs.Files.{certificate_file, code_file, commands_file, file, game_code, game_kind, message_file, most_text, program_code, program_state_file, script_file, seen_wanted, source_file, state_file, text_file, FileAnswers, JudgeAnswers};

use crate::{Kind, Refusal};
use asm_lex::Isa;
use chip8_lang::Edition;
use std::alloc::Global;
use vip_byte::MOST_TEXT;
use vip_outside::{Files, ReadFail};
use vip_text::state_file::{SIZE, check_state};
use vip_text::{StateFault, program_file};
use vip_words::{Code, Memory, Place, TextVerb};

/// The most bytes of a message.
pub const MOST_MESSAGE: usize = 3_000;

/// The bytes of the ROM, and of the RAM.
pub const ROM: usize = 2_048;

pub const RAM: usize = 4_096;

/// A file that a verb reads, with the most bytes that it may have.
#[derive(Clone, Copy)]
pub(crate) struct Wanted<'a> {
    name: &'a str,
    most: usize,
    kind: Kind,
}

/// What the game of an edition is, where it is refused.
pub fn game_kind(edition: Edition) -> Kind
    ensures { result ≡ game_kind edition }
{
    match edition {
        Edition::Usual => Kind::Game,
        Edition::Tall => Kind::TallGame,
    }
}

/// The file of code: bytes of this kind, or a source that gives them.
fn code_file<'a>(kind: Kind, most: usize, code: &Code<&'a str>) -> Wanted<'a>
    ensures { seen_wanted result ≡ code_file kind most (code_of code.now) }
{
    match code {
        Code::Bytes(name) => Wanted {
            name: *name,
            most,
            kind,
        },
        Code::Source { file, .. } => source_file(*file),
    }
}

/// A game, which has to fit into its edition's game memory, or its source.
pub(crate) fn game_code<'a>(edition: Edition, code: &Code<&'a str>) -> Wanted<'a>
    ensures { seen_wanted result ≡ game_code edition (code_of code.now) }
{
    code_file(game_kind(edition), usize::from(edition.memory_size()), code)
}

/// A saved state.
pub(crate) fn state_file<'a>(name: &'a str) -> Wanted<'a>
    ensures { seen_wanted result ≡ state_file name.now }
{
    Wanted {
        name,
        most: SIZE,
        kind: Kind::State,
    }
}

/// A saved state of a program.
pub(crate) fn program_state_file<'a>(name: &'a str) -> Wanted<'a>
    ensures { seen_wanted result ≡ program_state_file name.now }
{
    Wanted {
        name,
        most: program_file::SIZE,
        kind: Kind::ProgramState,
    }
}

/// A message that one board sends to another.
pub(crate) fn message_file<'a>(name: &'a str) -> Wanted<'a>
    ensures { seen_wanted result ≡ message_file name.now }
{
    Wanted {
        name,
        most: MOST_MESSAGE,
        kind: Kind::Message,
    }
}

/// A program, which has to fit into its memory, or its source.
pub(crate) fn program_code<'a>(memory: Memory, code: &Code<&'a str>) -> Wanted<'a>
    ensures { seen_wanted result ≡ program_code memory (code_of code.now) }
{
    let (most, kind) = match memory {
        Memory::Rom => (ROM, Kind::Rom),
        Memory::Ram => (RAM, Kind::Ram),
    };
    code_file(kind, most, code)
}

/// The debugger's commands.
pub(crate) fn commands_file<'a>(name: &'a str) -> Wanted<'a>
    ensures { seen_wanted result ≡ commands_file name.now }
{
    Wanted {
        name,
        most: MOST_TEXT,
        kind: Kind::Commands,
    }
}

/// A key script.
pub(crate) fn script_file<'a>(name: &'a str) -> Wanted<'a>
    ensures { seen_wanted result ≡ script_file name.now }
{
    Wanted {
        name,
        most: MOST_TEXT,
        kind: Kind::Script,
    }
}

/// A source to assemble.
pub(crate) fn source_file<'a>(name: &'a str) -> Wanted<'a>
    ensures { seen_wanted result ≡ source_file name.now }
{
    Wanted {
        name,
        most: MOST_TEXT,
        kind: Kind::Source,
    }
}

/// What follows the highest address of an instruction set's programs.
fn end_of(isa: Isa) -> usize
    ensures { result ≡ last_of isa + 1 }
{
    match isa {
        Isa::Cdp1802 => 0x1_0000,
        Isa::Chip8 => 0x1000,
    }
}

/// Bytes to disassemble, the first of which lies at an address: they have to end at the highest one of the instruction set's programs at the latest.
fn bytes_file<'a>(place: Place, name: &'a str) -> Wanted<'a>
    ensures { seen_wanted result ≡ file Source (last_of place.isa + 1 - place.address) name.now }
{
    Wanted {
        name,
        most: end_of(place.isa()).saturating_sub(usize::from(place.address())),
        kind: Kind::Source,
    }
}

/// A list of games.
fn games_file<'a>(name: &'a str) -> Wanted<'a>
    ensures { seen_wanted result ≡ file Games most_text name.now }
{
    Wanted {
        name,
        most: MOST_TEXT,
        kind: Kind::Games,
    }
}

/// The file of which a text is made.
pub(crate) fn text_file<'a>(verb: &TextVerb, name: &'a str) -> Wanted<'a>
    ensures { seen_wanted result ≡ text_file verb.now name.now }
{
    match verb {
        TextVerb::Dis { place } => bytes_file(*place, name),
        TextVerb::Digest { .. } => games_file(name),
        _ => source_file(name),
    }
}

/// A certificate.
pub(crate) fn certificate_file<'a>(name: &'a str) -> Wanted<'a>
    ensures { seen_wanted result ≡ certificate_file name.now }
{
    Wanted {
        name,
        most: MOST_TEXT,
        kind: Kind::Certificate,
    }
}

/// What its type says of a slice: its numbers are bytes. That is known of a parameter, not of a `Vec` that a read gave.
pub(crate) fn are_bytes(bytes: &[u8])
    ensures { (i : ℕ) → slice_index bytes.now i < 256 }
{}

/// Judges a file before the next one is read: a saved state, which has to be accepted. Files of the other kinds are judged once all are read.
fn judge(kind: Kind, content: &[u8]) -> Result<(), StateFault>
    ensures { JudgeAnswers kind content.now result }
{
    match kind {
        Kind::State => match check_state(content) {
            Ok(_) => Ok(()),
            Err(fault) => Err(fault),
        },
        Kind::ProgramState => program_file::check_program(content),
        _ => Ok(()),
    }
}

/// Reads one file whole, and judges it.
pub(crate) fn open_file<'a, F: Files>(
    alloc: Global,
    files: &mut F,
    wanted: &Wanted<'a>,
) -> Result<Vec<u8>, Refusal<'a>>
    ensures { FileAnswers (F.meaning files.old) (F.meaning files.new) (seen_wanted wanted.now) result }
{
    match files.read(alloc, wanted.name, wanted.most) {
        Ok(loaded) if loaded.more => Err(Refusal::TooLarge(wanted.kind)),
        Ok(loaded) => {
            let content = loaded.bytes.as_slice();
            are_bytes(content);
            match judge(wanted.kind, content) {
                Ok(()) => Ok(loaded.bytes),
                Err(fault) => Err(Refusal::State(fault)),
            }
        }
        Err(ReadFail::NoMemory) => Err(Refusal::NoMemory),
        Err(_) => Err(Refusal::Unread(wanted.name)),
    }
}
