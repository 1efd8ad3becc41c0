//! Why the program refuses a command.

ghost use Rattle.std.specs.Prelude.{◌≡◌};
ghost use Rattle.vip_tools.specs.Refusal.{status_of};

use crate::games::GameCause;
use crate::status::Status;
use asm_core::AsmCause;
use chip8_lang::Edition;
use chip8_source::ImageFault;
use cycle_check::{CertCause, TimingObstacle};
use game_check::{Obstacle, ProofCause};
use std::alloc::AllocError;
use vip_keypad::ScriptCause;
use vip_text::StateFault;
use vip_words::{CommandCause, EntryName};

/// Files that are limited in their size.
#[derive(Clone, Copy, Default)]
pub enum Kind {
    /// A game for the usual edition, at most 3,232 bytes.
    #[default]
    Game,
    /// A game for the tall edition, at most 2,976 bytes.
    TallGame,
    /// A key script, at most 1,048,576 bytes.
    Script,
    /// The commands of the debugger, at most 1,048,576 bytes.
    Commands,
    /// A source to assemble, at most 1,048,576 bytes, or bytes to disassemble, which have to end by address FFFF.
    Source,
    /// A certificate, at most 1,048,576 bytes.
    Certificate,
    /// A saved state, 4,147 bytes. A larger file is a faulty one, as a smaller one is.
    State,
    /// A saved state of a program, 6,195 bytes, of which the same holds.
    ProgramState,
    /// A message that one board sends to another, at most 3,000 bytes.
    Message,
    /// A program in the ROM, at most 2,048 bytes.
    Rom,
    /// A program in the RAM, at most 4,096 bytes.
    Ram,
    /// A list of games, at most 1,048,576 bytes.
    Games,
}

/// Why the bytes that a source gives can't be run.
#[derive(Clone, Copy)]
pub enum Misfit {
    /// No memory has this address, the least such one to which the source gives a byte.
    Stray(u16),
    /// The game has more bytes than this edition's game memory.
    Game(Edition),
}

/// Why no certificate of a routine was found.
#[derive(Drop)]
pub enum NoTiming {
    /// No line of the source gives the name of its entry a number.
    Undefined(EntryName),
    /// The search ended here.
    Obstacle(TimingObstacle),
}

/// A refusal: why a command isn't begun. One that only its run shows is a `PerformFault`.
#[derive(Drop)]
pub enum Refusal<'a> {
    /// The words of the command line.
    Usage,
    /// The file of this name could not be read.
    Unread(&'a str),
    /// A file has more bytes than its kind may have.
    TooLarge(Kind),
    /// The first fault of the key script, in this line, counted from 1.
    Script { line: u32, cause: ScriptCause },
    /// The first fault of the debugger's commands, in this line, counted from 1.
    Command { line: u32, cause: CommandCause },
    /// The first fault of the source, in this line, counted from 1.
    Source { line: u32, cause: AsmCause },
    /// What the source gives can't be run.
    Misfit(Misfit),
    /// The first fault of the file of a saved state.
    State(StateFault),
    /// The built-in source doesn't give the ROM.
    Rom(ImageFault),
    /// The first fault of a certificate of cycles, in this line, counted from 1.
    Certificate { line: u32, cause: CertCause },
    /// The first fault of a game's certificate, in this line, counted from 1.
    Proof { line: u32, cause: ProofCause },
    /// The first fault of a list of games, in this line, counted from 1.
    Games { line: u32, cause: GameCause },
    /// No certificate was found for a game: the search ended here.
    NoCertificate(Obstacle),
    /// No certificate was found for a routine.
    NoTiming(NoTiming),
    NoMemory,
}

impl Refusal<'_> {
    /// The status that says so.
    pub fn status(&self) -> Status
        ensures { result ≡ status_of self.now }
    {
        match self {
            Refusal::Usage => Status::Usage,
            Refusal::Unread(_) => Status::ReadFault,
            Refusal::TooLarge(Kind::Game | Kind::TallGame) | Refusal::Misfit(Misfit::Game(_)) => {
                Status::GameTooLarge
            }
            Refusal::TooLarge(Kind::Script) => Status::ScriptTooLarge,
            Refusal::TooLarge(Kind::Commands) => Status::CommandsTooLarge,
            Refusal::TooLarge(Kind::Source) => Status::SourceTooLarge,
            Refusal::TooLarge(Kind::Certificate) => Status::CertificateTooLarge,
            Refusal::TooLarge(Kind::State | Kind::ProgramState) | Refusal::State(_) => {
                Status::BadState
            }
            Refusal::TooLarge(Kind::Message) => Status::MessageTooLarge,
            Refusal::TooLarge(Kind::Rom) => Status::RomTooLarge,
            Refusal::TooLarge(Kind::Ram) => Status::RamTooLarge,
            Refusal::TooLarge(Kind::Games) => Status::GamesTooLarge,
            Refusal::Script { .. } => Status::BadScript,
            Refusal::Command { .. } => Status::BadCommand,
            Refusal::Source { .. } => Status::BadSource,
            Refusal::Misfit(Misfit::Stray(_)) => Status::StrayByte,
            Refusal::Rom(ImageFault::BadRomSource { .. }) => Status::BadRomSource,
            Refusal::Rom(ImageFault::RomDiffers { .. }) => Status::RomDiffers,
            Refusal::Certificate { .. } => Status::BadCertificate,
            Refusal::Proof { .. } => Status::BadProof,
            Refusal::Games { .. } => Status::BadGames,
            Refusal::NoCertificate(_) | Refusal::NoTiming(_) => Status::NoCertificate,
            Refusal::NoMemory | Refusal::Rom(ImageFault::NoMemory) => Status::NoMemory,
        }
    }
}

impl From<AllocError> for Refusal<'_> {
    ghost use Rattle.std.specs.Prelude.{◌≡◌};
    ghost use Rattle.vip_tools.specs.declared.refusal.Refusal.TheVariants.{NoMemory};

    ghost from_gives = { λ _ refusal. refusal ≡ NoMemory };

    fn from(_error: AllocError) -> Self {
        Refusal::NoMemory
    }
}
