//! How the program ends.

ghost use Rattle.std.specs.Prelude.{◌≡◌};
ghost use Rattle.vip_tools.specs.Status.{status_number};

/// The answers of the program.
#[derive(Clone, Copy)]
pub enum Status {
    /// The run reached its limit, or the work was done.
    Done,
    /// The run came to its stop point.
    Stopped,
    /// The words of the command line are refused.
    Usage,
    /// A file that the words name could not be read.
    ReadFault,
    /// A game has more bytes than the game memory of its edition.
    GameTooLarge,
    /// A key script has more than 1,048,576 bytes.
    ScriptTooLarge,
    /// A key script has a fault.
    BadScript,
    /// An assembler source has a fault.
    BadSource,
    /// The built-in source of the ROM has a fault.
    BadRomSource,
    /// The built-in source doesn't give the ROM.
    RomDiffers,
    /// Not all of the output or the report could be written.
    WriteFault,
    NoMemory,
    /// The debugger's commands have a fault.
    BadCommand,
    /// A file to assemble, list or disassemble has too many bytes.
    SourceTooLarge,
    /// The debugger's commands have more than 1,048,576 bytes.
    CommandsTooLarge,
    /// The file of a saved state has a fault.
    BadState,
    /// A run that is to be saved has no dispatch point.
    NoDispatch,
    /// A certificate of a routine's machine cycles has a fault.
    BadCertificate,
    /// A message has more than 3,000 bytes.
    MessageTooLarge,
    /// A certificate that a game never stops has a fault.
    BadProof,
    /// A certificate has more than 1,048,576 bytes.
    CertificateTooLarge,
    /// No certificate was found for a game, or for a routine.
    NoCertificate,
    /// A program in the ROM has more than 2,048 bytes.
    RomTooLarge,
    /// A program in the RAM has more than 4,096 bytes.
    RamTooLarge,
    /// A source gives a byte where no memory is.
    StrayByte,
    /// A list of games has more than 1,048,576 bytes.
    GamesTooLarge,
    /// A list of games has a fault.
    BadGames,
}

impl Status {
    /// The number that the process ends with.
    pub fn number(&self) -> u8
        ensures { result ≡ status_number self.now }
    {
        match self {
            Status::Done => 0,
            Status::Stopped => 1,
            Status::Usage => 2,
            Status::ReadFault => 3,
            Status::GameTooLarge => 4,
            Status::ScriptTooLarge => 5,
            Status::BadScript => 6,
            Status::BadSource => 7,
            Status::BadRomSource => 8,
            Status::RomDiffers => 9,
            Status::WriteFault => 10,
            Status::NoMemory => 11,
            Status::BadCommand => 12,
            Status::SourceTooLarge => 13,
            Status::CommandsTooLarge => 14,
            Status::BadState => 15,
            Status::NoDispatch => 16,
            Status::BadCertificate => 17,
            Status::MessageTooLarge => 18,
            Status::BadProof => 19,
            Status::CertificateTooLarge => 20,
            Status::NoCertificate => 21,
            Status::RomTooLarge => 22,
            Status::RamTooLarge => 23,
            Status::StrayByte => 24,
            Status::GamesTooLarge => 25,
            Status::BadGames => 26,
        }
    }
}
