//! The options that take no word.

ghost use Rattle.std.specs.Prelude.{◌≡◌};
ghost use Rattle.vip_words.specs.Rules.{flag_name};

/// An option that takes no word.
#[derive(Clone, Copy)]
pub enum Flag {
    At,
    Screen,
    Words,
    Tall,
    State,
    Raw,
    Chip8,
    Asm,
    Echo,
    Exits,
    Rom,
    Ram,
    Sender,
    Receiver,
    Source,
}

impl Flag {
    /// Its name, which the user writes behind `--`.
    pub fn name(self) -> &'static str
        ensures { result.now ≡ flag_name self }
    {
        match self {
            Flag::At => "at",
            Flag::Screen => "screen",
            Flag::Words => "words",
            Flag::Tall => "tall",
            Flag::State => "state",
            Flag::Raw => "raw",
            Flag::Chip8 => "chip8",
            Flag::Asm => "asm",
            Flag::Echo => "echo",
            Flag::Exits => "exits",
            Flag::Rom => "rom",
            Flag::Ram => "ram",
            Flag::Sender => "sender",
            Flag::Receiver => "receiver",
            Flag::Source => "source",
        }
    }
}
