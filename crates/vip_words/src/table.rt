//! The table of the verbs.

ghost use Rattle.std.specs.Prelude.{◌≡◌, ◌≤◌, IsTrue, bytes_eq, find, length, map};
ghost use Rattle.std.specs.List.{list_all};
ghost use Rattle.vip_words.specs.Rules.{is_option};
ghost use Rattle.vip_words.specs.Table.{about, is_why, notes, places_of, row, verb_of, with_value};

/// What the program is asked to do.
#[derive(Clone, Copy, Drop)]
pub enum Verb {
    Trace,
    Play,
    Debug,
    Save,
    Profile,
    Resume,
    Demo,
    Digest,
    Link,
    Asm,
    Check,
    List,
    Dis,
    Source,
    Bounds,
    Cycles,
    Timing,
    Safe,
    Certify,
    Help,
    Version,
    Why,
}

/// The verbs, in the order of their page.
pub const VERBS: [Verb; 22] = [
    Verb::Trace,
    Verb::Play,
    Verb::Debug,
    Verb::Save,
    Verb::Profile,
    Verb::Resume,
    Verb::Demo,
    Verb::Digest,
    Verb::Link,
    Verb::Asm,
    Verb::Check,
    Verb::List,
    Verb::Dis,
    Verb::Source,
    Verb::Bounds,
    Verb::Cycles,
    Verb::Timing,
    Verb::Safe,
    Verb::Certify,
    Verb::Help,
    Verb::Version,
    Verb::Why,
];

/// A row of the table: a verb, what may follow it, and what is said of it.
#[derive(Clone, Copy)]
pub struct Row {
    /// The verb, spelled as the user writes it.
    pub name: &'static str,
    /// The names of the positional words that follow it.
    pub words: &'static [&'static str],
    /// Whether they may be left out.
    pub may_stand_alone: bool,
    /// Its options, spelled as the user writes them.
    pub options: &'static [&'static str],
    /// What it writes.
    pub writes: &'static str,
    /// A command that stands where the example files are.
    pub example: &'static str,
    /// The pages in `docs/` that explain the texts.
    pub texts: &'static str,
    ghost few_words: { length words.now ≤ 4 },
    ghost known_options: { IsTrue (list_all (λ option. is_option option.now) options.now) },
}

/// What may follow a verb that stands alone or not.
#[derive(Clone, Copy)]
pub struct Usage {
    /// How many positional words follow it.
    pub places: usize,
    /// Its options, spelled as the user writes them.
    pub options: &'static [&'static str],
    ghost few_places: { places ≤ 4 },
    ghost known_options: { IsTrue (list_all (λ option. is_option option.now) options.now) },
}

impl Row {
    ghost use Rattle.vip_words.specs.Usage.{row_of};

    /// What may follow the verb where it stands alone, or where it doesn't.
    pub fn usage(&self, is_alone: bool) -> Usage
        ensures places { result.places ≡ places_of (row_of self.now) is_alone }
        ensures options { result.options ≡ self.now.options }
    {
        let places = if is_alone && self.may_stand_alone {
            0
        } else {
            self.words.len()
        };
        Usage {
            places,
            options: self.options,
        }
    }
}

impl Verb {
    ghost use Rattle.vip_words.specs.Usage.{row_of};

    /// The verb that a word spells, or nothing where it spells none.
    pub fn of(word: &str) -> Option<Verb>
        ensures { result ≡ verb_of word.now }
    {
        VERBS.iter().copied().find(|verb| word == verb.name())
    }

    /// Whether it is the one whose words are explained, and not judged.
    pub fn is_why(self) -> bool
        ensures { result ≡ is_why self }
    {
        matches!(self, Verb::Why)
    }

    /// Its row of the table.
    pub fn row(self) -> Row
        ensures { row_of result ≡ row self }
    {
        Row {
            name: self.name(),
            words: self.words(),
            may_stand_alone: self.may_stand_alone(),
            options: self.options(),
            writes: self.writes(),
            example: self.example(),
            texts: self.texts(),
        }
    }

    /// Further lines of its page: its files, the debugger's commands, the unit of CYCLES, and the
    /// exit statuses.
    pub fn notes(self) -> &'static [&'static str]
        ensures { map (λ line. line.now) result.now ≡ notes self }
    {
        match self {
            Verb::Trace | Verb::Play | Verb::Profile => &[
                "GAME is a game's bytes, with --state a saved state, and with --rom or --ram a",
                "program for the processor. With --asm it is a source: CHIP-8 assembly of a",
                "game, or 1802 assembly of a program.",
                "CYCLES counts machine cycles from reset: 3,668 in a frame and 220,080 in a",
                "second, which has 60 frames.",
                "Exit status: 0 success; 1 the game stopped; 2 wrong arguments; 3 to 26 another",
                "error, which the message names. STATUSES.md lists them.",
            ],
            Verb::Debug => &[
                "GAME is a game's bytes, with --state a saved state, and with --rom or --ram a",
                "program for the processor. With --asm it is a source: CHIP-8 assembly of a",
                "game, or 1802 assembly of a program.",
                "With --state and --rom or --ram it is a saved state of a program.",
                "COMMANDS has one command per line. A is an address or, with --asm, a name:",
                "  step N     makes N moves",
                "  to C       runs to cycle C",
                "  at A       runs until the next instruction is at A",
                "  watch A N  runs until one of the N bytes from A on changes",
                "  next N     runs to the N-th next dispatch point",
                "  break A    runs to the next dispatch point whose pc is A",
                "  regs       prints the registers of the processor",
                "  state      prints the state at the last dispatch point",
                "  mem A N    prints N bytes from A on",
                "  dis A N    prints N lines of the disassembly from A on",
                "  list A N   prints N instructions of the processor from A on",
                "  screen     prints the screen at the last dispatch point",
                "  code A N   prints N opcodes of CHIP-8 from A on",
                "At a dispatch point the interpreter is about to fetch an opcode. There are",
                "none with --rom or --ram, so next, break, state, screen and code are not",
                "available.",
                "CYCLES counts machine cycles from reset: 3,668 in a frame and 220,080 in a",
                "second, which has 60 frames.",
                "Exit status: 0 success; 1 the game stopped; 2 wrong arguments; 3 to 26 another",
                "error, which the message names. STATUSES.md lists them.",
            ],
            Verb::Save => &[
                "GAME is a game's bytes, with --state a saved state, and with --rom or --ram a",
                "program for the processor. With --asm it is a source: CHIP-8 assembly of a",
                "game, or 1802 assembly of a program.",
                "With --state and --rom or --ram it is a saved state of a program.",
                "CYCLES counts machine cycles from reset: 3,668 in a frame and 220,080 in a",
                "second, which has 60 frames.",
                "Exit status: 0 success; 1 the game stopped; 2 wrong arguments; 3 to 26 another",
                "error, which the message names. STATUSES.md lists them.",
            ],
            Verb::Resume => &[
                "STATE is a file that save wrote.",
                "CYCLES counts machine cycles from reset: 3,668 in a frame and 220,080 in a",
                "second, which has 60 frames.",
                "Exit status: 0 success; 1 the game stopped; 2 wrong arguments; 3 to 26 another",
                "error, which the message names. STATUSES.md lists them.",
            ],
            Verb::Demo | Verb::Digest => &[
                "CYCLES counts machine cycles from reset: 3,668 in a frame and 220,080 in a",
                "second, which has 60 frames.",
                "Exit status: 0 success; 2 wrong arguments; 3 to 26 another error, which the",
                "message names. STATUSES.md lists them.",
            ],
            Verb::Check => &[
                "Exit status: 0 no error in the source; 7 an error in it; 2 wrong arguments;",
                "3 to 26 another error, which the message names. STATUSES.md lists them.",
            ],
            Verb::Timing => &[
                "FILE is a source in 1802 assembly. ENTRY is a name or an address of a routine",
                "in the ROM, from 8000 to 87FF. P and K are its program counter and its",
                "counter, each a register given by one hexadecimal digit.",
                "Exit status: 0 success; 2 wrong arguments; 3 to 26 another error, which the",
                "message names. STATUSES.md lists them.",
            ],
            Verb::Safe | Verb::Certify => &[
                "GAME is a game's bytes or, with --asm, its source in CHIP-8 assembly.",
                "Exit status: 0 success; 2 wrong arguments; 3 to 26 another error, which the",
                "message names. STATUSES.md lists them.",
            ],
            _ => &[
                "Exit status: 0 success; 2 wrong arguments; 3 to 26 another error, which the",
                "message names. STATUSES.md lists them.",
            ],
        }
    }

    /// The verb, spelled as the user writes it.
    pub fn name(self) -> &'static str
        ensures { result.now ≡ (row self).name }
    {
        match self {
            Verb::Trace => "trace",
            Verb::Play => "play",
            Verb::Debug => "debug",
            Verb::Save => "save",
            Verb::Profile => "profile",
            Verb::Resume => "resume",
            Verb::Demo => "demo",
            Verb::Digest => "digest",
            Verb::Link => "link",
            Verb::Asm => "asm",
            Verb::Check => "check",
            Verb::List => "list",
            Verb::Dis => "dis",
            Verb::Source => "source",
            Verb::Bounds => "bounds",
            Verb::Cycles => "cycles",
            Verb::Timing => "timing",
            Verb::Safe => "safe",
            Verb::Certify => "certify",
            Verb::Help => "help",
            Verb::Version => "version",
            Verb::Why => "why",
        }
    }

    // The names of the positional words that follow it.
    fn words(self) -> &'static [&'static str]
        ensures names { map (λ word. word.now) result.now ≡ (row self).words }
        ensures few { length result.now ≤ 4 }
    {
        match self {
            Verb::Trace | Verb::Play | Verb::Save | Verb::Profile => &["GAME", "CYCLES"],
            Verb::Digest => &["FILE", "CYCLES"],
            Verb::Debug => &["GAME", "CYCLES", "COMMANDS"],
            Verb::Resume => &["STATE", "CYCLES"],
            Verb::Demo => &["NUMBER", "CYCLES"],
            Verb::Link => &["FILE", "MOVES", "NUMBER"],
            Verb::Asm | Verb::Check | Verb::List => &["FILE"],
            Verb::Dis => &["FILE", "AT"],
            Verb::Cycles => &["FILE", "CERT"],
            Verb::Timing => &["FILE", "ENTRY", "P", "K"],
            Verb::Safe => &["GAME", "CERT"],
            Verb::Certify => &["GAME"],
            Verb::Help => &["VERB"],
            Verb::Why => &["ARGUMENT.."],
            Verb::Source | Verb::Bounds | Verb::Version => &[],
        }
    }

    // Whether they may be left out.
    fn may_stand_alone(self) -> bool
        ensures { result ≡ (row self).may_stand_alone }
    {
        matches!(self, Verb::Help | Verb::Why)
    }

    // Its options, spelled as the user writes them.
    fn options(self) -> &'static [&'static str]
        ensures names { map (λ option. option.now) result.now ≡ (row self).options }
        ensures known { IsTrue (list_all (λ option. is_option option.now) result.now) }
    {
        match self {
            Verb::Trace => &[
                "--keys", "--at", "--screen", "--words", "--tall", "--state", "--asm", "--source",
                "--rom", "--ram",
            ],
            Verb::Play => &["--keys", "--tall", "--state", "--asm", "--rom", "--ram"],
            Verb::Profile => &[
                "--keys", "--tall", "--state", "--asm", "--source", "--rom", "--ram",
            ],
            Verb::Debug => &[
                "--keys", "--words", "--tall", "--state", "--asm", "--source", "--echo", "--rom",
                "--ram",
            ],
            Verb::Save => &["--keys", "--tall", "--state", "--asm", "--rom", "--ram"],
            Verb::Resume => &["--keys", "--at"],
            Verb::Asm => &["--raw", "--chip8"],
            Verb::Check | Verb::List | Verb::Dis => &["--chip8"],
            Verb::Source => &["--tall", "--sender", "--receiver"],
            Verb::Cycles => &["--exits"],
            Verb::Safe | Verb::Certify => &["--tall", "--asm"],
            Verb::Demo
            | Verb::Digest
            | Verb::Link
            | Verb::Bounds
            | Verb::Timing
            | Verb::Help
            | Verb::Version
            | Verb::Why => &[],
        }
    }

    // What it writes.
    fn writes(self) -> &'static str
        ensures { result.now ≡ (row self).writes }
    {
        match self {
            Verb::Trace => "one line per instruction of a run",
            Verb::Play => "every picture of a run",
            Verb::Debug => "the answers to debugger commands",
            Verb::Save => "the state of the machine as a file",
            Verb::Profile => "where a run spends its time",
            Verb::Resume => "the trace of a run resumed from a saved state",
            Verb::Demo => "a one-line summary of the run of a random game",
            Verb::Digest => "digests of the runs of a list of games",
            Verb::Link => "a message sent from one board to another",
            Verb::Asm => "the bytes of a source",
            Verb::Check => "every error of a source, with suggestions",
            Verb::List => "the listing of a source",
            Verb::Dis => "the disassembly of bytes",
            Verb::Source => "the source of the interpreter, or of a program that link runs",
            Verb::Bounds => "the most machine cycles that each opcode takes",
            Verb::Cycles => "whether a certificate of a routine holds",
            Verb::Timing => "a worst-case time certificate of a routine",
            Verb::Safe => "whether a certificate of a game holds",
            Verb::Certify => "a certificate that a game never stops",
            Verb::Help => "all verbs, or one verb with its options and an example",
            Verb::Version => "the name and the version",
            Verb::Why => "why arguments are rejected, or what they ask for",
        }
    }

    // A command that stands where the example files are.
    fn example(self) -> &'static str
        ensures { result.now ≡ (row self).example }
    {
        match self {
            Verb::Trace => "vip trace ball.ch8 600000 --at",
            Verb::Play => "vip play maze.ch8 600000 > maze.pbm",
            Verb::Debug => "vip debug count.ch8 99999 count.debug",
            Verb::Save => "vip save maze.ch8 300000 > maze.state",
            Verb::Profile => "vip profile maze.ch8 1000000",
            Verb::Resume => "vip resume maze.state 600000",
            Verb::Demo => "vip demo 0 1000000",
            Verb::Digest => "vip digest three.games 20000",
            Verb::Link => "vip link sum.keys 500000 7",
            Verb::Asm => "vip asm pen.asm --chip8 --raw > mine.ch8",
            Verb::Check => "vip check pen.asm --chip8",
            Verb::List => "vip list multiply.asm",
            Verb::Dis => "vip dis multiply.bin 0",
            Verb::Source => "vip source",
            Verb::Bounds => "vip bounds",
            Verb::Cycles => "vip cycles delay.asm delay.cert",
            Verb::Timing => "vip timing delay.asm delay 3 7",
            Verb::Safe => "vip safe maze.ch8 maze.cert",
            Verb::Certify => "vip certify maze.ch8 > maze.cert",
            Verb::Help => "vip help trace",
            Verb::Version => "vip version",
            Verb::Why => "vip why trace ball.ch8 --chip8",
        }
    }

    // The pages in `docs/` that explain the texts.
    fn texts(self) -> &'static str
        ensures { result.now ≡ (row self).texts }
    {
        match self {
            Verb::Trace => "FORMATS.md",
            Verb::Play => "FORMATS.md",
            Verb::Debug => "DEBUGGER.md",
            Verb::Save => "FORMATS.md",
            Verb::Profile => "FORMATS.md",
            Verb::Resume => "FORMATS.md",
            Verb::Demo => "FORMATS.md",
            Verb::Digest => "FORMATS.md",
            Verb::Link => "FORMATS.md",
            Verb::Asm => "ASSEMBLER.md",
            Verb::Check => "ASSEMBLER.md, SUGGESTIONS.md",
            Verb::List => "ASSEMBLER.md",
            Verb::Dis => "ASSEMBLER.md",
            Verb::Source => "MACHINE.md",
            Verb::Bounds => "MACHINE.md",
            Verb::Cycles | Verb::Timing => "CERTIFICATES.md",
            Verb::Safe | Verb::Certify => "CERTIFICATES.md",
            Verb::Help | Verb::Version | Verb::Why => "COMMANDS.md",
        }
    }
}

/// Each option, and what is said of it.
pub const ABOUT: [(&str, &str); 16] = [
    ("--keys", "a key script"),
    ("--at", "the tick count and the machine cycle of each line"),
    ("--screen", "the final screen after the lines"),
    ("--words", "the mnemonic of each opcode"),
    ("--tall", "the variant with 64 rows"),
    ("--state", "a saved state in place of a game"),
    ("--raw", "the bytes themselves in place of a dump"),
    ("--chip8", "CHIP-8 in place of 1802 assembly"),
    ("--asm", "a source in place of bytes"),
    ("--echo", "each command before its answer"),
    ("--exits", "the exits of the routine"),
    ("--rom", "a program in the ROM in place of a game"),
    ("--ram", "a program in RAM in place of a game"),
    ("--sender", "the program that sends a message"),
    ("--receiver", "the program that receives a message"),
    ("--source", "the source line of each opcode"),
];

// The first of some lines about options that is about this one.
fn line_about(
    option: &str,
    lines: &[(&'static str, &'static str)],
) -> Option<(&'static str, &'static str)>
    ensures { result ≡ find (λ line. bytes_eq option.now line.0.now) lines.now }
{
    lines.iter().copied().find(|line| option == line.0)
}

/// What is said of an option; of any other word nothing.
pub fn about(option: &str) -> &'static str
    ensures { result.now ≡ about option.now }
{
    match line_about(option, &ABOUT) {
        Some((_, text)) => text,
        None => "",
    }
}

/// An option as the user writes it, with the name of the word that it takes.
pub fn with_value<'a>(option: &'a str) -> &'a str
    ensures { result.now ≡ with_value option.now }
{
    match option {
        "--keys" => "--keys FILE",
        _ => option,
    }
}
