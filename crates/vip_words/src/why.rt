//! What is made of words, in a line: the first rule that they break, or what would be done.

ghost use Rattle.std.specs.Prelude.{◌≡◌, IfOk, Some, codes, decimal, map, option_map, string_bytes};
ghost use Rattle.chip8_lang.specs.declared.view.Edition.{Edition};
ghost use Rattle.vip_words.specs.Request.{asked_of, board_show_of, code_of, map_program, map_run, program_show_of, show_of, start_of};
ghost use Rattle.vip_words.specs.Spelled.{broken_of, rule_of};
ghost use Rattle.vip_words.specs.Why.{board_verb, broken_text, built_in_name, code_hint, code_text, columns_text, due_text, file_text, game_text, hint, is_source_name, isa_text, keys_text, memory_text, name_text, own_name, plain_text, plain_verb, program_show_text, program_text, program_verb, refused_text, remark, request_text, rule_text, run_text, show_text, show_verb, start_hint, start_text, text_if, why_line};

use crate::broken::{Broken, Due, Rule, first_broken};
use crate::given::WordsFail;
use crate::request::{
    BoardShow, BuiltIn, Code, MadeGame, Memory, OwnText, PlainShow, ProgramRequest, ProgramShow,
    Request, ResumedRequest, RunRequest, Show, Start, TextVerb,
};
use crate::table::Verb;
use crate::words::read_words;
use asm_lex::Isa;
use chip8_lang::Edition;
use std::alloc::{AllocError, Global};
use std::fmt;
use vip_text::TraceColumns;

/// The text, where this holds.
fn text_if(holds: bool, text: &'static str) -> &'static str
    ensures { result.now ≡ text_if holds text.now }
{
    if holds { text } else { "" }
}

impl fmt::Display for Due {
    ghost use Rattle.std.specs.Prelude.{Some};
    ghost use Rattle.vip_words.specs.Why.{due_text};

    ghost output = { λ due. Some (due_text due) };

    fn fmt<W: fmt::Write>(&self, f: &mut fmt::Formatter<W>) -> fmt::Result {
        match self {
            Due::File => write!(f, "FILE is not the name of a file"),
            Due::Cycles => write!(f, "CYCLES is not a decimal number from 0 to 4000000000"),
            Due::Number => write!(f, "NUMBER is not a decimal number from 0 to 4294967295"),
            Due::Moves => write!(f, "MOVES is not a decimal number from 0 to 10000000"),
            Due::At(Isa::Cdp1802) => write!(f, "AT is not a hexadecimal number from 0 to FFFF"),
            Due::At(Isa::Chip8) => write!(f, "AT is not a hexadecimal number from 200 to FFF"),
            Due::Entry => write!(f, "ENTRY is not a name of 1 to 32 bytes"),
            Due::P => write!(f, "P is not one hexadecimal digit"),
            Due::K => write!(f, "K is not one hexadecimal digit"),
            Due::Verb => write!(f, "unknown command"),
        }
    }
}

/// A rule that the words behind a verb break.
#[derive(Clone, Copy)]
struct Sentence<'a> {
    verb: &'static str,
    rule: Rule<&'a str>,
}

impl fmt::Display for Sentence<'_> {
    ghost use Rattle.std.specs.Prelude.{Some};
    ghost use Rattle.vip_words.specs.Spelled.{rule_of};
    ghost use Rattle.vip_words.specs.Why.{rule_text};

    ghost output = { λ sentence. Some (rule_text sentence.verb.now (rule_of sentence.rule)) };

    fn fmt<W: fmt::Write>(&self, f: &mut fmt::Formatter<W>) -> fmt::Result {
        let verb = self.verb;
        match self.rule {
            Rule::Empty => write!(f, "{verb} takes no empty argument"),
            Rule::Ends => write!(f, "{verb} has no --; write ./-x for a file named -x"),
            Rule::NoOption(word) => write!(f, "{verb} has no option {word}"),
            Rule::NoFile => write!(f, "--keys lacks FILE"),
            Rule::Twice(option) => write!(f, "{option} is given twice"),
            Rule::Lacks(name) => write!(f, "{verb} lacks {name}"),
            Rule::TooMany(word) => write!(f, "too many arguments for {verb}: {word}"),
            Rule::Misread(due, word) => write!(f, "{due}: {word}"),
            Rule::Same(word) => write!(
                f,
                "P and K must be different registers, and both are {word}"
            ),
            Rule::Needs(first, second) => {
                let (first, second) = (first.name(), second.name());
                write!(f, "--{first} needs --{second}")
            }
            Rule::Apart(first, second) => {
                let (first, second) = (first.name(), second.name());
                write!(f, "--{first} and --{second} can't be combined")
            }
        }
    }
}

impl fmt::Display for Broken<&str> {
    ghost use Rattle.std.specs.Prelude.{Some};
    ghost use Rattle.vip_words.specs.Spelled.{broken_of};
    ghost use Rattle.vip_words.specs.Why.{broken_text};

    ghost output = { λ broken. Some (broken_text (broken_of broken)) };

    fn fmt<W: fmt::Write>(&self, f: &mut fmt::Formatter<W>) -> fmt::Result {
        match *self {
            Broken::NoVerb => write!(f, "no command is given (see vip help)"),
            Broken::NoSuchVerb(word) => write!(f, "unknown command: {word} (see vip help)"),
            Broken::Of(verb, rule) => {
                let verb = verb.name();
                let sentence = Sentence { verb, rule };
                write!(f, "{sentence} (see vip help {verb})")
            }
        }
    }
}

impl fmt::Display for Code<&str> {
    ghost use Rattle.std.specs.Prelude.{Some};
    ghost use Rattle.vip_words.specs.Request.{code_of};
    ghost use Rattle.vip_words.specs.Why.{code_text};

    ghost output = { λ code. Some (code_text (code_of code)) };

    fn fmt<W: fmt::Write>(&self, f: &mut fmt::Formatter<W>) -> fmt::Result {
        match self {
            Code::Bytes(file) => write!(f, "{file}, taken as bytes"),
            Code::Source { file, told } => {
                let told = text_if(*told, ", with --source");
                write!(f, "{file}, taken as a source{told}")
            }
        }
    }
}

/// What a game of an edition is called, before its code.
fn game_text(edition: Edition) -> &'static str
    ensures { result.now ≡ game_text edition }
{
    match edition {
        Edition::Usual => "the game in ",
        Edition::Tall => "the game with 64 rows in ",
    }
}

impl fmt::Display for Start<&str> {
    ghost use Rattle.std.specs.Prelude.{Some};
    ghost use Rattle.vip_words.specs.Request.{start_of};
    ghost use Rattle.vip_words.specs.Why.{start_text};

    ghost output = { λ start. Some (start_text (start_of start)) };

    fn fmt<W: fmt::Write>(&self, f: &mut fmt::Formatter<W>) -> fmt::Result {
        match self {
            Start::Game { code, edition } => {
                let game = game_text(*edition);
                write!(f, "{game}{code}")
            }
            Start::State(file) => write!(f, "the saved state in {file}"),
            Start::Made(MadeGame::Demo(number)) => write!(f, "demonstration game {number}"),
        }
    }
}

/// The key script of a run, where there is one.
#[derive(Clone, Copy)]
struct Keys<'a>(Option<&'a str>);

impl fmt::Display for Keys<'_> {
    ghost use Rattle.std.specs.Prelude.{Some, option_map};
    ghost use Rattle.vip_words.specs.Why.{keys_text};

    ghost output = { λ keys. Some (keys_text (option_map (λ file. file.now) keys.0)) };

    fn fmt<W: fmt::Write>(&self, f: &mut fmt::Formatter<W>) -> fmt::Result {
        match self.0 {
            None => Ok(()),
            Some(file) => write!(f, ", under the keys in {file}"),
        }
    }
}

/// What a trace shows besides the states.
#[derive(Clone, Copy)]
struct Columns(TraceColumns);

impl fmt::Display for Columns {
    ghost use Rattle.std.specs.Prelude.{Some};
    ghost use Rattle.vip_words.specs.Why.{columns_text};

    ghost output = { λ columns. Some (columns_text columns.0) };

    fn fmt<W: fmt::Write>(&self, f: &mut fmt::Formatter<W>) -> fmt::Result {
        let time = text_if(self.0.time, ", with --at");
        let words = text_if(self.0.words, ", with --words");
        let screen = text_if(self.0.screen, ", with --screen");
        write!(f, "{time}{words}{screen}")
    }
}

impl PlainShow {
    ghost use Rattle.std.specs.Prelude.{◌≡◌};
    ghost use Rattle.vip_words.specs.Why.{plain_verb};

    /// The verb that shows this.
    fn verb(self) -> &'static str
        ensures { result.now ≡ plain_verb self }
    {
        match self {
            PlainShow::Trace(_) => "trace",
            PlainShow::Pictures => "play",
            PlainShow::State => "save",
            PlainShow::Profile => "profile",
            PlainShow::Summary(_) => "demo",
        }
    }
}

impl fmt::Display for PlainShow {
    ghost use Rattle.std.specs.Prelude.{Some};
    ghost use Rattle.vip_words.specs.Why.{plain_text};

    ghost output = { λ shown. Some (plain_text shown) };

    fn fmt<W: fmt::Write>(&self, f: &mut fmt::Formatter<W>) -> fmt::Result {
        match self {
            PlainShow::Trace(columns) => {
                let columns = Columns(*columns);
                write!(f, "{columns}")
            }
            _ => Ok(()),
        }
    }
}

/// The verb of what is shown of a run.
fn show_verb(show: &Show<&str>) -> &'static str
    ensures { result.now ≡ show_verb (show_of show.now) }
{
    match show {
        Show::Commands { .. } => "debug",
        Show::Plain(shown) => shown.verb(),
    }
}

impl fmt::Display for Show<&str> {
    ghost use Rattle.std.specs.Prelude.{Some};
    ghost use Rattle.vip_words.specs.Request.{show_of};
    ghost use Rattle.vip_words.specs.Why.{show_text};

    ghost output = { λ show. Some (show_text (show_of show)) };

    fn fmt<W: fmt::Write>(&self, f: &mut fmt::Formatter<W>) -> fmt::Result {
        match self {
            Show::Commands {
                file,
                echo,
                columns,
            } => {
                let echo = text_if(*echo, ", with --echo");
                let columns = Columns(*columns);
                write!(f, ", by the commands in {file}{echo}{columns}")
            }
            Show::Plain(shown) => write!(f, "{shown}"),
        }
    }
}

impl fmt::Display for RunRequest<&str> {
    ghost use Rattle.std.specs.Prelude.{Some};
    ghost use Rattle.vip_words.specs.Request.{map_run};
    ghost use Rattle.vip_words.specs.Why.{run_text};

    ghost output = { λ run. Some (run_text (map_run (λ name. name.now) run)) };

    fn fmt<W: fmt::Write>(&self, f: &mut fmt::Formatter<W>) -> fmt::Result {
        let verb = show_verb(&self.show);
        let start = &self.start;
        let cycles = self.limit.cycles();
        let show = &self.show;
        let keys = Keys(self.keys);
        write!(f, "{verb} of {start}, up to cycle {cycles}{show}{keys}")
    }
}

/// The verb of what is shown of a program's board.
fn board_verb(show: &BoardShow<&str>) -> &'static str
    ensures { result.now ≡ board_verb (board_show_of show.now) }
{
    match show {
        BoardShow::Commands { .. } => "debug",
        BoardShow::State => "save",
    }
}

impl fmt::Display for BoardShow<&str> {
    ghost use Rattle.std.specs.Prelude.{Some};
    ghost use Rattle.vip_words.specs.Request.{board_show_of};
    ghost use Rattle.vip_words.specs.Why.{board_text};

    ghost output = { λ show. Some (board_text (board_show_of show)) };

    fn fmt<W: fmt::Write>(&self, f: &mut fmt::Formatter<W>) -> fmt::Result {
        match self {
            BoardShow::Commands { file, echo } => {
                let echo = text_if(*echo, ", with --echo");
                write!(f, ", by the commands in {file}{echo}")
            }
            BoardShow::State => Ok(()),
        }
    }
}

/// The verb of what is shown of a program's run.
fn program_verb(show: &ProgramShow<&str>) -> &'static str
    ensures { result.now ≡ program_verb (program_show_of show.now) }
{
    match show {
        ProgramShow::Trace => "trace",
        ProgramShow::Pictures => "play",
        ProgramShow::Profile => "profile",
        ProgramShow::Board(shown) => board_verb(shown),
    }
}

impl fmt::Display for ProgramShow<&str> {
    ghost use Rattle.std.specs.Prelude.{Some};
    ghost use Rattle.vip_words.specs.Request.{program_show_of};
    ghost use Rattle.vip_words.specs.Why.{program_show_text};

    ghost output = { λ show. Some (program_show_text (program_show_of show)) };

    fn fmt<W: fmt::Write>(&self, f: &mut fmt::Formatter<W>) -> fmt::Result {
        match self {
            ProgramShow::Board(shown) => write!(f, "{shown}"),
            ProgramShow::Trace | ProgramShow::Pictures | ProgramShow::Profile => Ok(()),
        }
    }
}

/// Where a program stands.
fn memory_text(memory: Memory) -> &'static str
    ensures { result.now ≡ memory_text memory }
{
    match memory {
        Memory::Rom => ", in the ROM",
        Memory::Ram => ", in RAM",
    }
}

impl fmt::Display for ProgramRequest<&str> {
    ghost use Rattle.std.specs.Prelude.{Some};
    ghost use Rattle.vip_words.specs.Request.{map_program};
    ghost use Rattle.vip_words.specs.Why.{program_text};

    ghost output = { λ run. Some (program_text (map_program (λ name. name.now) run)) };

    fn fmt<W: fmt::Write>(&self, f: &mut fmt::Formatter<W>) -> fmt::Result {
        let verb = program_verb(&self.show);
        let code = &self.code;
        let memory = memory_text(self.memory);
        let cycles = self.limit.cycles();
        let show = &self.show;
        let keys = Keys(self.keys);
        write!(
            f,
            "{verb} of the program in {code}{memory}, up to cycle {cycles}{show}{keys}"
        )
    }
}

impl fmt::Display for ResumedRequest<&str> {
    ghost use Rattle.std.specs.Prelude.{Some};
    ghost use Rattle.vip_words.specs.Request.{map_resumed};
    ghost use Rattle.vip_words.specs.Why.{resumed_text};

    ghost output = { λ run. Some (resumed_text (map_resumed (λ name. name.now) run)) };

    fn fmt<W: fmt::Write>(&self, f: &mut fmt::Formatter<W>) -> fmt::Result {
        let verb = board_verb(&self.show);
        let state = self.state;
        let cycles = self.limit.cycles();
        let show = &self.show;
        let keys = Keys(self.keys);
        write!(
            f,
            "{verb} of the saved state of a program in {state}, up to cycle {cycles}{show}{keys}"
        )
    }
}

/// In which words a source is, or a disassembly.
fn isa_text(isa: Isa) -> &'static str
    ensures { result.now ≡ isa_text isa }
{
    match isa {
        Isa::Cdp1802 => ", in 1802 assembly",
        Isa::Chip8 => ", in CHIP-8 assembly",
    }
}

/// A name that is given in bytes: all of it, since the words of a command line are UTF-8.
fn name_text(name: &[u8]) -> &str
    ensures { result.now ≡ name_text name.now }
{
    match str::from_utf8(name) {
        Ok(text) => text,
        Err(_) => "",
    }
}

/// A text that is made of a file.
#[derive(Drop)]
struct FileText<'a, 'b> {
    verb: &'b TextVerb,
    file: &'a str,
}

impl fmt::Display for FileText<'_, '_> {
    ghost use Rattle.std.specs.Prelude.{Some};
    ghost use Rattle.vip_words.specs.Why.{file_text};

    ghost output = { λ text. Some (file_text text.verb.now text.file.now) };

    fn fmt<W: fmt::Write>(&self, f: &mut fmt::Formatter<W>) -> fmt::Result {
        let file = self.file;
        match self.verb {
            TextVerb::Asm { isa, raw } => {
                let isa = isa_text(*isa);
                let raw = text_if(*raw, ", with --raw");
                write!(f, "asm of the source in {file}{isa}{raw}")
            }
            TextVerb::Check { isa, .. } => {
                let isa = isa_text(*isa);
                write!(f, "check of the source in {file}{isa}")
            }
            TextVerb::List { isa } => {
                let isa = isa_text(*isa);
                write!(f, "list of the source in {file}{isa}")
            }
            TextVerb::Dis { place } => {
                let isa = isa_text(place.isa());
                let address = place.address();
                write!(f, "dis of the bytes in {file} from 0x{address:x} on{isa}")
            }
            TextVerb::Timing { entry, p, k } => {
                let entry = name_text(entry.name.as_slice());
                write!(
                    f,
                    "timing of the routine {entry} of the source in {file}, with program counter {p} and counter {k}"
                )
            }
            TextVerb::Digest { limit } => {
                let cycles = limit.cycles();
                write!(
                    f,
                    "digest of the games in {file}, each up to cycle {cycles}"
                )
            }
        }
    }
}

/// What a source of the program's own is called.
fn built_in_name(source: BuiltIn) -> &'static str
    ensures { result.now ≡ built_in_name source }
{
    match source {
        BuiltIn::Interpreter(Edition::Usual) => "source of the interpreter",
        BuiltIn::Interpreter(Edition::Tall) => "source of the interpreter with 64 rows",
        BuiltIn::Sender => "source of the program that sends a message",
        BuiltIn::Receiver => "source of the program that receives a message",
    }
}

impl fmt::Display for OwnText {
    ghost use Rattle.std.specs.Prelude.{Some};
    ghost use Rattle.vip_words.specs.Why.{own_name};

    ghost output = { λ text. Some (own_name text) };

    fn fmt<W: fmt::Write>(&self, f: &mut fmt::Formatter<W>) -> fmt::Result {
        match self {
            OwnText::Source(source) => {
                let name = built_in_name(*source);
                write!(f, "{name}")
            }
            OwnText::Bounds => write!(f, "bounds"),
            OwnText::Help(None) => write!(f, "help"),
            OwnText::Help(Some(verb)) => {
                let verb = verb.name();
                write!(f, "help of {verb}")
            }
            OwnText::Version => write!(f, "version"),
            OwnText::Why(_) => write!(f, "why"),
        }
    }
}

impl fmt::Display for Request<&str> {
    ghost use Rattle.std.specs.Prelude.{Some};
    ghost use Rattle.vip_words.specs.Request.{asked_of};
    ghost use Rattle.vip_words.specs.Why.{request_text};

    ghost output = { λ request. Some (request_text (asked_of request)) };

    fn fmt<W: fmt::Write>(&self, f: &mut fmt::Formatter<W>) -> fmt::Result {
        match self {
            Request::Run(run) => write!(f, "{run}"),
            Request::Program(run) => write!(f, "{run}"),
            Request::Resumed(run) => write!(f, "{run}"),
            Request::Link {
                message,
                moves,
                number,
            } => {
                let moves = moves.count();
                write!(
                    f,
                    "link of the message in {message}, by {moves} moves of schedule {number}"
                )
            }
            Request::Text { verb, file } => {
                let text = FileText { verb, file: *file };
                write!(f, "{text}")
            }
            Request::Cycles {
                source,
                certificate,
                exits,
            } => {
                let exits = text_if(*exits, ", with --exits");
                write!(
                    f,
                    "cycles of the source in {source}, by the certificate in {certificate}{exits}"
                )
            }
            Request::Safe {
                game,
                certificate,
                edition,
            } => {
                let which = game_text(*edition);
                write!(
                    f,
                    "safe of {which}{game}, by the certificate in {certificate}"
                )
            }
            Request::Certify { game, edition } => {
                let which = game_text(*edition);
                write!(f, "certify of {which}{game}")
            }
            Request::Own(text) => write!(f, "{text}"),
        }
    }
}

/// The sentence of the first rule that words break.
fn refused_text(alloc: Global, words: &[String]) -> Result<String, AllocError>
    ensures { IfOk result (λ text. string_bytes text ≡ refused_text (map string_bytes words.now)) }
{
    let Some(broken) = first_broken(alloc, words)? else {
        return Ok(String::new(alloc));
    };
    format!(in alloc; "{broken}")
}

/// What is made of words, in a line: the first rule that refuses them, as a sentence with the word and what was due; or what would be done, in the fields of
/// the request. It fails only where memory is refused.
pub fn why_line(alloc: Global, words: &[String]) -> Result<String, AllocError>
    ensures { IfOk result (λ line. string_bytes line ≡ why_line (map string_bytes words.now)) }
{
    match read_words(alloc, words) {
        Ok(request) => format!(in alloc; "accepted: {request}\n"),
        Err(WordsFail::Refused) => {
            let text = refused_text(alloc, words)?;
            format!(in alloc; "{text}\n")
        }
        Err(WordsFail::NoMemory) => Err(AllocError),
    }
}

/// Whether a name is one of a source.
fn is_source_name(name: &[u8]) -> bool
    ensures { result ≡ is_source_name name.now }
{
    name.ends_with(b".asm") || name.ends_with(b".8o") || name.ends_with(b".s")
}

/// A remark on code that is taken as bytes and whose name is one of a source.
fn code_hint(alloc: Global, code: &Code<&str>) -> Result<String, AllocError>
    ensures { IfOk result (λ line. string_bytes line ≡ code_hint (code_of code.now)) }
{
    match code {
        Code::Bytes(file) if is_source_name(file.as_bytes()) => {
            format!(in alloc; "vip: {file} was run as bytes; --asm runs a source\n")
        }
        _ => Ok(String::new(alloc)),
    }
}

/// A remark on where a run begins.
fn start_hint(alloc: Global, start: &Start<&str>) -> Result<String, AllocError>
    ensures { IfOk result (λ line. string_bytes line ≡ start_hint (start_of start.now)) }
{
    match start {
        Start::Game { code, .. } => code_hint(alloc, code),
        _ => Ok(String::new(alloc)),
    }
}

/// A remark on the run that is asked for.
fn hint(alloc: Global, request: &Request<&str>) -> Result<String, AllocError>
    ensures { IfOk result (λ line. string_bytes line ≡ hint (asked_of request.now)) }
{
    match request {
        Request::Run(run) => start_hint(alloc, &run.start),
        Request::Program(run) => code_hint(alloc, &run.code),
        _ => Ok(String::new(alloc)),
    }
}

/// What a user at a terminal is told of the words besides the report: why they are refused, or that the text of a source is taken as bytes; and else nothing.
/// It fails only where memory is refused.
pub fn remark(alloc: Global, words: &[String]) -> Result<String, AllocError>
    ensures { IfOk result (λ line. string_bytes line ≡ remark (map string_bytes words.now)) }
{
    match read_words(alloc, words) {
        Ok(request) => hint(alloc, &request),
        Err(WordsFail::Refused) => {
            let text = refused_text(alloc, words)?;
            format!(in alloc; "vip: {text}\n")
        }
        Err(WordsFail::NoMemory) => Err(AllocError),
    }
}
