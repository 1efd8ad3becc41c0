//! The list of games that `digest` runs, a game a line: how it is read.

ghost use Rattle.std.specs.Prelude.{◌≡◌, ◌≤◌, ◌==◌, ◌++◌, ◌∷◌, [], if◌then◌else◌, false, nat_lt, length, drop, IfOk, OnOk};
ghost use Rattle.std.specs.List.{list_any};
ghost use Rattle.std.specs.Option.{option_to_list};
ghost use Rattle.chip8_lang.specs.State.{memory_size};
ghost use Rattle.chip8_lang.specs.declared.view.Edition.TheVariants.{Tall, Usual};
ghost use Rattle.vip_tools.specs.Files.{most_text};
ghost use Rattle.vip_tools.specs.Games.{LineAnswers, bytes_of, event_words, events_of, game_cause_name, game_of, gap, game_said, is_tall, line_fault, script_text};
ghost use Rattle.vip_tools.specs.Judged.{AnswersAs};
ghost use Rattle.vip_tools.specs.Opening.{GamesCome, line_refusal};

use crate::Refusal;
use chip8_lang::Edition;
use hex::FromHexError;
use std::alloc::{AllocError, Global};
use std::marker::Model;
use vip_byte::{Lines, Words};
use vip_keypad::{Script, ScriptCause, ScriptFault, read_script};

/// Why a line says no game, in the order in which the causes are looked for.
#[derive(Clone, Copy)]
pub enum GameCause {
    /// The first word is neither `-` nor made of pairs of hexadecimal digits.
    BadBytes,
    /// The bytes are more than the edition's game memory has.
    TooLarge,
    /// The words of the events are no key script.
    Keys(ScriptCause),
}

impl GameCause {
    /// Its name, which the reports show.
    pub fn name(self) -> &'static str
        ensures { result.now ≡ game_cause_name self }
    {
        match self {
            GameCause::BadBytes => "BadBytes",
            GameCause::TooLarge => "TooLarge",
            GameCause::Keys(cause) => cause.name(),
        }
    }
}

/// Why a line of a list was not read.
#[derive(Clone, Copy)]
enum LineFault {
    /// The first cause in it.
    Cause(GameCause),
    NoMemory,
}

impl From<AllocError> for LineFault {
    ghost use Rattle.std.specs.Prelude.{◌≡◌};
    ghost use Rattle.vip_tools.specs.declared.games.LineFault.TheVariants.{NoMemory};

    ghost from_gives = { λ _ fault. fault ≡ NoMemory };

    fn from(_error: AllocError) -> LineFault {
        LineFault::NoMemory
    }
}

/// A game of a list, which fits into its edition's game memory. A clause sees it as a `Game`.
#[derive(Drop)]
pub struct ListedGame {
    edition: Edition,
    bytes: Vec<u8>,
    keys: Script,
}

impl Model for ListedGame {
    ghost use Rattle.std.specs.Prelude.{◌≤◌, vec_len};
    ghost use Rattle.chip8_lang.specs.State.{memory_size};
    ghost use Rattle.vip_tools.specs.Games.{Game};

    ghost Value = { Game };

    ghost view = { λ inside. record { edition = inside.edition; bytes = inside.bytes.items; keys = inside.keys } };

    ghost invariant = { λ inside. vec_len inside.bytes ≤ memory_size inside.edition };
}

impl ListedGame {
    ghost use Rattle.std.specs.Prelude.{◌≡◌, ◌≤◌, length};
    ghost use Rattle.chip8_lang.specs.State.{memory_size};

    /// Its edition.
    pub fn edition(&self) -> Edition
        ensures { result ≡ self.now.edition }
    {
        self.edition
    }

    /// Its bytes.
    pub fn bytes(&self) -> &[u8]
        ensures bytes { result.now ≡ self.now.bytes }
        ensures fits { length result.now ≤ memory_size self.now.edition }
    {
        self.bytes.as_slice()
    }

    /// Its key script.
    pub fn keys(&self) -> &Script
        ensures { result.now ≡ self.now.keys }
    {
        &self.keys
    }
}

/// The bytes of a game by their word.
fn read_bytes(alloc: Global, word: &[u8]) -> Result<Vec<u8>, LineFault>
    ensures { LineAnswers (λ bytes. bytes.items) (bytes_of word.now) result }
{
    match word {
        b"-" => Ok(Vec::new(alloc)),
        _ => match hex::decode(alloc, word) {
            Ok(bytes) => Ok(bytes),
            Err(FromHexError::OutOfMemory) => Err(LineFault::NoMemory),
            Err(_) => Err(LineFault::Cause(GameCause::BadBytes)),
        },
    }
}

/// Whether the words behind the bytes begin with `tall`.
fn is_tall(mut words: Words) -> bool
    ensures { result ≡ is_tall words.entry }
{
    matches!(words.next(), Some(b"tall"))
}

/// The words behind the first.
fn behind<'a>(mut words: Words<'a>) -> Words<'a>
    ensures { result ≡ drop 1 words.entry }
{
    let _ = words.next();
    words
}

/// The words of the events: those behind the bytes, without `tall`.
fn event_words<'a>(words: Words<'a>, tall: bool) -> Words<'a>
    requires { tall ≡ is_tall words }
    ensures { result ≡ event_words words.entry }
{
    if tall { behind(words) } else { words }
}

/// The tall edition where the line says so, and else the usual one.
fn edition_by(tall: bool) -> Edition
    ensures { result ≡ (if tall then Tall else Usual) }
{
    if tall { Edition::Tall } else { Edition::Usual }
}

/// The byte behind a word of an event that comes behind so many others of it.
fn gap(before: u8) -> u8
    ensures { result ∷ [] ≡ gap before }
{
    if before == 2 { b'\n' } else { b' ' }
}

/// The words of events as the text of a key script: behind each third one a line ends.
fn script_text(alloc: Global, words: Words) -> Result<Vec<u8>, AllocError>
    ensures { IfOk result (λ text. text.items ≡ script_text 0 words.entry) }
{
    let mut text = Vec::new(alloc);
    let mut before = 0u8;
    for word in words {
        text.extend_from_slice(word)?;
        text.push(gap(before))?;
        before = (before + 1) % 3;
    }
    Ok(text)
}

/// Whether there is the byte with which a remark begins.
fn has_mark(text: &[u8]) -> bool
    ensures { result ≡ list_any (λ byte. byte == 35) text.now }
{
    text.iter().any(|byte| *byte == b'#')
}

/// The fault of a line whose events have this one.
fn line_fault(fault: ScriptFault) -> LineFault
    ensures { result ≡ line_fault fault }
{
    match fault {
        ScriptFault::Fault { cause, .. } => LineFault::Cause(GameCause::Keys(cause)),
        ScriptFault::NoMemory => LineFault::NoMemory,
    }
}

/// The events of a text of a key script that has no remark.
#[tactic(auto, unfolding(crate::specs::Games::events_of))]
fn read_events(alloc: Global, text: &[u8]) -> Result<Script, LineFault>
    requires { length text.now ≤ most_text }
    ensures { LineAnswers (λ keys. keys) (events_of text.now) result }
{
    if has_mark(text) {
        return Err(LineFault::Cause(GameCause::Keys(ScriptCause::BadLine)));
    }
    match read_script(alloc, text) {
        Ok(keys) => Ok(keys),
        Err(fault) => Err(line_fault(fault)),
    }
}

/// Whether bytes are more than the edition's game memory has.
fn is_large(edition: Edition, bytes: &[u8]) -> bool
    ensures value { result ≡ nat_lt (memory_size edition) (length bytes.now) }
    ensures fits { result ≡ false → length bytes.now ≤ memory_size edition }
{
    bytes.len() > usize::from(edition.memory_size())
}

/// The game of a line that begins with this word and goes on with these, of which the first may be `tall`.
fn read_game(alloc: Global, first: &[u8], words: Words, tall: bool) -> Result<ListedGame, LineFault>
    requires tall { tall ≡ is_tall words }
    requires few { length (script_text 0 (event_words words)) ≤ most_text }
    ensures { LineAnswers (λ game. game) (game_of first.now words.entry) result }
{
    let edition = edition_by(tall);
    let bytes = read_bytes(alloc, first)?;
    if is_large(edition, bytes.as_slice()) {
        return Err(LineFault::Cause(GameCause::TooLarge));
    }
    let text = script_text(alloc, event_words(words, tall))?;
    let keys = read_events(alloc, text.as_slice())?;
    Ok(ListedGame {
        edition,
        bytes,
        keys,
    })
}

/// What a line says: nothing or a game.
#[tactic(auto, unfolding(crate::specs::Games::game_said))]
fn read_line(alloc: Global, line: &[u8]) -> Result<Option<ListedGame>, LineFault>
    requires { length line.now ≤ most_text }
    ensures { LineAnswers (λ game. game) (game_said line.now) result }
{
    let mut words = Words::new(line);
    let Some(first) = words.next() else {
        return Ok(None);
    };
    if let [b'#', ..] = first {
        return Ok(None);
    }
    let tall = is_tall(behind(Words::new(line)));
    let game = read_game(alloc, first, words, tall)?;
    Ok(Some(game))
}

/// The refusal of a list whose line of this number has the fault.
fn line_refusal<'a>(line: u32, fault: LineFault) -> Refusal<'a>
    ensures { result ≡ line_refusal line fault }
{
    match fault {
        LineFault::Cause(cause) => Refusal::Games { line, cause },
        LineFault::NoMemory => Refusal::NoMemory,
    }
}

/// Adds the game that a line says, if it says one, behind the others.
fn extend(games: &mut Vec<ListedGame>, game: Option<ListedGame>) -> Result<(), AllocError>
    ensures { OnOk result (games.new.items ≡ games.old.items ++ option_to_list game) }
{
    if let Some(game) = game {
        games.push(game)?;
    }
    Ok(())
}

/// Reads a list of games of at most 1,048,576 bytes (this project's format).
///
/// | A line | Says |
/// |---|---|
/// | no word, or a first word that begins with `#` | nothing |
/// | `BYTES`, then `tall` where it is, then events, each `CYCLE down KEY` or `CYCLE up KEY` | a game |
///
/// Lines, words and events are those of a key script. BYTES are the game's bytes in pairs of hexadecimal digits, or `-` for none, at most as many as the
/// edition's game memory has. The answer is the list of the games, or the first fault, which is the first cause in the first faulty line; or memory was
/// wanting.
pub fn read_games<'a>(alloc: Global, text: &[u8]) -> Result<Vec<ListedGame>, Refusal<'a>>
    requires { length text.now ≤ most_text }
    ensures { AnswersAs (λ games. games.items) (GamesCome text.now) result }
{
    let mut games = Vec::new(alloc);
    let mut number = 0;
    for line in Lines::new(text) {
        number += 1;
        match read_line(alloc, line) {
            Ok(game) => extend(&mut games, game)?,
            Err(fault) => return Err(line_refusal(number, fault)),
        }
    }
    Ok(games)
}
