//! The verbs of certificates: how long a routine takes, and that a game never stops.

ghost use Rattle.std.specs.Prelude.{◌≡◌, ◌≤◌, ◌⊎◌, [], length, false, Ok, Err, IfOk, IfErr};
ghost use Rattle.chip8_lang.specs.State.{memory_size};
ghost use Rattle.cycle_check.specs.Closed.{checked};
ghost use Rattle.cycle_check.specs.declared.fault.CertFault.TheVariants.{NoMemory};
ghost use Rattle.vip_words.specs.Request.{map_code};
ghost use Rattle.vip_words.specs.declared.request.Code.TheVariants.{Source};
ghost use Rattle.vip_tools.specs.Certificates.{CertifyComes, CyclesComes, EntryComes, ProofComes, ProofFound, RoutineFound, SafeComes, TimingComes, bytes_at, count_line, exits_asked, routine_text, within_line};
ghost use Rattle.asm_core.specs.Made.{made_byte};
ghost use Rattle.vip_tools.specs.Checks.{CertificateAnswers, EnteredAnswers, RomAnswers};
ghost use Rattle.vip_tools.specs.Code.{GameComes};
ghost use Rattle.vip_tools.specs.Files.{IsFit, game_code, most_text, rom_size};
ghost use Rattle.vip_tools.specs.Judged.{Answers, AnswersAs, bind};
ghost use Rattle.vip_tools.specs.Remarks.{is_safe, is_same, promised, proof_shown, routine_shown, says_same};
ghost use Rattle.vip_tools.specs.Work.{TextAnswers};

use crate::code::{ROM_START, lay_out, marked_game};
use crate::files::{ROM, are_bytes};
use crate::remarks::with_remarks;
use crate::tools::make_assembly;
use crate::{NoTiming, Refusal};
use asm_core::{Assembly, Origins};
use asm_lex::Isa;
use chip8_lang::Edition;
use cycle_check::{CertFault, Exit, TimingFault, Within, check_cycles, check_exits, find_timing};
use game_check::{FindFault, ProofFault, check_game, find_certificate};
use std::alloc::{AllocError, Global};
use vip_byte::{Buffer, MOST_TEXT, hex4, put, put_number};
use vip_words::{Code, Entry};

/// The assembled bytes of the ROM, and 00 where there is none.
fn rom_of(made: &Assembly) -> [u8; 2048]
    ensures { result ≡ bytes_at (made_byte made.now) 0x8000 rom_size }
{
    let mut rom = [0; ROM];
    lay_out(made, ROM_START, &mut rom);
    rom
}

/// The ROM of a source.
fn make_rom<'a>(alloc: Global, source: &[u8]) -> Result<[u8; 2048], Refusal<'a>>
    requires { length source.now ≤ most_text }
    ensures { RomAnswers source.now result }
{
    let made = make_assembly(alloc, Isa::Cdp1802, source)?;
    let rom = rom_of(&made);
    are_bytes(&rom);
    Ok(rom)
}

/// What a certificate says of a ROM, with its exits where they are asked for.
fn check_routine(
    alloc: Global,
    rom: &[u8; 2048],
    certificate: &[u8],
    exits: bool,
) -> Result<(Within, Vec<Exit>), CertFault>
    requires { length certificate.now ≤ most_text }
    ensures accepted { IfOk result (λ found. checked rom.now certificate.now ≡ Ok found.0) }
    ensures exits { IfOk result (λ found. found.1.items ≡ exits_asked exits rom.now certificate.now) }
    ensures fault { IfErr result (λ fault. (fault ≡ NoMemory) ⊎ (checked rom.now certificate.now ≡ Err fault)) }
{
    if exits {
        return check_exits(alloc, rom, certificate);
    }
    let within = check_cycles(alloc, rom, certificate)?;
    Ok((within, Vec::new(alloc)))
}

/// The same, or why it is refused.
fn checked_routine<'a>(
    alloc: Global,
    rom: &[u8; 2048],
    certificate: &[u8],
    exits: bool,
) -> Result<(Within, Vec<Exit>), Refusal<'a>>
    requires { length certificate.now ≤ most_text }
    ensures { CertificateAnswers rom.now certificate.now exits result }
{
    match check_routine(alloc, rom, certificate, exits) {
        Ok(found) => Ok(found),
        Err(CertFault::Fault { line, cause }) => Err(Refusal::Certificate { line, cause }),
        Err(CertFault::NoMemory) => Err(Refusal::NoMemory),
    }
}

/// How many lines a certificate of a game has that say something.
fn checked_game<'a>(
    alloc: Global,
    edition: Edition,
    game: &[u8],
    certificate: &[u8],
) -> Result<u32, Refusal<'a>>
    requires game { length game.now ≤ memory_size edition }
    requires certificate { length certificate.now ≤ most_text }
    ensures { Answers (ProofComes edition game.now certificate.now) result }
{
    match check_game(alloc, edition, game, certificate) {
        Ok(count) => Ok(count),
        Err(ProofFault::Fault { line, cause }) => Err(Refusal::Proof { line, cause }),
        Err(ProofFault::NoMemory) => Err(Refusal::NoMemory),
    }
}

/// Writes the entry and the limit of a routine into an empty buffer.
fn within_text(within: Within, into: &mut Buffer)
    requires { into.old.items ≡ [] }
    ensures { into.new.items ≡ within_line within }
{
    put(into, b"yes ");
    put(into, &hex4(within.entry));
    put(into, b" within ");
    put_number(into, u64::from(within.limit));
    put(into, b"\n");
}

/// The entry and the limit of a routine, and a line for each exit.
fn routine_text(alloc: Global, within: Within, exits: &[Exit]) -> Result<Vec<u8>, AllocError>
    ensures { IfOk result (λ text. text.items ≡ routine_text within exits.now) }
{
    let mut line = Buffer::new();
    within_text(within, &mut line);
    let mut text = Vec::from_slice(alloc, line.as_slice())?;
    for exit in exits {
        let mut line = Buffer::new();
        exit.put(&mut line);
        text.extend_from_slice(line.as_slice())?;
    }
    Ok(text)
}

/// Writes the number of the lines into an empty buffer.
fn count_text(count: u32, into: &mut Buffer)
    requires { into.old.items ≡ [] }
    ensures { into.new.items ≡ count_line count }
{
    put(into, b"yes ");
    put_number(into, u64::from(count));
    put(into, b"\n");
}

/// Assembles a source of at most 1,048,576 bytes into a ROM, and checks a certificate of at most as many against it: its entry and limit, and its
/// exits where they are asked for.
pub fn cycles<'a>(
    alloc: Global,
    source: &[u8],
    certificate: &[u8],
    exits: bool,
) -> Result<Vec<u8>, Refusal<'a>>
    requires source { length source.now ≤ most_text }
    requires certificate { length certificate.now ≤ most_text }
    ensures { TextAnswers (CyclesComes source.now certificate.now exits) result }
{
    let rom = make_rom(alloc, source)?;
    let found = checked_routine(alloc, &rom, certificate, exits)?;
    let text = routine_text(alloc, found.0, found.1.as_slice())?;
    Ok(text)
}

/// The address at which a routine of an assembled source is entered.
fn entry_address<'a>(made: &Assembly, entry: Entry) -> Result<u16, Refusal<'a>>
    ensures { Answers (EntryComes made.now entry) result }
{
    let Entry { name, digits } = entry;
    match made.names().number(name.as_slice()).or(digits) {
        Some(address) => Ok(address),
        None => Err(Refusal::NoTiming(NoTiming::Undefined(name))),
    }
}

/// A source that is assembled: its ROM, the address at which a routine of it is entered, and what it gave each address.
#[derive(Drop)]
pub(crate) struct Routine {
    pub rom: [u8; 2048],
    pub address: u16,
    pub origins: Origins,
}

/// The ROM of a source, and the address at which a routine of it is entered.
fn entered<'a>(alloc: Global, source: &[u8], entry: Entry) -> Result<Routine, Refusal<'a>>
    requires { length source.now ≤ most_text }
    ensures { EnteredAnswers source.now entry result }
{
    let made = make_assembly(alloc, Isa::Cdp1802, source)?;
    let rom = rom_of(&made);
    are_bytes(&rom);
    let address = entry_address(&made, entry)?;
    let (_names, origins) = Origins::of(alloc, source, made)?;
    Ok(Routine {
        rom,
        address,
        origins,
    })
}

/// A certificate of a routine, without the names of labels.
fn found_routine<'a>(
    alloc: Global,
    rom: &[u8; 2048],
    address: u16,
    p: u8,
    k: u8,
) -> Result<Vec<u8>, Refusal<'a>>
    ensures { AnswersAs (λ text. text.items) (RoutineFound rom.now address p k) result }
{
    match find_timing(alloc, rom, address, p, k) {
        Ok(text) => Ok(text),
        Err(TimingFault::NotFound(obstacle)) => {
            Err(Refusal::NoTiming(NoTiming::Obstacle(obstacle)))
        }
        Err(TimingFault::NoMemory) => Err(Refusal::NoMemory),
    }
}

/// What `cycles` says of a text that it takes.
fn promised<'a>(alloc: Global, rom: &[u8; 2048], text: &[u8]) -> Result<Option<Within>, Refusal<'a>>
    requires { length text.now ≤ most_text }
    ensures within { IfOk result (λ within. within ≡ promised rom.now text.now) }
    ensures memory { IfErr result (λ refusal. refusal ≡ Refusal.NoMemory) }
{
    match check_cycles(alloc, rom, text) {
        Ok(within) => Ok(Some(within)),
        Err(CertFault::Fault { .. }) => Ok(None),
        Err(CertFault::NoMemory) => Err(Refusal::NoMemory),
    }
}

/// Whether both are taken, and promise the same.
fn is_same(one: Option<Within>, other: Option<Within>) -> bool
    ensures { result ≡ is_same one other }
{
    match (one, other) {
        (Some(one), Some(other)) => one.entry == other.entry && one.limit == other.limit,
        _ => false,
    }
}

/// Whether `cycles` takes a text, and says of it what it says of another one.
#[tactic(auto, unfolding(crate::specs::Remarks::says_same))]
fn says_same<'a>(
    alloc: Global,
    rom: &[u8; 2048],
    text: &[u8],
    other: &[u8],
) -> Result<bool, Refusal<'a>>
    requires { length other.now ≤ most_text }
    ensures same { IfOk result (λ same. same ≡ says_same rom.now text.now other.now) }
    ensures memory { IfErr result (λ refusal. refusal ≡ Refusal.NoMemory) }
{
    if text.len() > MOST_TEXT {
        return Ok(false);
    }
    let one = promised(alloc, rom, text)?;
    let other = promised(alloc, rom, other)?;
    Ok(is_same(one, other))
}

/// A certificate of a routine, with the names of labels where `cycles` says the same of it with them.
#[tactic(auto, unfolding(crate::specs::Remarks::routine_shown))]
fn named_routine<'a>(
    alloc: Global,
    rom: &[u8; 2048],
    origins: &Origins,
    text: Vec<u8>,
) -> Result<Vec<u8>, Refusal<'a>>
    requires { length text.items ≤ most_text }
    ensures shown { IfOk result (λ shown. shown.items ≡ routine_shown rom.now origins.now text.items) }
    ensures memory { IfErr result (λ refusal. refusal ≡ Refusal.NoMemory) }
{
    let remarked = with_remarks(alloc, origins, text.as_slice())?;
    if says_same(alloc, rom, remarked.as_slice(), text.as_slice())? {
        Ok(remarked)
    } else {
        Ok(text)
    }
}

/// Assembles a source of at most 1,048,576 bytes into a ROM, and searches for a certificate of the routine of it that is entered at an address or a name
/// with R(P) as its program counter, and counts by R(K). Remarks name the labels of its lines.
pub fn timing<'a>(
    alloc: Global,
    source: &[u8],
    entry: Entry,
    p: u8,
    k: u8,
) -> Result<Vec<u8>, Refusal<'a>>
    requires { length source.now ≤ most_text }
    ensures { TextAnswers (TimingComes source.now entry p k) result }
{
    let routine = entered(alloc, source, entry)?;
    let text = found_routine(alloc, &routine.rom, routine.address, p, k)?;
    named_routine(alloc, &routine.rom, &routine.origins, text)
}

/// Checks a game's certificate of at most 1,048,576 bytes: the number of its lines that say something.
pub fn safe<'a>(
    alloc: Global,
    edition: Edition,
    game: &[u8],
    certificate: &[u8],
) -> Result<Vec<u8>, Refusal<'a>>
    requires game { length game.now ≤ memory_size edition }
    requires certificate { length certificate.now ≤ most_text }
    ensures { TextAnswers (SafeComes edition game.now certificate.now) result }
{
    let count = checked_game(alloc, edition, game, certificate)?;
    let mut line = Buffer::new();
    count_text(count, &mut line);
    let text = Vec::from_slice(alloc, line.as_slice())?;
    Ok(text)
}

/// A certificate of a game, without the names of labels.
fn found_proof<'a>(alloc: Global, edition: Edition, game: &[u8]) -> Result<Vec<u8>, Refusal<'a>>
    requires { length game.now ≤ memory_size edition }
    ensures { AnswersAs (λ text. text.items) (ProofFound edition game.now) result }
{
    match find_certificate(alloc, edition, game) {
        Ok(text) => Ok(text),
        Err(FindFault::NotFound(obstacle)) => Err(Refusal::NoCertificate(obstacle)),
        Err(FindFault::NoMemory) => Err(Refusal::NoMemory),
    }
}

/// Whether `safe` takes a text for a game.
#[tactic(auto, unfolding(crate::specs::Remarks::is_safe))]
fn is_safe<'a>(
    alloc: Global,
    edition: Edition,
    game: &[u8],
    text: &[u8],
) -> Result<bool, Refusal<'a>>
    requires { length game.now ≤ memory_size edition }
    ensures safe { IfOk result (λ safe. safe ≡ is_safe edition game.now text.now) }
    ensures memory { IfErr result (λ refusal. refusal ≡ Refusal.NoMemory) }
{
    if text.len() > MOST_TEXT {
        return Ok(false);
    }
    match check_game(alloc, edition, game, text) {
        Ok(_) => Ok(true),
        Err(ProofFault::Fault { .. }) => Ok(false),
        Err(ProofFault::NoMemory) => Err(Refusal::NoMemory),
    }
}

/// A certificate of a game, with the names of labels where `safe` takes it with them.
#[tactic(auto, unfolding(crate::specs::Remarks::proof_shown))]
fn named_proof<'a>(
    alloc: Global,
    edition: Edition,
    game: &[u8],
    origins: &Origins,
    text: Vec<u8>,
) -> Result<Vec<u8>, Refusal<'a>>
    requires { length game.now ≤ memory_size edition }
    ensures shown { IfOk result (λ shown. shown.items ≡ proof_shown edition game.now origins.now text.items) }
    ensures memory { IfErr result (λ refusal. refusal ≡ Refusal.NoMemory) }
{
    let remarked = with_remarks(alloc, origins, text.as_slice())?;
    if is_safe(alloc, edition, game, remarked.as_slice())? {
        Ok(remarked)
    } else {
        Ok(text)
    }
}

/// Assembles a source of a game, and searches for a certificate of the game. Remarks name the labels of its lines.
fn certify_source<'a>(
    alloc: Global,
    edition: Edition,
    source: Vec<u8>,
) -> Result<Vec<u8>, Refusal<'a>>
    requires { IsFit (game_code edition (Source source.items false)) }
    ensures { TextAnswers (bind (GameComes edition (Source source.items false)) (CertifyComes edition (Source source.items false))) result }
{
    let code = Code::Source {
        file: source,
        told: false,
    };
    let made = marked_game(alloc, edition, code)?;
    let text = found_proof(alloc, edition, made.game.as_slice())?;
    named_proof(
        alloc,
        edition,
        made.game.as_slice(),
        &made.marks.origins,
        text,
    )
}

/// Searches for a certificate of a game by its code. Where that is a source, remarks name its labels.
pub fn certify<'a>(
    alloc: Global,
    edition: Edition,
    code: Code<Vec<u8>>,
) -> Result<Vec<u8>, Refusal<'a>>
    requires { IsFit (game_code edition (map_code (λ bytes. bytes.items) code)) }
    ensures { TextAnswers (bind (GameComes edition (map_code (λ bytes. bytes.items) code)) (CertifyComes edition (map_code (λ bytes. bytes.items) code))) result }
{
    match code {
        Code::Bytes(game) => found_proof(alloc, edition, game.as_slice()),
        Code::Source { file, .. } => certify_source(alloc, edition, file),
    }
}
