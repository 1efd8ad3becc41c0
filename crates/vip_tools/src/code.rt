//! What a run begins with, or a certificate speaks of, by its code: the bytes of a game, or those of both memories of a program. A file has them, or a source
//! gives them.

ghost use Rattle.std.specs.Prelude.{◌≡◌, ◌≤◌, ◌+◌, length};
ghost use Rattle.vip_words.specs.Request.{map_code};
ghost use Rattle.vip_tools.specs.Certificates.{bytes_at};
ghost use Rattle.asm_core.specs.Made.{made_byte};
ghost use Rattle.vip_tools.specs.Code.{GameAnswers, IsStray, MadeGameAnswers, MadeImageAnswers, MarkedGameAnswers, MarkedImageAnswers, in_ram, in_rom, is_memory};
ghost use Rattle.vip_tools.specs.Files.{game_code, program_code, IsFit};

use crate::Refusal;
use crate::files::{RAM, ROM, are_bytes};
use crate::refusal::Misfit;
use crate::tools::make_assembly;
use asm_core::{Assembly, Origins};
use asm_lex::{Isa, Symbols};
use asm_listing::raw;
use chip8_lang::Edition;
use std::alloc::{AllocError, Global};
use vip_words::{Code, Memory};

/// The first address of the ROM.
pub(crate) const ROM_START: u16 = 0x8000;

/// The first address of the RAM.
const RAM_START: u16 = 0x0000;

/// The bytes of a program: those of the ROM from 8000 on, and those of the RAM from 0000 on.
#[derive(Drop)]
pub struct Image {
    pub rom: Vec<u8>,
    pub ram: Vec<u8>,
}

/// What is known of code besides its bytes: the names of its source with their values, and what the source gave each address.
#[derive(Drop)]
pub struct Marks {
    pub names: Symbols,
    pub origins: Origins,
}

impl Marks {
    ghost use Rattle.std.specs.Prelude.{◌≡◌, IfOk};
    ghost use Rattle.asm_core.specs.Made.{IsAssembly};
    ghost use Rattle.asm_core.specs.Sources.{source_lines};
    ghost use Rattle.vip_words.specs.declared.request.Code.TheVariants.{Source};
    ghost use Rattle.vip_tools.specs.Code.{known_of, marked, nothing_known};

    /// Nothing is known. It takes no memory.
    pub fn none(alloc: Global) -> Marks
        ensures { marked result ≡ nothing_known }
    {
        Marks {
            names: Symbols::new(alloc),
            origins: Origins::none(alloc),
        }
    }

    /// What is known of a source in the words of an instruction set, by its assembly, with the texts of its lines where they are told.
    fn of(
        alloc: Global,
        isa: Isa,
        text: &[u8],
        told: bool,
        made: Assembly,
    ) -> Result<Marks, AllocError>
        requires { IsAssembly isa (source_lines text.now) made }
        ensures { IfOk result (λ marks. marked marks ≡ known_of isa (Source text.now told)) }
    {
        if told {
            let (names, origins) = Origins::told(alloc, text, made)?;
            return Ok(Marks { names, origins });
        }
        let (names, origins) = Origins::of(alloc, text, made)?;
        Ok(Marks { names, origins })
    }
}

/// A game, with what is known of its code besides its bytes.
#[derive(Drop)]
pub struct MarkedGame {
    pub game: Vec<u8>,
    pub marks: Marks,
}

/// A program, with what is known of its code besides its bytes.
#[derive(Drop)]
pub struct MarkedImage {
    pub image: Image,
    pub marks: Marks,
}

/// Whether a memory of the board has this address: the RAM below 1000, and the ROM from 8000 to 87FF.
fn is_memory(address: u16) -> bool
    ensures { result ≡ is_memory address }
{
    address < 0x1000 || (0x8000..0x8800).contains(&address)
}

/// The least address without memory to which a line gives a byte.
fn stray(made: &Assembly) -> Option<u16>
    ensures { IsStray (made_byte made.now) result }
{
    for address in 0..65_536u32 {
        let address = address as u16;
        if !is_memory(address) && made.byte(address).is_some() {
            return Some(address);
        }
    }
    None
}

/// Fills a memory with the assembled bytes from an address on, and 00 where there is none.
pub(crate) fn lay_out(made: &Assembly, start: u16, into: &mut [u8])
    requires { start + length into.old ≤ 65536 }
    ensures { into.new ≡ bytes_at (made_byte made.now) start (length into.old) }
{
    for offset in 0..into.len() {
        let address = usize::from(start) + offset;
        into[offset] = made.byte(address as u16).unwrap_or(0x00);
    }
}

/// Both memories of an assembly, which may give no other address a byte.
fn lay_out_both<'a>(alloc: Global, made: &Assembly) -> Result<Image, Refusal<'a>>
    ensures { MadeImageAnswers (made_byte made.now) result }
{
    if let Some(address) = stray(made) {
        return Err(Refusal::Misfit(Misfit::Stray(address)));
    }
    let mut rom = [0; ROM];
    lay_out(made, ROM_START, &mut rom);
    let mut ram = [0; RAM];
    lay_out(made, RAM_START, &mut ram);
    let rom = Vec::from_slice(alloc, &rom)?;
    let ram = Vec::from_slice(alloc, &ram)?;
    Ok(Image { rom, ram })
}

/// The bytes of an assembled game, which have to fit into its edition's game memory.
fn raw_game<'a>(alloc: Global, edition: Edition, made: &Assembly) -> Result<Vec<u8>, Refusal<'a>>
    ensures { MadeGameAnswers edition made.now result }
{
    let game = raw(alloc, Isa::Chip8, made)?;
    are_bytes(game.as_slice());
    if game.len() > usize::from(edition.memory_size()) {
        return Err(Refusal::Misfit(Misfit::Game(edition)));
    }
    Ok(game)
}

/// The bytes of a game by its code. A source is one in CHIP-8's words, and its game begins with address 0200.
pub fn game<'a>(
    alloc: Global,
    edition: Edition,
    code: Code<Vec<u8>>,
) -> Result<Vec<u8>, Refusal<'a>>
    requires { IsFit (game_code edition (map_code (λ bytes. bytes.items) code)) }
    ensures { GameAnswers edition (map_code (λ bytes. bytes.items) code) result }
{
    match code {
        Code::Bytes(bytes) => Ok(bytes),
        Code::Source { file: text, .. } => {
            let made = make_assembly(alloc, Isa::Chip8, text.as_slice())?;
            raw_game(alloc, edition, &made)
        }
    }
}

/// The bytes of a game by its code, with what is known of that. A source is assembled once for both.
pub fn marked_game<'a>(
    alloc: Global,
    edition: Edition,
    code: Code<Vec<u8>>,
) -> Result<MarkedGame, Refusal<'a>>
    requires { IsFit (game_code edition (map_code (λ bytes. bytes.items) code)) }
    ensures { MarkedGameAnswers edition (map_code (λ bytes. bytes.items) code) result }
{
    match code {
        Code::Bytes(game) => Ok(MarkedGame {
            game,
            marks: Marks::none(alloc),
        }),
        Code::Source { file: text, told } => {
            let made = make_assembly(alloc, Isa::Chip8, text.as_slice())?;
            let game = raw_game(alloc, edition, &made)?;
            let marks = Marks::of(alloc, Isa::Chip8, text.as_slice(), told, made)?;
            Ok(MarkedGame { game, marks })
        }
    }
}

/// The bytes of a program's file, which stand in the memory in which it starts.
fn image_of(alloc: Global, memory: Memory, program: Vec<u8>) -> Image
    ensures rom { result.rom.items ≡ in_rom memory program.items }
    ensures ram { result.ram.items ≡ in_ram memory program.items }
{
    match memory {
        Memory::Rom => Image {
            rom: program,
            ram: Vec::new(alloc),
        },
        Memory::Ram => Image {
            rom: Vec::new(alloc),
            ram: program,
        },
    }
}

/// The bytes of a program by its code, with what is known of that. A source is one of the CDP1802, whose bytes stand at their own addresses, and is assembled once
/// for both.
pub fn marked_program<'a>(
    alloc: Global,
    memory: Memory,
    code: Code<Vec<u8>>,
) -> Result<MarkedImage, Refusal<'a>>
    requires { IsFit (program_code memory (map_code (λ bytes. bytes.items) code)) }
    ensures { MarkedImageAnswers memory (map_code (λ bytes. bytes.items) code) result }
{
    match code {
        Code::Bytes(program) => Ok(MarkedImage {
            image: image_of(alloc, memory, program),
            marks: Marks::none(alloc),
        }),
        Code::Source { file: text, told } => {
            let made = make_assembly(alloc, Isa::Cdp1802, text.as_slice())?;
            let image = lay_out_both(alloc, &made)?;
            let marks = Marks::of(alloc, Isa::Cdp1802, text.as_slice(), told, made)?;
            Ok(MarkedImage { image, marks })
        }
    }
}
