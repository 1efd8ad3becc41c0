//! The demonstration games.

ghost use Rattle.std.specs.Prelude.{◌≡◌, ◌≤◌, IfOk, length};
ghost use Rattle.chip8_lang.specs.State.{memory_size};
ghost use Rattle.chip8_lang.specs.declared.view.Edition.TheVariants.{Usual};
ghost use Rattle.vip_tools.specs.Demo.{demo_game, made_game, opcode_by};

use std::alloc::{AllocError, Global};
use vip_link::next_random;
use vip_words::MadeGame;

/// The opcodes of a game by random numbers.
const RANDOM_OPCODES: u32 = 1613;

/// An opcode by the high half of a random number.
#[tactic(auto, unfolding(crate::specs::Demo::opcode_by))]
fn opcode_by(r: u16) -> u16
    ensures { result ≡ opcode_by r }
{
    let x = r / 8 % 16 * 256;
    let y = r / 128 % 16 * 16;
    let byte = r / 256;
    match r % 8 {
        0 => 0x6000 + x + byte,
        1 => 0x7000 + x + byte,
        2 => 0x8004 + x + y,
        3 => 0x8005 + x + y,
        4 => 0x8006 + x + y,
        5 => 0xC000 + x + byte,
        6 => 0x3000 + x + byte,
        _ => 0xD005 + x + y,
    }
}

/// The 3,232 bytes of the demonstration game of a number.
pub fn demo_game(alloc: Global, number: u32) -> Result<Vec<u8>, AllocError>
    ensures game { IfOk result (λ game. game.items ≡ demo_game number) }
    ensures size { IfOk result (λ game. length game.items ≡ 3232) }
{
    let mut game = Vec::new(alloc);
    game.extend_from_slice(&[0xF0, 0x29])?;
    let mut x = number;
    for _ in 0..RANDOM_OPCODES {
        x = next_random(x);
        game.extend_from_slice(&opcode_by((x / 65536) as u16).to_be_bytes())?;
    }
    game.extend_from_slice(&[0x12, 0x00, 0x12, 0x00])?;
    Ok(game)
}

/// A game that the program makes, which fits into the game memory of the usual edition.
pub fn made_game(alloc: Global, made: MadeGame) -> Result<Vec<u8>, AllocError>
    ensures game { IfOk result (λ game. game.items ≡ made_game made) }
    ensures size { IfOk result (λ game. length game.items ≤ memory_size Usual) }
{
    match made {
        MadeGame::Demo(number) => demo_game(alloc, number),
    }
}
