//! A small ROM, and what a whole board makes of it.

ghost use Rattle.std.specs.Prelude.{◌≡◌};

use crate::processor::fields::Fields;
use crate::processor::setup::Setup;
use crate::processor::vector::State;
use std::alloc::Global;
use vip_board::{Board, Moved};
use vip_cpu::Phase;

/// The state of a processor that isn't begun by reset: R(3) is the program counter, and X = 2.
#[rattlefmt::skip]
const AT_0300: State = State {
    r: [0, 0, 0, 0x0300, 0, 0, 0, 0, 0, 0, 0, 0, 0, 0, 0, 0],
    d: 0,
    t: 0,
    xp: 0x23,
    bits: 0,
};

/// Whether a board comes to what is due by the lines of a small ROM.
pub fn passes(alloc: Global, lines: &str) -> bool {
    let Some(setup) = setup_of(lines) else {
        return false;
    };
    match setup.board(alloc) {
        Ok(mut board) => follows(&mut board, lines),
        Err(_) => false,
    }
}

/// How a board begins by these lines. None where one isn't right.
fn setup_of(lines: &str) -> Option<Setup<'_>> {
    let mut setup = Setup::empty();
    for line in lines.lines() {
        if !add(&mut setup, Fields::of(line)) {
            return None;
        }
    }
    Some(setup)
}

/// Takes a further line. Answers whether it is right; one of what is due says nothing here.
fn add<'a>(setup: &mut Setup<'a>, mut line: Fields<'a>) -> bool {
    match line.take() {
        "fill" => setup.rom.fill(line.byte()),
        "rom" => put(&mut setup.rom, &mut line),
        "ram" => put(&mut setup.ram, &mut line),
        "keys" => {
            line.require(setup.keys.is_empty());
            setup.keys = line.rest();
        }
        "from" => setup.start = Some((AT_0300, line.decimal())),
        _ => {}
    }
    line.is_right()
}

/// Puts the bytes of a line into others: the place of the first, and their digits.
fn put(bytes: &mut [u8], line: &mut Fields<'_>) {
    let place = usize::from(line.word());
    let digits = line.take();
    match bytes.get_mut(place..place + digits.len() / 2) {
        Some(into) => line.decode(digits, into),
        None => line.require(false),
    }
}

/// Makes the moves that the lines want, and answers whether the board is as it is due.
fn follows(board: &mut Board, lines: &str) -> bool
    requires { board.old.phase ≡ Phase.Boundary }
{
    for line in lines.lines() {
        let mut line = Fields::of(line);
        match line.take() {
            "to" => run(board, line.decimal()),
            what => {
                if !is_due(board, what, &mut line) {
                    return false;
                }
            }
        }
    }
    true
}

/// Makes all moves that end by a cycle.
fn run(board: &mut Board, limit: u64)
    requires { board.old.phase ≡ Phase.Boundary }
    ensures { board.new.phase ≡ Phase.Boundary }
{
    for _move in 0..limit {
        if board.to_boundary(limit) == Moved::End {
            break;
        }
    }
}

/// Whether a board is as a line says, which is right. A line of how it begins says nothing here.
fn is_due(board: &Board, what: &str, line: &mut Fields<'_>) -> bool {
    let is_so = match what {
        "" | "fill" | "rom" | "ram" | "keys" | "from" => true,
        "line" => shows(board, line),
        "r" => board.cpu().r((line.decimal() % 16) as u8) == line.word(),
        "byte" => board.memory().read(line.word()) == line.byte(),
        _ => number_of(board, what) == Some(line.decimal()),
    };
    is_so && line.is_right()
}

/// Whether the last picture has these bytes in a line.
fn shows(board: &Board, line: &mut Fields<'_>) -> bool {
    let number = line.decimal();
    let mut bytes = [0; 8];
    line.put(&mut bytes);
    match board.video().finished() {
        Some(picture) => picture.lines[(number % 128) as usize] == bytes,
        None => false,
    }
}

/// What a board says by one number.
fn number_of(board: &Board, what: &str) -> Option<u64> {
    match what {
        "now" => Some(board.now()),
        "pictures" => Some(board.video().count()),
        "on" => Some(u64::from(board.video().is_on())),
        "idle" => Some(u64::from(board.cpu().idle())),
        "latch" => Some(u64::from(board.memory().latch_set())),
        "q" => Some(u64::from(board.cpu().q())),
        "key" => Some(u64::from(board.keypad().latched())),
        _ => None,
    }
}
