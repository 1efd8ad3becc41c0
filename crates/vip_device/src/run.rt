//! Runs of a device.

ghost use Rattle.std.specs.Prelude.{List, ◌≡◌, ◌+◌, ◌<◌, ◌≤◌, ℕ};
ghost use Rattle.machine.specs.Keys.{Event, held_at};
ghost use Rattle.machine.specs.Ranges.{FitsMachine, FitsRom};
ghost use Rattle.vip_board.specs.Alike.{HoldAlike};
ghost use Rattle.machine.specs.Run.{after_moves};
ghost use Rattle.vip_board.specs.Moves.{moved_by};
ghost use Rattle.vip_keypad.specs.Held.{held_events};
ghost use Rattle.vip_device.specs.Device.{machine_in};

use crate::board::{board_of, store};
use crate::codes::{
    DISPATCH, IDLE, LIMIT, MOVED_DMA, MOVED_IDLE, MOVED_INSTRUCTION, MOVED_INTERRUPT, NO_GAME,
    PICTURE, PLACE,
};
use crate::device::{MOST_TURNS, VipDevice, VipPlace};
use crate::places::{Places, QTurns, place_set};
use chip8_image::{FETCH, HALT};
use chip8_lang::Edition;
use vip_board::{Board, Move, Moved, Stops};
use vip_cpu::Phase;
use vip_keypad::KeySet;
use vip_relation::{Point, point_at};
use vip_video::FRAME_CYCLES;

/// What a run is to stop at.
#[derive(Clone, Copy)]
pub enum Wanted {
    Limit,
    Picture,
    Places(Places),
    Dispatch,
}

/// The code of the stop whose number a stopped game keeps in its cell: 11 to 17.
pub fn stop_code(board: &Board<KeySet>) -> u8
    ensures { result ≤ 17 }
{
    10 + board.memory().ram()[0x01F0].min(7).max(1)
}

/// The code of a board that makes no further move: a game at its stop point, or a processor that nothing can wake.
fn resting(edition: Option<Edition>, board: &Board<KeySet>) -> Option<i32>
    requires { board.now.phase ≡ Phase.Boundary }
{
    if let Some(edition) = edition {
        if let Point::Stop = point_at(edition, board) {
            return Some(i32::from(stop_code(board)));
        }
    }
    if board.sleeps() { Some(IDLE) } else { None }
}

/// The code where what is wanted is met, and the number of the place.
fn met(
    wanted: &Wanted,
    edition: Option<Edition>,
    board: &Board<KeySet>,
    pictures: u64,
) -> Option<(i32, u8)>
    requires { board.now.phase ≡ Phase.Boundary }
{
    match wanted {
        Wanted::Limit => None,
        Wanted::Picture => {
            if board.video().count() != pictures {
                Some((PICTURE, 0))
            } else {
                None
            }
        }
        Wanted::Places(places) => match board.next_move() {
            Move::Instruction(address) => match places.find(address, board.cpu().p()) {
                Some(number) => Some((PLACE, number)),
                None => None,
            },
            _ => None,
        },
        Wanted::Dispatch => match edition {
            Some(edition) => match point_at(edition, board) {
                Point::Dispatch => Some((DISPATCH, 0)),
                _ => None,
            },
            None => None,
        },
    }
}

/// Notes a change of Q and a new picture after a board has moved.
fn note(device: &mut VipDevice, board: &Board<KeySet>, q: bool, pictures: u64)
    ensures rom { device.new.rom ≡ device.old.rom }
    ensures kind { device.new.kind ≡ device.old.kind }
{
    if board.cpu().q() != q {
        let count = device.turn_count as usize;
        if count < MOST_TURNS {
            device.turns[count] = board.now();
        }
        device.turn_count = device.turn_count.saturating_add(1);
    }
    if board.video().count() != pictures {
        device.frame = board.now() / FRAME_CYCLES;
    }
}

/// Runs a board up to what is wanted.
#[inline(always)]
fn run_board<S: Stops>(
    device: &mut VipDevice,
    board: &mut Board<KeySet>,
    limit: u64,
    stops: S,
    wanted: &Wanted,
) -> i32
    requires { board.old.phase ≡ Phase.Boundary }
    ensures moves { (n : ℕ) × (board.new ≡ moved_by n board.old) }
    ensures rom { device.new.rom ≡ device.old.rom }
    ensures kind { device.new.kind ≡ device.old.kind }
{
    let edition = device.edition();
    loop {
        if let Some(code) = resting(edition, board) {
            return code;
        }
        let q = board.cpu().q();
        let pictures = board.video().count();
        if board.run(limit, (QTurns { from: q }, stops)) == 0 {
            return LIMIT;
        }
        note(device, board, q, pictures);
        if let Some((code, place)) = met(wanted, edition, board, pictures) {
            device.place = place;
            return code;
        }
    }
}

/// Runs a device up to what is wanted.
fn run_device(device: &mut VipDevice, keys: u16, limit: u64, wanted: Wanted) -> i32
    ensures machine { (n : ℕ) × (machine_in device.new ≡ after_moves device.old.rom (held_at (held_events keys)) (machine_in device.old) n) }
    ensures alike { (script : List Event) → FitsRom device.old.rom → FitsMachine (machine_in device.old) → HoldAlike device.old.cycle device.new.cycle (held_events keys) script → (n : ℕ) × (machine_in device.new ≡ after_moves device.old.rom (held_at script) (machine_in device.old) n) }
    ensures rom { device.new.rom ≡ device.old.rom }
    ensures kind { device.new.kind ≡ device.old.kind }
{
    let mut board = board_of(device, keys);
    device.turn_count = 0;
    let code = match wanted {
        Wanted::Places(places) => run_board(device, &mut board, limit, (HALT, places), &wanted),
        Wanted::Dispatch => run_board(device, &mut board, limit, (HALT, FETCH), &wanted),
        Wanted::Limit | Wanted::Picture => run_board(device, &mut board, limit, HALT, &wanted),
    };
    store(&board, device);
    code
}

/// The code of one move.
fn code_of(moved: Moved) -> i32 {
    match moved {
        Moved::End => LIMIT,
        Moved::Done(Move::Dma) => MOVED_DMA,
        Moved::Done(Move::Interrupt) => MOVED_INTERRUPT,
        Moved::Done(Move::Idle) => MOVED_IDLE,
        Moved::Done(Move::Instruction(_)) => MOVED_INSTRUCTION,
    }
}

/// Makes one move.
#[unsafe(no_mangle)]
pub extern "C" fn vip_device_move(device: &mut VipDevice, keys: u16, limit: u64) -> i32
    ensures machine { (n : ℕ) × ((n ≤ 1) × (machine_in device.new ≡ after_moves device.old.rom (held_at (held_events keys)) (machine_in device.old) n)) }
    ensures rom { device.new.rom ≡ device.old.rom }
    ensures kind { device.new.kind ≡ device.old.kind }
{
    let mut board = board_of(device, keys);
    device.turn_count = 0;
    if let Some(code) = resting(device.edition(), &board) {
        return code;
    }
    let q = board.cpu().q();
    let pictures = board.video().count();
    let moved = board.to_boundary(limit);
    note(device, &board, q, pictures);
    store(&board, device);
    code_of(moved)
}

/// Runs up to the limit, with these keys held down.
#[unsafe(no_mangle)]
pub extern "C" fn vip_device_run(device: &mut VipDevice, keys: u16, limit: u64) -> i32
    ensures machine { (n : ℕ) × (machine_in device.new ≡ after_moves device.old.rom (held_at (held_events keys)) (machine_in device.old) n) }
    ensures alike { (script : List Event) → FitsRom device.old.rom → FitsMachine (machine_in device.old) → HoldAlike device.old.cycle device.new.cycle (held_events keys) script → (n : ℕ) × (machine_in device.new ≡ after_moves device.old.rom (held_at script) (machine_in device.old) n) }
    ensures rom { device.new.rom ≡ device.old.rom }
    ensures kind { device.new.kind ≡ device.old.kind }
{
    run_device(device, keys, limit, Wanted::Limit)
}

/// Runs up to the next finished picture.
#[unsafe(no_mangle)]
pub extern "C" fn vip_device_frame(device: &mut VipDevice, keys: u16, limit: u64) -> i32
    ensures machine { (n : ℕ) × (machine_in device.new ≡ after_moves device.old.rom (held_at (held_events keys)) (machine_in device.old) n) }
    ensures alike { (script : List Event) → FitsRom device.old.rom → FitsMachine (machine_in device.old) → HoldAlike device.old.cycle device.new.cycle (held_events keys) script → (n : ℕ) × (machine_in device.new ≡ after_moves device.old.rom (held_at script) (machine_in device.old) n) }
    ensures rom { device.new.rom ≡ device.old.rom }
    ensures kind { device.new.kind ≡ device.old.kind }
{
    run_device(device, keys, limit, Wanted::Picture)
}

/// Makes at least one move, and runs until the next move is the instruction at one of these places.
#[unsafe(no_mangle)]
pub extern "C" fn vip_device_run_to(
    device: &mut VipDevice,
    keys: u16,
    limit: u64,
    places: &[VipPlace],
) -> i32
    ensures machine { (n : ℕ) × (machine_in device.new ≡ after_moves device.old.rom (held_at (held_events keys)) (machine_in device.old) n) }
    ensures rom { device.new.rom ≡ device.old.rom }
    ensures kind { device.new.kind ≡ device.old.kind }
{
    match place_set(places) {
        Ok(Some(set)) => run_device(device, keys, limit, Wanted::Places(set)),
        Ok(None) => run_device(device, keys, limit, Wanted::Limit),
        Err(code) => code,
    }
}

/// Runs a game to its next dispatch point, and makes at least one move.
#[unsafe(no_mangle)]
pub extern "C" fn vip_device_opcode(device: &mut VipDevice, keys: u16, limit: u64) -> i32
    ensures machine { (n : ℕ) × (machine_in device.new ≡ after_moves device.old.rom (held_at (held_events keys)) (machine_in device.old) n) }
    ensures rom { device.new.rom ≡ device.old.rom }
    ensures kind { device.new.kind ≡ device.old.kind }
{
    if device.edition().is_none() {
        return NO_GAME;
    }
    run_device(device, keys, limit, Wanted::Dispatch)
}
