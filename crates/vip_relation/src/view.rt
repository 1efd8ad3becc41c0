//! Reading a language state off a board.

ghost use Rattle.std.specs.Prelude.{◌≡◌, ◌<◌, ◌≤◌, ◌+◌, ◌*◌, ◌++◌, length, replicate, slice_index, slice_range};
ghost use Rattle.arrayvec.specs.ArrayVec.{array_vec_len};
ghost use Rattle.chip8_lang.specs.Editions.{variables, screen_start};
ghost use Rattle.chip8_lang.specs.View.{seen, view_at};
ghost use Rattle.vip_memory.specs.Contents.{page_at};
ghost use Rattle.vip_relation.specs.Reading.{opcode_in, stack_in};
ghost use Rattle.vip_relation.specs.State.{screen_size};

use arrayvec::ArrayVec;
use chip8_image::{GAME, Places, RAM_END, RANDOM_CELL, STOP_CELL};
use chip8_lang::{Edition, StateView};
use vip_board::Board;
use vip_keypad::Keys;
use vip_memory::Memory;

/// The most addresses on the stack.
const MOST_ADDRESSES: u16 = 12;

/// The bytes of a page.
const PAGE: usize = 256;

/// The bytes of the larger screen, of the tall edition.
const MOST_SCREEN: usize = 512;

/// The view of the language state that is read off a board.
#[inline(never)]
pub fn view<K: Keys>(edition: Edition, board: &Board<K>) -> StateView
    ensures { seen result ≡ view_at edition board.now.machine }
{
    let cpu = board.cpu();
    let memory = board.memory();
    let pc = cpu.r(5);
    let timers = cpu.r(8);
    StateView {
        v: variables(edition, memory),
        i: cpu.r(10),
        pc,
        opcode: opcode(edition, memory, pc),
        stack: stack(edition, memory, cpu.r(2)),
        dt: (timers / 256) as u8,
        st: (timers % 256) as u8,
        tone: cpu.q(),
        n: cpu.r(9),
        b: ram_byte(memory, RANDOM_CELL),
        cycle: board.now(),
    }
}

/// A screen of an edition: 256 bytes, or 512 in the tall edition.
pub type Screen = ArrayVec<u8, MOST_SCREEN>;

/// A dark screen.
pub fn dark(edition: Edition) -> Screen
    ensures items { result.items ≡ replicate (screen_size edition) 0 }
    ensures size { length result.items ≡ screen_size edition }
{
    let size = usize::from(RAM_END - Places::of(edition).screen) * PAGE;
    let mut bytes = Screen::new();
    put(&mut bytes, &[0; MOST_SCREEN][..size]);
    bytes
}

/// Copies the bytes of the screen, over what was there.
#[inline(never)]
pub fn copy_screen(edition: Edition, memory: &Memory, into: &mut Screen)
    ensures items { into.new.items ≡ slice_range memory.now.ram (screen_start edition) 0x1000 }
    ensures size { length into.new.items ≡ screen_size edition }
{
    into.clear();
    for high in Places::of(edition).screen..RAM_END {
        put_page(memory, high, into);
    }
}

/// Appends a page of RAM, for which there is room.
pub fn put_page<const SIZE: usize>(memory: &Memory, high: u8, into: &mut ArrayVec<u8, SIZE>)
    requires ram { high < 0x10 }
    requires room { array_vec_len into.old + 256 ≤ SIZE }
    ensures items { into.new.items ≡ into.old.items ++ page_at memory.now.ram high }
    ensures len { array_vec_len into.new ≡ array_vec_len into.old + 256 }
{
    if let Some(page) = memory.page(high) {
        let _ = into.try_extend_from_slice(page);
    }
}

/// Appends these bytes, for which there is room.
fn put(into: &mut Screen, bytes: &[u8])
    requires { array_vec_len into.old + length bytes.now ≤ 512 }
    ensures items { into.new.items ≡ into.old.items ++ bytes.now }
    ensures len { array_vec_len into.new ≡ array_vec_len into.old + length bytes.now }
{
    let _ = into.try_extend_from_slice(bytes);
}

/// The number of the stop that a stopped board keeps in its cell.
pub fn stop_number<K: Keys>(board: &Board<K>) -> u8
    ensures { result ≡ slice_index board.now.machine.ram 0x01F0 }
{
    ram_byte(board.memory(), STOP_CELL)
}

/// A byte of RAM, whatever the boot latch is.
fn ram_byte(memory: &Memory, address: u16) -> u8
    requires { address < 0x1000 }
    ensures { result ≡ slice_index memory.now.ram address }
{
    match memory.page((address / 256) as u8) {
        Some(page) => page[(address % 256) as usize],
        None => 0,
    }
}

/// V0 to VF.
fn variables(edition: Edition, memory: &Memory) -> [u8; 16]
    ensures { result ≡ slice_range memory.now.ram (variables edition) (variables edition + 16) }
{
    let mut v = [0; 16];
    if let Some(page) = memory.page(Places::of(edition).variables) {
        v.copy_from_slice(&page[0xF0..0x100]);
    }
    v
}

/// The opcode at pc, where both its bytes lie in game memory.
pub fn opcode(edition: Edition, memory: &Memory, pc: u16) -> Option<u16>
    ensures { result ≡ opcode_in edition memory.now.ram pc }
{
    if pc < GAME || pc > Places::of(edition).memory_end - 2 {
        return None;
    }
    Some(u16::from(ram_byte(memory, pc)) * 256 + u16::from(ram_byte(memory, pc + 1)))
}

/// The addresses on the stack, the oldest first, of which there are at most 12, by R2.
fn stack(edition: Edition, memory: &Memory, r2: u16) -> ArrayVec<u16, 12>
    ensures { result.items ≡ stack_in edition memory.now.ram r2 }
{
    let top = Places::of(edition).stack_top;
    let depth = (top.saturating_sub(r2) / 2).min(MOST_ADDRESSES);
    let mut addresses = ArrayVec::new();
    for k in 0..depth {
        let low = top - 2 * k;
        let address = u16::from(ram_byte(memory, low - 1)) * 256 + u16::from(ram_byte(memory, low));
        addresses.push(address);
    }
    addresses
}
