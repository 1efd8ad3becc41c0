//! Writing the file of a machine state.

ghost use Rattle.std.specs.Prelude.{◌≡◌, ◌+◌, ◌-◌, ◌*◌, ◌<◌, ◌≤◌, ◌++◌, [], length, slice_range};
ghost use Rattle.arrayvec.specs.ArrayVec.{array_vec_len};
ghost use Rattle.machine.specs.Bit.{bit};
ghost use Rattle.vip_memory.specs.Contents.{page_at};
ghost use Rattle.vip_text.specs.StateFile.{edition_byte};
ghost use Rattle.vip_outside.specs.Pieces.{StreamAnswers};
ghost use Rattle.vip_show.specs.Written.{ProgramGoesOn, file_of, head_of, if_on, middle_of, program_head_of, program_part_of, program_pieces_of, register_bytes};

use chip8_lang::Edition;
use vip_board::Board;
use vip_byte::{Buffer, put};
use vip_cpu::Cpu;
use vip_memory::Memory;
use vip_outside::{Failed, Sink};
use vip_relation::{Run, Vip, put_page};
use vip_text::program_file::{DISPLAY, FORMAT, IDLE, INTERRUPTS, LATCH};

/// Writes the file of the machine state of a run into an empty buffer. At a dispatch point it is an accepted file of the run's edition, and shows the
/// state of the board (`rom_board::saved`).
pub(crate) fn write_run(run: &Run, into: &mut Buffer)
    requires { into.old.items ≡ [] }
    ensures { into.new.items ≡ file_of run.now.edition run.now.board.machine }
{
    put_file(run.edition(), run.board(), into);
}

/// Writes the file of the machine state of a `Vip` into an empty buffer, as `save` writes that of a run. At a dispatch point it is an accepted file of its
/// edition, and shows the state of its board.
pub fn write_state(vip: &Vip, into: &mut Buffer)
    requires { into.old.items ≡ [] }
    ensures { into.new.items ≡ file_of vip.now.edition vip.now.board.machine }
{
    write_run(vip.as_run(), into);
}

/// Puts the file of a board of an edition into an empty buffer.
fn put_file(edition: Edition, board: &Board, into: &mut Buffer)
    requires ram { length board.now.machine.ram ≡ 0x1000 }
    requires empty { into.old.items ≡ [] }
    ensures { into.new.items ≡ file_of edition board.now.machine }
{
    put_head(edition, board, into);
    put_ram(board.memory(), into);
}

/// The byte of an edition.
fn edition_byte(edition: Edition) -> u8
    ensures { result ≡ edition_byte edition }
{
    match edition {
        Edition::Usual => 0,
        Edition::Tall => 1,
    }
}

/// Puts all bytes before RAM into an empty buffer.
fn put_head(edition: Edition, board: &Board, into: &mut Buffer)
    requires { into.old.items ≡ [] }
    ensures items { into.new.items ≡ head_of edition board.now.machine }
    ensures len { array_vec_len into.new ≡ 51 }
{
    put(into, &[0x56, 0x49, 0x50, 0x53, 0x01, edition_byte(edition)]);
    put_middle(board, into);
}

/// Appends the bytes from the cycle up to before RAM.
fn put_middle(board: &Board, into: &mut Buffer)
    requires { array_vec_len into.old ≡ 6 }
    ensures items { into.new.items ≡ into.old.items ++ middle_of board.now.machine }
    ensures len { array_vec_len into.new ≡ 51 }
{
    let cpu = board.cpu();
    put(into, &board.now().to_be_bytes());
    put_registers(cpu, into);
    put(
        into,
        &[
            cpu.d(),
            cpu.t(),
            16 * cpu.x() + cpu.p(),
            number(cpu.df()) + 2 * number(cpu.q()),
            board.keypad().latched(),
        ],
    );
}

/// Appends R(0) to R(F).
fn put_registers(cpu: &Cpu, into: &mut Buffer)
    requires { array_vec_len into.old ≡ 14 }
    ensures items { into.new.items ≡ into.old.items ++ register_bytes cpu.now.regs.r 16 }
    ensures len { array_vec_len into.new ≡ 46 }
{
    for n in 0..16 {
        let word = cpu.r(n);
        put(into, &[(word / 256) as u8, (word % 256) as u8]);
    }
}

/// Appends RAM.
fn put_ram(memory: &Memory, into: &mut Buffer)
    requires { array_vec_len into.old ≡ 51 }
    ensures { into.new.items ≡ into.old.items ++ slice_range memory.now.ram 0 0x1000 }
{
    for high in 0..0x10 {
        put_page(memory, high, into);
    }
}

/// A flag as a number.
fn number(flag: bool) -> u8
    ensures { result ≡ bit flag }
{
    if flag { 1 } else { 0 }
}

/// So much where this holds, and else nothing.
fn if_on(on: bool, weight: u8) -> u8
    ensures value { result ≡ if_on on weight }
    ensures few { result ≤ weight }
{
    if on { weight } else { 0 }
}

/// Puts all bytes before RAM of the file of a program's machine into an empty buffer.
fn put_program_head(board: &Board, into: &mut Buffer)
    requires { into.old.items ≡ [] }
    ensures items { into.new.items ≡ program_head_of board.now.machine }
    ensures len { array_vec_len into.new ≡ 51 }
{
    let cpu = board.cpu();
    let switches = if_on(board.memory().latch_set(), LATCH)
        + (if_on(board.video().is_on(), DISPLAY)
            + (if_on(cpu.ie(), INTERRUPTS) + if_on(cpu.idle(), IDLE)));
    put(into, &[0x56, 0x49, 0x50, 0x53, FORMAT, switches]);
    put_middle(board, into);
}

/// Puts all bytes before the ROM into an empty buffer.
fn put_program_part(board: &Board, into: &mut Buffer)
    requires { into.old.items ≡ [] }
    ensures { into.new.items ≡ program_part_of board.now.machine }
{
    let memory = board.memory();
    memory.sizes();
    put_program_head(board, into);
    put_ram(memory, into);
}

/// Puts a page of the ROM into a buffer that has room for it.
fn put_rom_page(memory: &Memory, high: u8, into: &mut Buffer)
    requires rom { (0x80 ≤ high) × (high < 0x88) }
    requires room { array_vec_len into.old + 256 ≤ 0x800 }
    ensures items { into.new.items ≡ into.old.items ++ page_at memory.now.rom (high - 0x80) }
    ensures len { array_vec_len into.new ≡ array_vec_len into.old + 256 }
{
    if let Some(page) = memory.page(high) {
        put(into, page);
    }
}

/// Puts the ROM into an empty buffer.
fn put_rom(memory: &Memory, into: &mut Buffer)
    requires { into.old.items ≡ [] }
    ensures { into.new.items ≡ memory.now.rom }
{
    memory.sizes();
    for page in 0..8 {
        put_rom_page(memory, 0x80 + page, into);
    }
}

/// Puts the file of a program's machine, as two pieces: all before the ROM, and the ROM. It is accepted, and shows the machine and the ROM of the board.
pub fn put_program_state<O: Sink>(board: &Board, out: &mut O) -> Result<(), Failed>
    ensures answer { StreamAnswers (program_pieces_of board.now.rom board.now.machine) (O.meaning out.old) (O.meaning out.new) result }
    ensures law { ProgramGoesOn board.now.rom board.now.machine }
{
    let mut piece = Buffer::new();
    put_program_part(board, &mut piece);
    out.put(piece.as_slice())?;
    let mut rom = Buffer::new();
    put_rom(board.memory(), &mut rom);
    out.put(rom.as_slice())
}
