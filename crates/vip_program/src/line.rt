//! The line of a move.

ghost use Rattle.std.specs.Prelude.{◌≡◌, ◌+◌, ◌*◌, ◌≤◌, ◌<◌, ◌++◌, [], ◌∷◌, length};
ghost use Rattle.arrayvec.specs.ArrayVec.{array_vec_len};
ghost use Rattle.machine.specs.Board.{byte_of, opcode_of};
ghost use Rattle.machine.specs.Instruction.{at, stepped};
ghost use Rattle.machine.specs.Memory.{read};
ghost use Rattle.vip_byte.specs.Room.{HasRoom};
ghost use Rattle.vip_isa.specs.Texts.{instruction_text};
ghost use Rattle.vip_board.specs.Seen.{held_by};
ghost use Rattle.vip_program.specs.Lines.{code_text, cycle_column, fetch_text, flag_in, named_text, names_at, opcode_in, place_text, register_text, selected_text, state_text, three_at};
ghost use Rattle.vip_program.specs.Columns.{left};
ghost use Rattle.vip_program.specs.Names.{IsNamed};

use crate::names::{Names, names_in};
use crate::write::{fill, put_digit, put_digits, put_right};
use asm_core::size_at;
use vip_board::Board;
use vip_byte::{Buffer, MOST_CYCLE, add16, hex2, hex4, put, put_bit};
use vip_cpu::Cpu;
use vip_isa::{decode, instruction_text};
use vip_memory::Memory;

/// Appends the cycle of a board.
pub fn put_cycle(into: &mut Buffer, board: &Board)
    requires cycle { board.now.machine.cycle ≤ MOST_CYCLE }
    requires room { HasRoom into.old.items 10 }
    ensures items { into.new.items ≡ into.old.items ++ cycle_column board.now.machine }
    ensures len { array_vec_len into.new ≡ array_vec_len into.old + 10 }
{
    put_right(into, board.now());
}

// ---- an instruction

/// What an opcode names.
#[tactic(auto, unfolding(crate::specs::Lines::names_at))]
fn names_at(opcode: u8) -> Names
    ensures value { result ≡ names_at opcode }
    ensures named { IsNamed result }
{
    names_in(decode(opcode))
}

/// The opcode at an address, and the two bytes behind it.
pub(crate) fn three_at(memory: &Memory, address: u16) -> [u8; 3]
    ensures { result ≡ three_at (read memory.now.rom memory.now.latch memory.now.ram) address }
{
    [
        memory.read(address),
        memory.read(add16(address, 1)),
        memory.read(add16(address, 2)),
    ]
}

/// Appends the bytes of an instruction in a column of six.
pub(crate) fn put_code(into: &mut Buffer, three: [u8; 3])
    requires { HasRoom into.old.items 12 }
    ensures items { into.new.items ≡ into.old.items ++ code_text three }
    ensures len { array_vec_len into.new ≤ array_vec_len into.old + 6 }
{
    let start = into.len();
    put_digits(into, &three[..usize::from(size_at(three[0]))]);
    fill(into, start, 6);
}

/// Appends the mnemonic of an instruction with its operand in a column of eleven.
fn put_text(into: &mut Buffer, address: u16, three: [u8; 3])
    requires { HasRoom into.old.items 22 }
    ensures items { into.new.items ≡ into.old.items ++ left 11 (instruction_text address three) }
    ensures len { array_vec_len into.new ≤ array_vec_len into.old + 11 }
{
    let start = into.len();
    put(into, instruction_text(address, three).as_slice());
    fill(into, start, 11);
}

/// Appends the address of an instruction, its bytes and its text.
#[tactic(auto, unfolding(crate::specs::Lines::place_text))]
fn put_place(into: &mut Buffer, address: u16, three: [u8; 3])
    requires { HasRoom into.old.items 40 }
    ensures items { into.new.items ≡ into.old.items ++ place_text address three }
    ensures len { array_vec_len into.new ≤ array_vec_len into.old + 24 }
{
    put(into, b" ");
    put(into, &hex4(address));
    put(into, b" ");
    put_code(into, three);
    put(into, b" ");
    put_text(into, address, three);
}

// ---- what the processor has

/// Appends P, X, D and DF.
pub fn put_selected(into: &mut Buffer, cpu: &Cpu)
    requires { HasRoom into.old.items 18 }
    ensures items { into.new.items ≡ into.old.items ++ selected_text cpu.now.regs }
    ensures len { array_vec_len into.new ≡ array_vec_len into.old + 18 }
{
    put(into, b" P ");
    put_digit(into, cpu.p());
    put(into, b" X ");
    put_digit(into, cpu.x());
    put(into, b" D ");
    put(into, &hex2(cpu.d()));
    put(into, b" DF ");
    put_bit(into, cpu.df());
}

/// Appends a register and the byte that it points to.
#[tactic(auto, unfolding(crate::specs::Lines::register_text))]
fn put_register(into: &mut Buffer, board: &Board, number: u8)
    requires number { number < 16 }
    requires room { HasRoom into.old.items 8 }
    ensures items { into.new.items ≡ into.old.items ++ register_text board.now.rom board.now.machine number }
    ensures len { array_vec_len into.new ≡ array_vec_len into.old + 8 }
{
    let address = board.cpu().r(number);
    put(into, b" ");
    put(into, &hex4(address));
    put(into, b" ");
    put(into, &hex2(board.memory().read(address)));
}

/// Whether a flag is active as the next instruction sees it, in the cycle after its fetch.
fn flag_in(board: &Board, flag: u8) -> bool
    requires cycle { board.now.machine.cycle ≤ MOST_CYCLE }
    ensures { result ≡ flag_in (held_by board.now) board.now.machine flag }
{
    let cycle = board.now() + 1;
    match flag {
        1 => board.video().signals(cycle).efx,
        3 => {
            let keypad = board.keypad();
            keypad.down(cycle, keypad.latched())
        }
        _ => false,
    }
}

/// The byte that OUT sends: that at R(X). Where X = P it stands behind the opcode, since the fetch adds 1 to R(P).
fn sent_byte(board: &Board) -> u8
    ensures { result ≡ byte_of board.now.rom board.now.machine (at (stepped board.now.machine.regs board.now.machine.regs.p) board.now.machine.regs.x) }
{
    let cpu = board.cpu();
    let address = cpu.r(cpu.x());
    if cpu.x() == cpu.p() {
        board.memory().read(add16(address, 1))
    } else {
        board.memory().read(address)
    }
}

/// Appends what the instruction at R(P) names, which is this.
fn put_named(into: &mut Buffer, names: Names, board: &Board)
    requires names { names ≡ names_at (opcode_of board.now.rom board.now.machine) }
    requires named { IsNamed names }
    requires cycle { board.now.machine.cycle ≤ MOST_CYCLE }
    requires room { HasRoom into.old.items 12 }
    ensures items { into.new.items ≡ into.old.items ++ named_text board.now.rom (held_by board.now) names board.now.machine }
    ensures len { array_vec_len into.new ≤ array_vec_len into.old + 12 }
{
    match names {
        Names::Register(number) => {
            put(into, b"  R");
            put_digit(into, number);
            put_register(into, board, number);
        }
        Names::Flag(flag) => {
            put(into, b"  EF");
            put_digit(into, flag);
            put(into, b" ");
            put_bit(into, flag_in(board, flag));
        }
        Names::Output(_) => {
            put(into, b"  BUS ");
            put(into, &hex2(sent_byte(board)));
        }
        Names::Input(_) => put(into, b"  BUS 00"),
        Names::Nothing => {}
    }
}

/// Appends what the processor has before the instruction at R(P), which names this.
#[tactic(auto, unfolding(crate::specs::Lines::state_text))]
fn put_state(into: &mut Buffer, names: Names, board: &Board)
    requires names { names ≡ names_at (opcode_of board.now.rom board.now.machine) }
    requires named { IsNamed names }
    requires cycle { board.now.machine.cycle ≤ MOST_CYCLE }
    requires room { HasRoom into.old.items 46 }
    ensures items { into.new.items ≡ into.old.items ++ state_text board.now.rom (held_by board.now) names board.now.machine }
    ensures len { array_vec_len into.new ≤ array_vec_len into.old + 46 }
{
    let cpu = board.cpu();
    put_selected(into, cpu);
    put(into, b" Q ");
    put_bit(into, cpu.q());
    put(into, b"  RX");
    put_register(into, board, cpu.x());
    put_named(into, names, board);
}

/// Appends what the line of an instruction says behind its cycle: the board's next move is one.
#[tactic(auto, unfolding(crate::specs::Lines::fetch_text))]
pub fn put_instruction(into: &mut Buffer, board: &Board)
    requires cycle { board.now.machine.cycle ≤ MOST_CYCLE }
    requires room { HasRoom into.old.items 90 }
    ensures items { into.new.items ≡ into.old.items ++ fetch_text board.now.rom (held_by board.now) board.now.machine }
    ensures len { array_vec_len into.new ≤ array_vec_len into.old + 70 }
{
    let cpu = board.cpu();
    let address = cpu.r(cpu.p());
    let three = three_at(board.memory(), address);
    put_place(into, address, three);
    put_state(into, names_at(three[0]), board);
}
