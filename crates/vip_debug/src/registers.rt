//! The command that shows the registers.

ghost use Rattle.std.specs.Prelude.{◌≡◌, ◌+◌, ◌≤◌, ◌++◌, []};
ghost use Rattle.arrayvec.specs.ArrayVec.{array_vec_len};
ghost use Rattle.vip_byte.specs.Room.{HasRoom};
ghost use Rattle.vip_outside.specs.Sink.{PutAnswers};
ghost use Rattle.vip_outside.specs.Pieces.{StreamAnswers};
ghost use Rattle.vip_debug.specs.BoardShown.{control_text, cycle_text, processor_line, registers_line, registers_text, regs_lines};

use vip_board::Board;
use vip_byte::{Buffer, hex2, hex4, put, put_bit, put_number};
use vip_cpu::Cpu;
use vip_outside::{Failed, Sink};
use vip_program::put_selected;

/// Appends the machine cycle of a board.
pub fn put_cycle(into: &mut Buffer, board: &Board)
    requires { HasRoom into.old.items 46 }
    ensures items { into.new.items ≡ into.old.items ++ cycle_text board.now.machine }
    ensures len { array_vec_len into.new ≤ array_vec_len into.old + 46 }
{
    put(into, b"cycle ");
    put_number(into, board.now());
}

/// Appends Q, IE, T, and whether the processor idles.
fn put_control(into: &mut Buffer, cpu: &Cpu)
    requires { HasRoom into.old.items 20 }
    ensures items { into.new.items ≡ into.old.items ++ control_text cpu.now.regs }
    ensures len { array_vec_len into.new ≡ array_vec_len into.old + 20 }
{
    put(into, b" Q ");
    put_bit(into, cpu.q());
    put(into, b" IE ");
    put_bit(into, cpu.ie());
    put(into, b" T ");
    put(into, &hex2(cpu.t()));
    put(into, b" IDL ");
    put_bit(into, cpu.idle());
}

/// Appends R0 to RF.
fn put_registers(into: &mut Buffer, cpu: &Cpu)
    requires { HasRoom into.old.items 80 }
    ensures items { into.new.items ≡ into.old.items ++ registers_text cpu.now.regs 16 }
    ensures len { array_vec_len into.new ≡ array_vec_len into.old + 80 }
{
    for number in 0..16u8 {
        put(into, b" ");
        put(into, &hex4(cpu.r(number)));
    }
}

fn put_processor_line<O: Sink>(board: &Board, out: &mut O) -> Result<(), Failed>
    ensures { PutAnswers (processor_line board.now.machine) (O.meaning out.old) (O.meaning out.new) result }
{
    let mut text = Buffer::new();
    put_cycle(&mut text, board);
    put_selected(&mut text, board.cpu());
    put_control(&mut text, board.cpu());
    put(&mut text, b"\n");
    out.put(text.as_slice())
}

fn put_registers_line<O: Sink>(board: &Board, out: &mut O) -> Result<(), Failed>
    ensures { PutAnswers (registers_line board.now.machine) (O.meaning out.old) (O.meaning out.new) result }
{
    let mut text = Buffer::new();
    put(&mut text, b"R");
    put_registers(&mut text, board.cpu());
    put(&mut text, b"\n");
    out.put(text.as_slice())
}

/// Puts the registers of the processor.
pub fn put_regs<O: Sink>(board: &Board, out: &mut O) -> Result<(), Failed>
    ensures { StreamAnswers (regs_lines board.now.machine) (O.meaning out.old) (O.meaning out.new) result }
{
    put_processor_line(board, out)?;
    put_registers_line(board, out)
}
