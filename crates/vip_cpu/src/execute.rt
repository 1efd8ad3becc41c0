//! What an instruction does after its fetch, by the groups of the data sheet's "Instruction Summary", and how long it takes where it is plain.
//!
//! The function of a group does the group's rows, with the flags and the memory that the bus has now.

ghost use Rattle.std.specs.Prelude.{◌≡◌, ◌≤◌, true, false, not};
ghost use Rattle.machine.specs.Bank.{value, get, up};
ghost use Rattle.machine.specs.Instruction.{effect, inputs, at, stepped, branched, long_branched};
ghost use Rattle.vip_isa.specs.Rows.{IsValid};
ghost use Rattle.vip_cpu.specs.Groups.{memory_kind, register_kind, logic_kind, arithmetic_kind, short_branch_kind, long_branch_kind, skip_kind, control_kind, input_output_kind, plain_cycles};
ghost use Rattle.vip_cpu.specs.Acts.{Acts};

use crate::bus::Bus;
use crate::groups::{
    Arithmetic, Control, Group, InputOutput, Logic, LongBranch, Memory, Register, ShortBranch,
    Skip, group_of,
};
use crate::registers::Registers;
use vip_isa::Op;

/// The machine cycles of each opcode whose instruction is plain, and 0 for the others.
static PLAIN_CYCLES: [u8; 256] = [
    0, 2, 2, 2, 2, 2, 2, 2, 2, 2, 2, 2, 2, 2, 2, 2, 2, 2, 2, 2, 2, 2, 2, 2, 2, 2, 2, 2, 2, 2, 2, 2,
    2, 2, 2, 2, 2, 2, 2, 2, 2, 2, 2, 2, 2, 2, 2, 2, 2, 2, 2, 2, 0, 0, 0, 0, 2, 2, 2, 2, 0, 0, 0, 0,
    2, 2, 2, 2, 2, 2, 2, 2, 2, 2, 2, 2, 2, 2, 2, 2, 2, 2, 2, 2, 2, 2, 2, 2, 2, 2, 2, 2, 2, 2, 2, 2,
    2, 0, 0, 0, 0, 0, 0, 0, 2, 0, 0, 0, 0, 0, 0, 0, 2, 2, 2, 2, 2, 2, 2, 2, 2, 2, 2, 2, 2, 2, 2, 2,
    2, 2, 2, 2, 2, 2, 2, 2, 2, 2, 2, 2, 2, 2, 2, 2, 2, 2, 2, 2, 2, 2, 2, 2, 2, 2, 2, 2, 2, 2, 2, 2,
    2, 2, 2, 2, 2, 2, 2, 2, 2, 2, 2, 2, 2, 2, 2, 2, 2, 2, 2, 2, 2, 2, 2, 2, 2, 2, 2, 2, 2, 2, 2, 2,
    3, 3, 3, 3, 3, 3, 3, 3, 3, 3, 3, 3, 3, 3, 3, 3, 2, 2, 2, 2, 2, 2, 2, 2, 2, 2, 2, 2, 2, 2, 2, 2,
    2, 2, 2, 2, 2, 2, 2, 2, 2, 2, 2, 2, 2, 2, 2, 2, 2, 2, 2, 2, 2, 2, 2, 2, 2, 2, 2, 2, 2, 2, 2, 2,
];

/// The machine cycles of an instruction with this opcode, where it is plain: it tests no flag and uses no port, so that of the bus only memory
/// plays a part in it, and doesn't start to idle. 0 for every other opcode.
#[inline(always)]
pub fn plain_cycles(opcode: u8) -> u8
    ensures { result ≡ plain_cycles opcode }
{
    PLAIN_CYCLES[opcode as usize]
}

/// M(R(X)).
#[inline(always)]
fn operand<B: Bus>(s: &Registers, bus: &B) -> u8
    ensures { result ≡ B.byte bus.now (at s.now s.now.x) }
{
    bus.read(s.data_pointer())
}

/// The next byte, and R(P) + 1.
#[inline(always)]
fn immediate<B: Bus>(s: &mut Registers, bus: &B) -> u8
    ensures byte { result ≡ B.byte bus.now (at s.old s.old.p) }
    ensures over { s.new ≡ stepped s.old s.old.p }
{
    let byte = bus.read(s.program_counter());
    s.increment(s.p());
    byte
}

#[inline(always)]
fn branch<B: Bus>(s: &mut Registers, bus: &B, taken: bool)
    ensures { s.new ≡ branched s.old taken (B.byte bus.now (at s.old s.old.p)) }
{
    let next = bus.read(s.program_counter());
    s.branch(taken, next);
}

#[inline(always)]
fn branch_far<B: Bus>(s: &mut Registers, bus: &B, taken: bool)
    ensures { s.new ≡ long_branched s.old taken (B.byte bus.now (at s.old s.old.p)) (B.byte bus.now (value (up (get s.old.r s.old.p)))) }
{
    let address = s.program_counter();
    let high = bus.read(address);
    let low = bus.read(address.wrapping_add(1));
    s.long_branch(taken, high, low);
}

#[inline(always)]
fn memory_reference<B: Bus>(s: &mut Registers, bus: &mut B, row: Memory, n: u8)
    requires { IsValid (record { kind = memory_kind row; n = n }) }
    ensures regs { s.new ≡ (effect (memory_kind row) n s.old (inputs s.old (B.byte bus.old) (B.flags bus.old) 0)).regs }
    ensures acts { let e = effect (memory_kind row) n s.old (inputs s.old (B.byte bus.old) (B.flags bus.old) 0) in Acts B.writes B.sends B.receives e 0 bus.old bus.new }
{
    match row {
        Memory::Ldn => {
            let byte = bus.read(s.r(n));
            s.load(byte);
        }
        Memory::Lda => {
            let byte = bus.read(s.r(n));
            s.increment(n);
            s.load(byte);
        }
        Memory::Ldx => {
            let byte = operand(s, bus);
            s.load(byte);
        }
        Memory::Ldxa => {
            let byte = operand(s, bus);
            s.increment(s.x());
            s.load(byte);
        }
        Memory::Ldi => {
            let byte = immediate(s, bus);
            s.load(byte);
        }
        Memory::Str => bus.write(s.r(n), s.d()),
        Memory::Stxd => {
            let address = s.data_pointer();
            s.decrement(s.x());
            bus.write(address, s.d());
        }
    }
}

#[inline(always)]
fn register_operation<B: Bus>(s: &mut Registers, bus: &B, row: Register, n: u8)
    requires { IsValid (record { kind = register_kind row; n = n }) }
    ensures { s.new ≡ (effect (register_kind row) n s.old (inputs s.old (B.byte bus.now) (B.flags bus.now) 0)).regs }
{
    match row {
        Register::Inc => s.increment(n),
        Register::Dec => s.decrement(n),
        Register::Irx => s.increment(s.x()),
        Register::Glo => s.load(s.low(n)),
        Register::Plo => s.put_low(n),
        Register::Ghi => s.load(s.high(n)),
        Register::Phi => s.put_high(n),
    }
}

#[tactic(auto, using(crate::proofs::Words::of_bits))]
#[inline(always)]
fn logic_operation<B: Bus>(s: &mut Registers, bus: &B, row: Logic)
    ensures { s.new ≡ (effect (logic_kind row) 0 s.old (inputs s.old (B.byte bus.now) (B.flags bus.now) 0)).regs }
{
    match row {
        Logic::Or => {
            let byte = operand(s, bus);
            s.load(s.d() | byte);
        }
        Logic::Ori => {
            let byte = immediate(s, bus);
            s.load(s.d() | byte);
        }
        Logic::Xor => {
            let byte = operand(s, bus);
            s.load(s.d() ^ byte);
        }
        Logic::Xri => {
            let byte = immediate(s, bus);
            s.load(s.d() ^ byte);
        }
        Logic::And => {
            let byte = operand(s, bus);
            s.load(s.d() & byte);
        }
        Logic::Ani => {
            let byte = immediate(s, bus);
            s.load(s.d() & byte);
        }
        Logic::Shr => s.shift_right(false),
        Logic::Shrc => s.shift_right(s.df()),
        Logic::Shl => s.shift_left(false),
        Logic::Shlc => s.shift_left(s.df()),
    }
}

#[tactic(auto, using(crate::proofs::Words::of_bits))]
#[inline(always)]
fn arithmetic_operation<B: Bus>(s: &mut Registers, bus: &B, row: Arithmetic)
    ensures { s.new ≡ (effect (arithmetic_kind row) 0 s.old (inputs s.old (B.byte bus.now) (B.flags bus.now) 0)).regs }
{
    match row {
        Arithmetic::Add => {
            let byte = operand(s, bus);
            s.add(byte, s.d(), false);
        }
        Arithmetic::Adi => {
            let byte = immediate(s, bus);
            s.add(s.d(), byte, false);
        }
        Arithmetic::Adc => {
            let byte = operand(s, bus);
            s.add(byte, s.d(), s.df());
        }
        Arithmetic::Adci => {
            let byte = immediate(s, bus);
            s.add(byte, s.d(), s.df());
        }
        Arithmetic::Sd => {
            let byte = operand(s, bus);
            s.subtract(byte, s.d(), false);
        }
        Arithmetic::Sdi => {
            let byte = immediate(s, bus);
            s.subtract(byte, s.d(), false);
        }
        Arithmetic::Sdb => {
            let byte = operand(s, bus);
            s.subtract(byte, s.d(), !s.df());
        }
        Arithmetic::Sdbi => {
            let byte = immediate(s, bus);
            s.subtract(byte, s.d(), !s.df());
        }
        Arithmetic::Sm => {
            let byte = operand(s, bus);
            s.subtract(s.d(), byte, false);
        }
        Arithmetic::Smi => {
            let byte = immediate(s, bus);
            s.subtract(s.d(), byte, false);
        }
        Arithmetic::Smb => {
            let byte = operand(s, bus);
            s.subtract(s.d(), byte, !s.df());
        }
        Arithmetic::Smbi => {
            let byte = immediate(s, bus);
            s.subtract(s.d(), byte, !s.df());
        }
    }
}

/// A short branch that is taken where a flag is active.
#[inline(always)]
fn branch_if<B: Bus>(s: &mut Registers, bus: &mut B, flag: u8)
    requires from_1 { 1 ≤ flag }
    requires to_4 { flag ≤ 4 }
    ensures regs { s.new ≡ branched s.old (B.flags bus.old flag) (B.byte bus.old (at s.old s.old.p)) }
    ensures bus { bus.new ≡ bus.old }
{
    let active = bus.ef(flag);
    branch(s, bus, active);
}

/// A short branch that is taken where a flag isn't active.
#[inline(always)]
fn branch_unless<B: Bus>(s: &mut Registers, bus: &mut B, flag: u8)
    requires from_1 { 1 ≤ flag }
    requires to_4 { flag ≤ 4 }
    ensures regs { s.new ≡ branched s.old (not (B.flags bus.old flag)) (B.byte bus.old (at s.old s.old.p)) }
    ensures bus { bus.new ≡ bus.old }
{
    let active = bus.ef(flag);
    branch(s, bus, !active);
}

#[inline(always)]
fn short_branch<B: Bus>(s: &mut Registers, bus: &mut B, row: ShortBranch)
    ensures regs { s.new ≡ (effect (short_branch_kind row) 0 s.old (inputs s.old (B.byte bus.old) (B.flags bus.old) 0)).regs }
    ensures bus { bus.new ≡ bus.old }
{
    match row {
        ShortBranch::Br => branch(s, bus, true),
        ShortBranch::Bz => branch(s, bus, s.d() == 0),
        ShortBranch::Bnz => branch(s, bus, s.d() != 0),
        ShortBranch::Bdf => branch(s, bus, s.df()),
        ShortBranch::Bnf => branch(s, bus, !s.df()),
        ShortBranch::Bq => branch(s, bus, s.q()),
        ShortBranch::Bnq => branch(s, bus, !s.q()),
        ShortBranch::B1 => branch_if(s, bus, 1),
        ShortBranch::Bn1 => branch_unless(s, bus, 1),
        ShortBranch::B2 => branch_if(s, bus, 2),
        ShortBranch::Bn2 => branch_unless(s, bus, 2),
        ShortBranch::B3 => branch_if(s, bus, 3),
        ShortBranch::Bn3 => branch_unless(s, bus, 3),
        ShortBranch::B4 => branch_if(s, bus, 4),
        ShortBranch::Bn4 => branch_unless(s, bus, 4),
    }
}

#[inline(always)]
fn long_branch<B: Bus>(s: &mut Registers, bus: &B, row: LongBranch)
    ensures { s.new ≡ (effect (long_branch_kind row) 0 s.old (inputs s.old (B.byte bus.now) (B.flags bus.now) 0)).regs }
{
    match row {
        LongBranch::Lbr => branch_far(s, bus, true),
        LongBranch::Lbz => branch_far(s, bus, s.d() == 0),
        LongBranch::Lbnz => branch_far(s, bus, s.d() != 0),
        LongBranch::Lbdf => branch_far(s, bus, s.df()),
        LongBranch::Lbnf => branch_far(s, bus, !s.df()),
        LongBranch::Lbq => branch_far(s, bus, s.q()),
        LongBranch::Lbnq => branch_far(s, bus, !s.q()),
    }
}

#[inline(always)]
fn skip<B: Bus>(s: &mut Registers, bus: &B, row: Skip)
    ensures { s.new ≡ (effect (skip_kind row) 0 s.old (inputs s.old (B.byte bus.now) (B.flags bus.now) 0)).regs }
{
    match row {
        Skip::Skp => s.increment(s.p()),
        Skip::Lskp => s.skip(true),
        Skip::Lsz => s.skip(s.d() == 0),
        Skip::Lsnz => s.skip(s.d() != 0),
        Skip::Lsdf => s.skip(s.df()),
        Skip::Lsnf => s.skip(!s.df()),
        Skip::Lsq => s.skip(s.q()),
        Skip::Lsnq => s.skip(!s.q()),
        Skip::Lsie => s.skip(s.ie()),
    }
}

#[inline(always)]
fn control<B: Bus>(s: &mut Registers, bus: &mut B, row: Control, n: u8)
    requires { IsValid (record { kind = control_kind row; n = n }) }
    ensures regs { s.new ≡ (effect (control_kind row) n s.old (inputs s.old (B.byte bus.old) (B.flags bus.old) 0)).regs }
    ensures acts { let e = effect (control_kind row) n s.old (inputs s.old (B.byte bus.old) (B.flags bus.old) 0) in Acts B.writes B.sends B.receives e 0 bus.old bus.new }
{
    match row {
        Control::Idl => s.start_idling(),
        Control::Nop | Control::Undefined => {}
        Control::Sep => s.set_p(n),
        Control::Sex => s.set_x(n),
        Control::Seq => s.set_q(true),
        Control::Req => s.set_q(false),
        Control::Sav => bus.write(s.data_pointer(), s.t()),
        Control::Mark => {
            let address = s.r(2);
            let xp = s.mark();
            bus.write(address, xp);
        }
        Control::Ret => {
            let byte = operand(s, bus);
            s.return_to(byte, true);
        }
        Control::Dis => {
            let byte = operand(s, bus);
            s.return_to(byte, false);
        }
    }
}

/// Answers the byte that INP took from the bus, and 0 for OUT.
#[inline(always)]
fn input_output<B: Bus>(s: &mut Registers, bus: &mut B, row: InputOutput, n: u8) -> u8
    requires { IsValid (record { kind = input_output_kind row; n = n }) }
    ensures regs { s.new ≡ (effect (input_output_kind row) n s.old (inputs s.old (B.byte bus.old) (B.flags bus.old) result)).regs }
    ensures acts { let e = effect (input_output_kind row) n s.old (inputs s.old (B.byte bus.old) (B.flags bus.old) result) in Acts B.writes B.sends B.receives e result bus.old bus.new }
{
    match row {
        InputOutput::Out => {
            let byte = operand(s, bus);
            s.increment(s.x());
            bus.out(n, byte);
            0
        }
        InputOutput::Inp => {
            let address = s.data_pointer();
            let byte = bus.inp(n);
            s.load(byte);
            bus.write(address, byte);
            byte
        }
    }
}

/// An instruction without its fetch. Answers the byte that INP took from the bus, and 0 for all other instructions.
#[inline(always)]
pub fn execute<B: Bus>(s: &mut Registers, bus: &mut B, op: Op) -> u8
    requires { IsValid op }
    ensures regs { s.new ≡ (effect op.kind op.n s.old (inputs s.old (B.byte bus.old) (B.flags bus.old) result)).regs }
    ensures acts { let e = effect op.kind op.n s.old (inputs s.old (B.byte bus.old) (B.flags bus.old) result) in Acts B.writes B.sends B.receives e result bus.old bus.new }
{
    match group_of(op.kind) {
        Group::Memory(row) => memory_reference(s, bus, row, op.n),
        Group::Register(row) => register_operation(s, bus, row, op.n),
        Group::Logic(row) => logic_operation(s, bus, row),
        Group::Arithmetic(row) => arithmetic_operation(s, bus, row),
        Group::ShortBranch(row) => short_branch(s, bus, row),
        Group::LongBranch(row) => long_branch(s, bus, row),
        Group::Skip(row) => skip(s, bus, row),
        Group::Control(row) => control(s, bus, row, op.n),
        Group::InputOutput(row) => return input_output(s, bus, row, op.n),
    }
    0
}
