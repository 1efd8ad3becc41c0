//! A board made of a device, and a device written from a board.

ghost use Rattle.std.specs.Prelude.{◌≡◌, ◌+◌, ◌%◌, ◌<◌, ◌≤◌, ℕ};
ghost use Rattle.machine.specs.Bank.{bank_of};
ghost use Rattle.machine.specs.Instruction.{at};
ghost use Rattle.vip_keypad.specs.Held.{held_events};
ghost use Rattle.vip_device.specs.Device.{is_set, machine_in, regs_in};

use crate::device::{VipDevice, VipRegisters};
use vip_board::Board;
use vip_cpu::{Cpu, Parts, Phase};
use vip_keypad::{KeySet, Keypad};
use vip_memory::Memory;
use vip_video::Video;

/// Whether a flag's byte says that it is set.
#[inline(always)]
fn is_set(byte: u8) -> bool
    ensures { result ≡ is_set byte }
{
    byte != 0
}

/// The byte of a flag.
#[inline(always)]
fn byte_of(flag: bool) -> u8
    ensures { is_set result ≡ flag }
{
    if flag { 1 } else { 0 }
}

/// The processor of a device, at a boundary.
#[inline(always)]
fn cpu_of(registers: &VipRegisters) -> Cpu
    ensures { result ≡ record { regs = regs_in registers.now; phase = Phase.Boundary } }
{
    let mut cpu = Cpu::from_parts(&Parts {
        r: registers.r,
        d: registers.d,
        t: registers.t,
        x: registers.x % 16,
        p: registers.p % 16,
        df: is_set(registers.df),
        q: is_set(registers.q),
    });
    cpu.switch(is_set(registers.ie), is_set(registers.idle));
    cpu
}

/// The board of a device at a boundary, on which these keys are held down in each cycle.
#[inline(always)]
pub fn board_of(device: &VipDevice, keys: u16) -> Board<KeySet>
    ensures machine { result.machine ≡ machine_in device.now }
    ensures boundary { result.phase ≡ Phase.Boundary }
    ensures rom { result.rom ≡ device.now.rom }
    ensures script { result.script ≡ held_events keys }
{
    let registers = &device.registers;
    let cpu = cpu_of(registers);
    let memory = Memory::of(&device.ram, &device.rom, is_set(registers.latch));
    let video = Video::restore(
        device.cycle,
        is_set(registers.display),
        is_set(device.shown),
        &device.lines,
        &device.lengths,
        device.pictures,
        &device.picture,
    );
    let keypad = Keypad::of(KeySet { bits: keys }, registers.key % 16);
    Board::of(cpu, memory, video, keypad)
}

/// R(0) to R(F).
fn numbers_of(cpu: &Cpu) -> [u16; 16]
    ensures { bank_of result ≡ cpu.now.regs.r }
{
    let mut numbers = [0; 16];
    for n in 0..16 {
        numbers[usize::from(n)] = cpu.r(n);
    }
    numbers
}

/// The registers, the switches and the latched key of a board.
fn registers_of(board: &Board<KeySet>) -> VipRegisters
    ensures regs { regs_in result ≡ board.now.machine.regs }
    ensures latch { is_set result.latch ≡ board.now.machine.latch }
    ensures display { is_set result.display ≡ board.now.machine.on }
    ensures key { result.key % 16 ≡ board.now.machine.key }
{
    let cpu = board.cpu();
    let numbers = numbers_of(cpu);
    VipRegisters {
        r: numbers,
        d: cpu.d(),
        df: byte_of(cpu.df()),
        p: cpu.p(),
        x: cpu.x(),
        t: cpu.t(),
        q: byte_of(cpu.q()),
        ie: byte_of(cpu.ie()),
        idle: byte_of(cpu.idle()),
        latch: byte_of(board.memory().latch_set()),
        display: byte_of(board.video().is_on()),
        key: board.keypad().latched(),
        unused: 0,
    }
}

/// Writes the state of the video chip of a board into its device.
fn store_video(video: &Video, device: &mut VipDevice)
    requires { video.now.cycle_on ≡ video.now.on }
    ensures registers { device.new.registers ≡ device.old.registers }
    ensures ram { device.new.ram ≡ device.old.ram }
    ensures rom { device.new.rom ≡ device.old.rom }
    ensures cycle { device.new.cycle ≡ video.now.cycles }
    ensures kind { device.new.kind ≡ device.old.kind }
{
    let parts = video.parts();
    device.cycle = parts.cycles;
    device.shown = byte_of(parts.shown);
    device.pictures = parts.count;
    let lines = parts.lines;
    device.lines = lines;
    let lengths = parts.lengths;
    device.lengths = lengths;
    let finished = parts.finished;
    device.picture = finished;
}

/// Writes the state of a board into its device.
pub fn store(board: &Board<KeySet>, device: &mut VipDevice)
    ensures machine { machine_in device.new ≡ board.now.machine }
    ensures rom { device.new.rom ≡ device.old.rom }
    ensures kind { device.new.kind ≡ device.old.kind }
{
    device.registers = registers_of(board);
    device.ram = *board.memory().ram();
    store_video(board.video(), device);
}
