//! Closed lines: whether what a line says follows from what the lines behind its instruction say.

ghost use Rattle.std.specs.Prelude.{◌≡◌, ◌+◌, ◌<◌, ◌≤◌, true, false, nat_lt, length};
ghost use Rattle.std.specs.List.{AllWithin};
ghost use Rattle.cycle_check.specs.Closed.{admits, byte_at, bytes_at, cause_at, counter_after, fault_in, first_from, fits_x, holds_at, instruction_at, is_allowed, is_apart, is_closed, is_copied, is_entered, is_kept, is_loaded, is_open, is_shown, is_way_closed, known_d, left, lets_through, line_at, line_behind, loads_not_zero, pays_for, takes_all, was_not_zero, ways_from};
ghost use Rattle.cycle_check.specs.Reading.{AreRising};

use crate::fault::CertCause;
use crate::grammar::{Bound, Fact, Line};
use crate::table::{
    Way, Ways, When, assigns_d, assigns_named, assigns_pointed, flow_of, is_refused, low_after,
    ways_of, x_after,
};
use vip_isa::{Kind, Op, cycles, decode, size};

/// What stands at an address: an opcode by its parts, its size in bytes, its machine cycles, and the two bytes behind it.
#[derive(Clone, Copy)]
pub struct Instruction {
    pub op: Op,
    pub size: u8,
    pub cycles: u8,
    pub next: u8,
    pub after: u8,
}

// The byte of the ROM at an address; addresses below it are not asked for, and behind it there is none, which is 0.
fn byte_at(rom: &[u8], address: u32) -> u8
    ensures { result ≡ byte_at rom.now address }
{
    match rom.get(address.saturating_sub(0x8000) as usize) {
        Some(byte) => *byte,
        None => 0,
    }
}

/// The bytes of the ROM from an address on.
pub fn bytes_at(rom: &[u8], address: u16) -> [u8; 3]
    ensures { result ≡ bytes_at rom.now address }
{
    let address = u32::from(address);
    [
        byte_at(rom, address),
        byte_at(rom, address + 1),
        byte_at(rom, address + 2),
    ]
}

/// The instruction at an address of the ROM.
#[tactic(auto, unfolding(crate::specs::Closed::instruction_at))]
pub fn instruction_at(rom: &[u8], address: u16) -> Instruction
    ensures { result ≡ instruction_at rom.now address }
{
    let address = u32::from(address);
    let opcode = byte_at(rom, address);
    Instruction {
        op: decode(opcode),
        size: size(opcode),
        cycles: cycles(opcode),
        next: byte_at(rom, address + 1),
        after: byte_at(rom, address + 2),
    }
}

/// The line with an address.
pub fn line_at(lines: &[Line], address: u32) -> Option<Line>
    requires { AreRising lines.now }
    ensures { result ≡ line_at lines.now address }
{
    match lines.get(count_below(lines, address)) {
        Some(line) if u32::from(line.address) == address => Some(*line),
        _ => None,
    }
}

// How many lines have a lower address, found by halving.
fn count_below(lines: &[Line], address: u32) -> usize
    requires { AreRising lines.now }
    ensures within { result ≤ length lines.now }
    ensures below { AllWithin (λ line. nat_lt line.address address ≡ true) lines.now 0 result }
    ensures above { AllWithin (λ line. nat_lt line.address address ≡ false) lines.now result (length lines.now) }
{
    lines.partition_point(|line| u32::from(line.address) < address)
}

/// The cycles that are left at a line where the counter is this.
pub fn left(line: &Line, counter: u8) -> u64
    ensures { result ≡ left line.now counter }
{
    u64::from(line.base) + u64::from(line.step) * u64::from(counter)
}

/// D where the fact and the counter tell it.
pub fn known_d(fact: Fact, counter: u8) -> Option<u8>
    ensures { result ≡ known_d fact counter }
{
    match fact {
        Fact::Copy => Some(counter),
        Fact::Is(byte) => Some(byte),
        Fact::Any | Fact::NonZero => None,
    }
}

// X is known, and R(X) is neither the program counter nor the counter register.
fn is_apart(bound: &Bound, x: Option<u8>) -> bool
    ensures { result ≡ is_apart bound.now.p bound.now.k x }
{
    match x {
        Some(x) => x != bound.p && x != bound.k,
        None => false,
    }
}

/// Whether an opcode is allowed at a line.
#[tactic(auto, unfolding(crate::specs::Closed::is_allowed))]
pub fn is_allowed(bound: &Bound, line: &Line, instruction: &Instruction) -> bool
    ensures { result ≡ is_allowed bound.now line.now instruction.now }
{
    let Op { kind, n } = instruction.op;
    let end = u32::from(line.address) + u32::from(instruction.size);
    line.address >= 0x8000
        && end <= 0x8800
        && !is_refused(kind)
        && !(assigns_named(kind) && n == bound.p)
        && (!assigns_pointed(kind) || is_apart(bound, line.x))
}

/// Whether a way is open where D, as far as it is known, is this.
pub fn is_open(when: When, d: Option<u8>) -> bool
    ensures { result ≡ is_open when d }
{
    match (when, d) {
        (When::Zero, Some(d)) => d == 0,
        (When::NotZero, Some(d)) => d != 0,
        _ => true,
    }
}

/// The ways of an instruction at an address.
pub fn ways_from(bound: &Bound, address: u16, instruction: &Instruction) -> Ways
    ensures { result ≡ ways_from bound.now address instruction.now }
{
    ways_of(
        flow_of(instruction.op, bound.p),
        instruction.size,
        address,
        instruction.next,
        instruction.after,
    )
}

/// Whether a fact lets a way through: what D is under `copy` is any byte, and under `is` that one.
pub fn lets_through(fact: Fact, when: When) -> bool
    ensures { result ≡ lets_through fact when }
{
    match fact {
        Fact::Is(byte) => is_open(when, Some(byte)),
        _ => true,
    }
}

/// The counter behind an instruction, where it is known.
pub fn counter_after(k: u8, instruction: &Instruction, fact: Fact, counter: u8) -> Option<u8>
    ensures { result ≡ counter_after k instruction.now fact counter }
{
    if instruction.op.n == k {
        low_after(instruction.op.kind, known_d(fact, counter), counter)
    } else {
        Some(counter)
    }
}

/// Whether a fact is shown behind the instruction of a line with a fact, on a way under a condition.
pub fn is_shown(
    k: u8,
    instruction: &Instruction,
    fact: Fact,
    when: When,
    counter: u8,
    asked: Fact,
) -> bool
    ensures { result ≡ is_shown k instruction.now fact when counter asked }
{
    let Op { kind, n } = instruction.op;
    let named = n == k;
    match asked {
        Fact::Any => true,
        Fact::Copy => is_copied(kind, named, fact),
        Fact::Is(byte) => is_loaded(kind, instruction.next == byte, byte, fact),
        Fact::NonZero => {
            (was_not_zero(fact, when) && !(assigns_named(kind) && named))
                || loads_not_zero(kind, named, known_d(fact, counter))
        }
    }
}

// D is the counter: after GLO of it, or where it was and the row assigns neither. Here and below `named` is whether the instruction names
// the counter register.
fn is_copied(kind: Kind, named: bool, fact: Fact) -> bool
    ensures { result ≡ is_copied kind named fact }
{
    match (kind, fact) {
        (Kind::Glo, _) if named => true,
        (_, Fact::Copy) => !assigns_d(kind) && !(assigns_named(kind) && named),
        _ => false,
    }
}

// D is a byte: after LDI of it, where it is the second byte of the instruction, or where D was it and the row doesn't assign D.
fn is_loaded(kind: Kind, same: bool, byte: u8, fact: Fact) -> bool
    ensures { result ≡ is_loaded kind same byte fact }
{
    match (kind, fact) {
        (Kind::Ldi, _) if same => true,
        (_, Fact::Is(held)) => held == byte && !assigns_d(kind),
        _ => false,
    }
}

// The counter wasn't 0, by the fact of the line, or since D was the counter and a branch on D found that it isn't 0.
fn was_not_zero(fact: Fact, when: When) -> bool
    ensures { result ≡ was_not_zero fact when }
{
    match (fact, when) {
        (Fact::Copy, When::NotZero) | (Fact::NonZero, _) => true,
        _ => false,
    }
}

// The counter isn't 0 after PLO of a D that is known and isn't 0.
fn loads_not_zero(kind: Kind, named: bool, d: Option<u8>) -> bool
    ensures { result ≡ loads_not_zero kind named d }
{
    match (kind, d) {
        (Kind::Plo, Some(d)) => named && d != 0,
        _ => false,
    }
}

/// The X that a line asks for, where it asks for one, is there.
pub fn fits_x(asked: Option<u8>, x: Option<u8>) -> bool
    ensures { result ≡ fits_x asked x }
{
    match (asked, x) {
        (None, _) => true,
        (Some(asked), Some(x)) => asked == x,
        (Some(_), None) => false,
    }
}

// The cycles that are left pay for the instruction and for what is left behind it. Of the counters that may follow the greatest costs most.
fn pays_for(budget: u64, cycles: u8, behind: &Line, counter: Option<u8>) -> bool
    ensures { result ≡ pays_for budget cycles behind.now counter }
{
    let worst = counter.unwrap_or(255);
    u64::from(cycles) + left(behind, worst) <= budget
}

// What is asked at a value of the counter of a way at whose end there is this line, or none.
#[tactic(auto, unfolding(crate::specs::Closed::is_kept))]
fn is_kept(
    k: u8,
    line: &Line,
    instruction: &Instruction,
    when: When,
    behind: Option<Line>,
    counter: u8,
) -> bool
    ensures { result ≡ is_kept k line.now instruction.now when behind counter }
{
    let budget = left(line, counter);
    let Some(behind) = behind else {
        return u64::from(instruction.cycles) <= budget;
    };
    let counter_after = counter_after(k, instruction, line.fact, counter);
    fits_x(behind.x, x_after(instruction.op, line.x))
        && is_shown(k, instruction, line.fact, when, counter, behind.fact)
        && pays_for(budget, instruction.cycles, &behind, counter_after)
}

// It is asked where the line allows the value of the counter and the way is open.
#[tactic(auto, unfolding(crate::specs::Closed::holds_at))]
fn holds_at(
    k: u8,
    line: &Line,
    instruction: &Instruction,
    when: When,
    behind: Option<Line>,
    counter: u8,
) -> bool
    ensures { result ≡ holds_at k line.now instruction.now when behind counter }
{
    !admits(line.fact, counter)
        || !is_open(when, known_d(line.fact, counter))
        || is_kept(k, line, instruction, when, behind, counter)
}

/// Whether a fact allows a value of the counter.
pub fn admits(fact: Fact, counter: u8) -> bool
    ensures { result ≡ admits fact counter }
{
    match fact {
        Fact::NonZero => counter != 0,
        _ => true,
    }
}

/// The line at the end of a way.
pub fn line_behind(lines: &[Line], way: Way) -> Option<Line>
    requires { AreRising lines.now }
    ensures { result ≡ line_behind lines.now way }
{
    match way.to {
        Some(address) => line_at(lines, address),
        None => None,
    }
}

fn is_way_closed(k: u8, lines: &[Line], line: &Line, instruction: &Instruction, way: Way) -> bool
    requires { AreRising lines.now }
    ensures { result ≡ is_way_closed k lines.now line.now instruction.now way }
{
    let behind = line_behind(lines, way);
    for counter in 0..256u16 {
        if !holds_at(k, line, instruction, way.when, behind, counter as u8) {
            return false;
        }
    }
    true
}

/// Whether what a line says follows from what the lines behind its instruction say.
#[tactic(auto, unfolding(crate::specs::Closed::is_closed))]
pub fn is_closed(bound: &Bound, lines: &[Line], line: &Line, instruction: &Instruction) -> bool
    requires { AreRising lines.now }
    ensures { result ≡ is_closed bound.now lines.now line.now instruction.now }
{
    let ways = ways_from(bound, line.address, instruction);
    let first = is_way_closed(bound.k, lines, line, instruction, ways.first);
    match ways.second {
        Some(second) => first && is_way_closed(bound.k, lines, line, instruction, second),
        None => first,
    }
}

// Why a line can't be relied on.
#[tactic(auto, unfolding(crate::specs::Closed::cause_at))]
fn cause_at(rom: &[u8], bound: &Bound, lines: &[Line], line: &Line) -> Option<CertCause>
    requires { AreRising lines.now }
    ensures { result ≡ cause_at rom.now bound.now lines.now line.now }
{
    let instruction = instruction_at(rom, line.address);
    if !is_allowed(bound, line, &instruction) {
        return Some(CertCause::Opcode);
    }
    if !is_closed(bound, lines, line, &instruction) {
        return Some(CertCause::Step);
    }
    None
}

// The first line that can't be relied on, with its place: that of the first line is 1, since the bound's is 0.
fn first_cause(rom: &[u8], bound: &Bound, lines: &[Line]) -> Option<(usize, CertCause)>
    requires { AreRising lines.now }
    ensures { result ≡ first_from (cause_at rom.now bound.now lines.now) 1 lines.now }
{
    let mut place = 0;
    for line in lines {
        place += 1;
        if let Some(cause) = cause_at(rom, bound, lines, line) {
            return Some((place, cause));
        }
    }
    None
}

// Whether the line of the entry takes every state that comes there, and leaves no more than the limit.
#[tactic(auto, unfolding(crate::specs::Closed::is_entered))]
fn is_entered(bound: &Bound, lines: &[Line]) -> bool
    requires { AreRising lines.now }
    ensures { result ≡ is_entered bound.now lines.now }
{
    match line_at(lines, u32::from(bound.entry)) {
        Some(line) => takes_all(bound, &line),
        None => false,
    }
}

fn takes_all(bound: &Bound, line: &Line) -> bool
    ensures { result ≡ takes_all bound.now line.now }
{
    line.x.is_none() && matches!(line.fact, Fact::Any) && left(line, 255) <= u64::from(bound.limit)
}

/// The first fault behind the grammar: its cause, and the place of its statement, which is 0 for the bound and 1 for the first line.
#[tactic(auto, unfolding(crate::specs::Closed::fault_in))]
pub fn fault_in(rom: &[u8], bound: &Bound, lines: &[Line]) -> Option<(usize, CertCause)>
    requires { AreRising lines.now }
    ensures { result ≡ fault_in rom.now bound.now lines.now }
{
    if !is_entered(bound, lines) {
        return Some((0, CertCause::NoEntry));
    }
    first_cause(rom, bound, lines)
}
