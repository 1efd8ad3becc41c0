//! What the rows of the instruction table say to a certificate: which registers an instruction assigns, and where it goes on.

ghost use Rattle.std.specs.Prelude.{◌≡◌, ◌<◌, ◌≤◌};
ghost use Rattle.cycle_check.specs.Table.{assigns_d, assigns_named, assigns_pointed, branch, flow_of, is_refused, low_after, none, one, two, ways_of, x_after};

use vip_isa::{Kind, Op};

/// When an instruction goes a way: always, where D is 0, where it isn't, or where something holds that a certificate doesn't know.
#[derive(Clone, Copy)]
pub enum When {
    Always,
    Zero,
    NotZero,
    Either,
}

/// How an instruction goes on.
#[derive(Clone, Copy)]
pub enum Flow {
    /// To the next instruction.
    Straight,
    /// Over the next byte.
    Skip,
    /// To an address of a page, or on.
    Short(When),
    /// To any address, or on.
    Long(When),
    /// Over two bytes, or on.
    LongSkip(When),
    /// With another program counter.
    Leave,
}

/// A way on, to an address, or to none where another register is the program counter then.
#[derive(Clone, Copy)]
pub struct Way {
    pub to: Option<u32>,
    pub when: When,
}

/// The one or two ways of an instruction.
#[derive(Clone, Copy)]
pub struct Ways {
    pub first: Way,
    pub second: Option<Way>,
}

/// Whether no certificate covers such an instruction: IDL, RET, DIS, MARK and opcode 68.
pub fn is_refused(kind: Kind) -> bool
    ensures { result ≡ is_refused kind }
{
    matches!(
        kind,
        Kind::Idl | Kind::Undefined | Kind::Ret | Kind::Dis | Kind::Mark
    )
}

/// Whether the row assigns D: those that load it, the logic operations, and the arithmetic operations.
pub fn assigns_d(kind: Kind) -> bool
    ensures { result ≡ assigns_d kind }
{
    match kind {
        Kind::Ldn
        | Kind::Lda
        | Kind::Ldx
        | Kind::Ldxa
        | Kind::Ldi
        | Kind::Inp
        | Kind::Glo
        | Kind::Ghi => true,
        Kind::Or
        | Kind::Ori
        | Kind::And
        | Kind::Ani
        | Kind::Xor
        | Kind::Xri
        | Kind::Shr
        | Kind::Shrc
        | Kind::Shl
        | Kind::Shlc => true,
        Kind::Add
        | Kind::Adi
        | Kind::Adc
        | Kind::Adci
        | Kind::Sd
        | Kind::Sdi
        | Kind::Sdb
        | Kind::Sdbi
        | Kind::Sm
        | Kind::Smi
        | Kind::Smb
        | Kind::Smbi => true,
        _ => false,
    }
}

/// Whether the row assigns R(N) or a half of it.
pub fn assigns_named(kind: Kind) -> bool
    ensures { result ≡ assigns_named kind }
{
    matches!(
        kind,
        Kind::Inc | Kind::Dec | Kind::Lda | Kind::Plo | Kind::Phi
    )
}

/// Whether the row assigns R(X).
pub fn assigns_pointed(kind: Kind) -> bool
    ensures { result ≡ assigns_pointed kind }
{
    matches!(kind, Kind::Irx | Kind::Out | Kind::Ldxa | Kind::Stxd)
}

/// How an instruction goes on under a program counter.
pub fn flow_of(op: Op, p: u8) -> Flow
    ensures { result ≡ flow_of op.kind op.n p }
{
    match op.kind {
        Kind::Br => Flow::Short(When::Always),
        Kind::Bz => Flow::Short(When::Zero),
        Kind::Bnz => Flow::Short(When::NotZero),
        Kind::Bq
        | Kind::Bdf
        | Kind::B1
        | Kind::B2
        | Kind::B3
        | Kind::B4
        | Kind::Bnq
        | Kind::Bnf
        | Kind::Bn1
        | Kind::Bn2
        | Kind::Bn3
        | Kind::Bn4 => Flow::Short(When::Either),
        Kind::Skp => Flow::Skip,
        Kind::Lbr => Flow::Long(When::Always),
        Kind::Lbz => Flow::Long(When::Zero),
        Kind::Lbnz => Flow::Long(When::NotZero),
        Kind::Lbq | Kind::Lbdf | Kind::Lbnq | Kind::Lbnf => Flow::Long(When::Either),
        Kind::Lskp => Flow::LongSkip(When::Always),
        Kind::Lsnq | Kind::Lsnz | Kind::Lsnf | Kind::Lsie | Kind::Lsq | Kind::Lsz | Kind::Lsdf =>
            Flow::LongSkip(When::Either),
        Kind::Sep if op.n != p => Flow::Leave,
        _ => Flow::Straight,
    }
}

/// The ways of an instruction of a size at an address, by the two bytes behind its opcode.
pub fn ways_of(flow: Flow, size: u8, address: u16, next: u8, after: u8) -> Ways
    ensures { result ≡ ways_of flow size address next after }
{
    let address = u32::from(address);
    let next = u32::from(next);
    match flow {
        Flow::Straight => one(address + u32::from(size)),
        Flow::Skip => one(address + 2),
        Flow::Short(when) => branch(when, (address + 1) / 256 * 256 + next, address + 2),
        Flow::Long(when) => branch(when, next * 256 + u32::from(after), address + 3),
        Flow::LongSkip(when) => branch(when, address + 3, address + 1),
        Flow::Leave => none(),
    }
}

fn one(to: u32) -> Ways
    ensures { result ≡ one to }
{
    Ways {
        first: Way {
            to: Some(to),
            when: When::Always,
        },
        second: None,
    }
}

fn none() -> Ways
    ensures { result ≡ none }
{
    Ways {
        first: Way {
            to: None,
            when: When::Always,
        },
        second: None,
    }
}

fn two(first: u32, when: When, second: u32, other: When) -> Ways
    ensures { result ≡ two first when second other }
{
    Ways {
        first: Way {
            to: Some(first),
            when,
        },
        second: Some(Way {
            to: Some(second),
            when: other,
        }),
    }
}

// Under a condition to one address, else to another.
fn branch(when: When, taken: u32, other: u32) -> Ways
    ensures { result ≡ branch when taken other }
{
    match when {
        When::Always => one(taken),
        When::Zero => two(taken, When::Zero, other, When::NotZero),
        When::NotZero => two(taken, When::NotZero, other, When::Zero),
        When::Either => two(taken, When::Either, other, When::Either),
    }
}

/// X behind an instruction, where it is known.
pub fn x_after(op: Op, x: Option<u8>) -> Option<u8>
    ensures { result ≡ x_after op.kind op.n x }
{
    match op.kind {
        Kind::Sex => Some(op.n),
        _ => x,
    }
}

/// The low byte of the register that an instruction names behind it, where it is known: before it that is `low`, and D is `d`.
pub fn low_after(kind: Kind, d: Option<u8>, low: u8) -> Option<u8>
    ensures { result ≡ low_after kind d low }
{
    match kind {
        Kind::Dec => Some(low.wrapping_sub(1)),
        Kind::Inc | Kind::Lda => Some(low.wrapping_add(1)),
        Kind::Plo => d,
        _ => Some(low),
    }
}
