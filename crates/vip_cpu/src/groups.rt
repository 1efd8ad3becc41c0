//! The groups of instructions in the data sheet's "Instruction Summary". Each group is an enum of its
//! own rows, so that the function of a group has an arm for each of its rows and no others.

ghost use Rattle.std.specs.Prelude.{◌≡◌};
ghost use Rattle.vip_cpu.specs.Groups.{kind_in};

use machine::Kind;

/// Memory reference.
#[derive(Clone, Copy)]
pub enum Memory {
    Ldn,
    Lda,
    Ldx,
    Ldxa,
    Ldi,
    Str,
    Stxd,
}

/// Register operations.
#[derive(Clone, Copy)]
pub enum Register {
    Inc,
    Dec,
    Irx,
    Glo,
    Plo,
    Ghi,
    Phi,
}

/// Logic operations.
#[derive(Clone, Copy)]
pub enum Logic {
    Or,
    Ori,
    Xor,
    Xri,
    And,
    Ani,
    Shr,
    Shrc,
    Shl,
    Shlc,
}

/// Arithmetic operations.
#[derive(Clone, Copy)]
pub enum Arithmetic {
    Add,
    Adi,
    Adc,
    Adci,
    Sd,
    Sdi,
    Sdb,
    Sdbi,
    Sm,
    Smi,
    Smb,
    Smbi,
}

/// Short branches.
#[derive(Clone, Copy)]
pub enum ShortBranch {
    Br,
    Bz,
    Bnz,
    Bdf,
    Bnf,
    Bq,
    Bnq,
    B1,
    Bn1,
    B2,
    Bn2,
    B3,
    Bn3,
    B4,
    Bn4,
}

/// Long branches.
#[derive(Clone, Copy)]
pub enum LongBranch {
    Lbr,
    Lbz,
    Lbnz,
    Lbdf,
    Lbnf,
    Lbq,
    Lbnq,
}

/// Skips.
#[derive(Clone, Copy)]
pub enum Skip {
    Skp,
    Lskp,
    Lsz,
    Lsnz,
    Lsdf,
    Lsnf,
    Lsq,
    Lsnq,
    Lsie,
}

/// Control, with opcode 0x68, which does nothing.
#[derive(Clone, Copy)]
pub enum Control {
    Idl,
    Nop,
    Sep,
    Sex,
    Seq,
    Req,
    Sav,
    Mark,
    Ret,
    Dis,
    Undefined,
}

/// Input and output byte transfer.
#[derive(Clone, Copy)]
pub enum InputOutput {
    Out,
    Inp,
}

/// A row of the summary, by its group.
#[derive(Clone, Copy)]
pub enum Group {
    Memory(Memory),
    Register(Register),
    Logic(Logic),
    Arithmetic(Arithmetic),
    ShortBranch(ShortBranch),
    LongBranch(LongBranch),
    Skip(Skip),
    Control(Control),
    InputOutput(InputOutput),
}

/// The group of a kind, with its row there.
#[inline(always)]
pub fn group_of(kind: Kind) -> Group
    ensures { kind_in result ≡ kind }
{
    match kind {
        Kind::Ldn => Group::Memory(Memory::Ldn),
        Kind::Lda => Group::Memory(Memory::Lda),
        Kind::Ldx => Group::Memory(Memory::Ldx),
        Kind::Ldxa => Group::Memory(Memory::Ldxa),
        Kind::Ldi => Group::Memory(Memory::Ldi),
        Kind::Str => Group::Memory(Memory::Str),
        Kind::Stxd => Group::Memory(Memory::Stxd),
        Kind::Inc => Group::Register(Register::Inc),
        Kind::Dec => Group::Register(Register::Dec),
        Kind::Irx => Group::Register(Register::Irx),
        Kind::Glo => Group::Register(Register::Glo),
        Kind::Plo => Group::Register(Register::Plo),
        Kind::Ghi => Group::Register(Register::Ghi),
        Kind::Phi => Group::Register(Register::Phi),
        Kind::Or => Group::Logic(Logic::Or),
        Kind::Ori => Group::Logic(Logic::Ori),
        Kind::Xor => Group::Logic(Logic::Xor),
        Kind::Xri => Group::Logic(Logic::Xri),
        Kind::And => Group::Logic(Logic::And),
        Kind::Ani => Group::Logic(Logic::Ani),
        Kind::Shr => Group::Logic(Logic::Shr),
        Kind::Shrc => Group::Logic(Logic::Shrc),
        Kind::Shl => Group::Logic(Logic::Shl),
        Kind::Shlc => Group::Logic(Logic::Shlc),
        Kind::Add => Group::Arithmetic(Arithmetic::Add),
        Kind::Adi => Group::Arithmetic(Arithmetic::Adi),
        Kind::Adc => Group::Arithmetic(Arithmetic::Adc),
        Kind::Adci => Group::Arithmetic(Arithmetic::Adci),
        Kind::Sd => Group::Arithmetic(Arithmetic::Sd),
        Kind::Sdi => Group::Arithmetic(Arithmetic::Sdi),
        Kind::Sdb => Group::Arithmetic(Arithmetic::Sdb),
        Kind::Sdbi => Group::Arithmetic(Arithmetic::Sdbi),
        Kind::Sm => Group::Arithmetic(Arithmetic::Sm),
        Kind::Smi => Group::Arithmetic(Arithmetic::Smi),
        Kind::Smb => Group::Arithmetic(Arithmetic::Smb),
        Kind::Smbi => Group::Arithmetic(Arithmetic::Smbi),
        Kind::Br => Group::ShortBranch(ShortBranch::Br),
        Kind::Bz => Group::ShortBranch(ShortBranch::Bz),
        Kind::Bnz => Group::ShortBranch(ShortBranch::Bnz),
        Kind::Bdf => Group::ShortBranch(ShortBranch::Bdf),
        Kind::Bnf => Group::ShortBranch(ShortBranch::Bnf),
        Kind::Bq => Group::ShortBranch(ShortBranch::Bq),
        Kind::Bnq => Group::ShortBranch(ShortBranch::Bnq),
        Kind::B1 => Group::ShortBranch(ShortBranch::B1),
        Kind::Bn1 => Group::ShortBranch(ShortBranch::Bn1),
        Kind::B2 => Group::ShortBranch(ShortBranch::B2),
        Kind::Bn2 => Group::ShortBranch(ShortBranch::Bn2),
        Kind::B3 => Group::ShortBranch(ShortBranch::B3),
        Kind::Bn3 => Group::ShortBranch(ShortBranch::Bn3),
        Kind::B4 => Group::ShortBranch(ShortBranch::B4),
        Kind::Bn4 => Group::ShortBranch(ShortBranch::Bn4),
        Kind::Lbr => Group::LongBranch(LongBranch::Lbr),
        Kind::Lbz => Group::LongBranch(LongBranch::Lbz),
        Kind::Lbnz => Group::LongBranch(LongBranch::Lbnz),
        Kind::Lbdf => Group::LongBranch(LongBranch::Lbdf),
        Kind::Lbnf => Group::LongBranch(LongBranch::Lbnf),
        Kind::Lbq => Group::LongBranch(LongBranch::Lbq),
        Kind::Lbnq => Group::LongBranch(LongBranch::Lbnq),
        Kind::Skp => Group::Skip(Skip::Skp),
        Kind::Lskp => Group::Skip(Skip::Lskp),
        Kind::Lsz => Group::Skip(Skip::Lsz),
        Kind::Lsnz => Group::Skip(Skip::Lsnz),
        Kind::Lsdf => Group::Skip(Skip::Lsdf),
        Kind::Lsnf => Group::Skip(Skip::Lsnf),
        Kind::Lsq => Group::Skip(Skip::Lsq),
        Kind::Lsnq => Group::Skip(Skip::Lsnq),
        Kind::Lsie => Group::Skip(Skip::Lsie),
        Kind::Idl => Group::Control(Control::Idl),
        Kind::Nop => Group::Control(Control::Nop),
        Kind::Sep => Group::Control(Control::Sep),
        Kind::Sex => Group::Control(Control::Sex),
        Kind::Seq => Group::Control(Control::Seq),
        Kind::Req => Group::Control(Control::Req),
        Kind::Sav => Group::Control(Control::Sav),
        Kind::Mark => Group::Control(Control::Mark),
        Kind::Ret => Group::Control(Control::Ret),
        Kind::Dis => Group::Control(Control::Dis),
        Kind::Undefined => Group::Control(Control::Undefined),
        Kind::Out => Group::InputOutput(InputOutput::Out),
        Kind::Inp => Group::InputOutput(InputOutput::Inp),
    }
}
