//! What an instruction names.

ghost use Rattle.std.specs.Prelude.{◌≡◌};
ghost use Rattle.vip_isa.specs.Rows.{IsValid};
ghost use Rattle.vip_program.specs.Names.{names_in, IsNamed};

use vip_isa::{Kind, Op, Operands, operands_in};

/// What an opcode names, beside what it does.
#[derive(Clone, Copy)]
pub enum Names {
    Nothing,
    /// The number of the register R(N), below 16.
    Register(u8),
    /// The number of the flag that is tested, 1 to 4.
    Flag(u8),
    /// The port that is sent a byte, 1 to 7.
    Output(u8),
    /// The port that a byte is taken from, 1 to 7.
    Input(u8),
}

/// What an opcode with these parts names.
pub fn names_in(op: Op) -> Names
    requires { IsValid op }
    ensures value { result ≡ names_in op.kind op.n }
    ensures named { IsNamed result }
{
    match op.kind {
        Kind::B1 | Kind::Bn1 => Names::Flag(1),
        Kind::B2 | Kind::Bn2 => Names::Flag(2),
        Kind::B3 | Kind::Bn3 => Names::Flag(3),
        Kind::B4 | Kind::Bn4 => Names::Flag(4),
        Kind::Out => Names::Output(op.n),
        Kind::Inp => Names::Input(op.n),
        kind => match operands_in(kind) {
            Operands::Register => Names::Register(op.n),
            _ => Names::Nothing,
        },
    }
}
