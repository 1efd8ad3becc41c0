//! The instructions of the language.

ghost use Rattle.std.specs.Prelude.{◌≡◌};
ghost use Rattle.chip8_lang.specs.Decode.{instr_of, instr_of_bytes, arithmetic, key_test, transfer};

/// The instructions, each with its operands: X and Y name variables, KK is a byte, MMM an address, N a number of rows.
#[derive(Clone, Copy)]
pub enum Instr {
    /// 00E0
    Clear,
    /// 00EE
    Return,
    /// other 0MMM
    Machine(u16),
    /// 1MMM
    Jump(u16),
    /// 2MMM
    Call(u16),
    /// 3XKK
    SkipEq(u8, u8),
    /// 4XKK
    SkipNe(u8, u8),
    /// 5XY0
    SkipSame(u8, u8),
    /// 6XKK
    Load(u8, u8),
    /// 7XKK
    Add(u8, u8),
    /// 8XY0
    Copy(u8, u8),
    /// 8XY1
    Or(u8, u8),
    /// 8XY2
    And(u8, u8),
    /// 8XY3
    Xor(u8, u8),
    /// 8XY4
    Sum(u8, u8),
    /// 8XY5
    Sub(u8, u8),
    /// 8XY6
    Right(u8, u8),
    /// 8XY7
    SubN(u8, u8),
    /// 8XYE
    Left(u8, u8),
    /// 9XY0
    SkipDiffer(u8, u8),
    /// AMMM
    Index(u16),
    /// BMMM
    JumpPlus(u16),
    /// CXKK
    Random(u8, u8),
    /// DXYN
    Draw(u8, u8, u8),
    /// EX9E
    SkipDown(u8),
    /// EXA1
    SkipUp(u8),
    /// FX07
    GetDelay(u8),
    /// FX0A
    WaitKey(u8),
    /// FX15
    SetDelay(u8),
    /// FX18
    SetSound(u8),
    /// FX1E
    AddIndex(u8),
    /// FX29
    Font(u8),
    /// FX33
    Decimal(u8),
    /// FX55
    Store(u8),
    /// FX65
    Fetch(u8),
    /// every other opcode
    Unknown(u16),
}

/// The instruction of an opcode.
pub fn read_instr(opcode: u16) -> Instr
    ensures { result ≡ instr_of opcode }
{
    let high = (opcode / 256) as u8;
    let low = (opcode % 256) as u8;
    read_bytes(high, low)
}

/// The instruction whose opcode has these two bytes.
fn read_bytes(high: u8, low: u8) -> Instr
    ensures { result ≡ instr_of_bytes high low }
{
    let x = high % 16;
    let y = low / 16;
    let n = low % 16;
    let address = u16::from(x) * 256 + u16::from(low);
    let opcode = u16::from(high) * 256 + u16::from(low);
    match high / 16 {
        0 => match address {
            0x0E0 => Instr::Clear,
            0x0EE => Instr::Return,
            _ => Instr::Machine(address),
        },
        1 => Instr::Jump(address),
        2 => Instr::Call(address),
        3 => Instr::SkipEq(x, low),
        4 => Instr::SkipNe(x, low),
        5 if n == 0 => Instr::SkipSame(x, y),
        6 => Instr::Load(x, low),
        7 => Instr::Add(x, low),
        8 => arithmetic(n, x, y, opcode),
        9 if n == 0 => Instr::SkipDiffer(x, y),
        0xA => Instr::Index(address),
        0xB => Instr::JumpPlus(address),
        0xC => Instr::Random(x, low),
        0xD => Instr::Draw(x, y, n),
        0xE => key_test(low, x, opcode),
        0xF => transfer(low, x, opcode),
        _ => Instr::Unknown(opcode),
    }
}

/// 8XYN
fn arithmetic(n: u8, x: u8, y: u8, opcode: u16) -> Instr
    ensures { result ≡ arithmetic n x y opcode }
{
    match n {
        0 => Instr::Copy(x, y),
        1 => Instr::Or(x, y),
        2 => Instr::And(x, y),
        3 => Instr::Xor(x, y),
        4 => Instr::Sum(x, y),
        5 => Instr::Sub(x, y),
        6 => Instr::Right(x, y),
        7 => Instr::SubN(x, y),
        0xE => Instr::Left(x, y),
        _ => Instr::Unknown(opcode),
    }
}

/// EXKK
fn key_test(low: u8, x: u8, opcode: u16) -> Instr
    ensures { result ≡ key_test low x opcode }
{
    match low {
        0x9E => Instr::SkipDown(x),
        0xA1 => Instr::SkipUp(x),
        _ => Instr::Unknown(opcode),
    }
}

/// FXKK
fn transfer(low: u8, x: u8, opcode: u16) -> Instr
    ensures { result ≡ transfer low x opcode }
{
    match low {
        0x07 => Instr::GetDelay(x),
        0x0A => Instr::WaitKey(x),
        0x15 => Instr::SetDelay(x),
        0x18 => Instr::SetSound(x),
        0x1E => Instr::AddIndex(x),
        0x29 => Instr::Font(x),
        0x33 => Instr::Decimal(x),
        0x55 => Instr::Store(x),
        0x65 => Instr::Fetch(x),
        _ => Instr::Unknown(opcode),
    }
}
