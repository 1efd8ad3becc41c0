//! The table of the words, and which row an instruction has.

ghost use Rattle.std.specs.Prelude.{◌≡◌};
ghost use Rattle.chip8_words.specs.Table.{mnemonic_of, opcode_of, operands_of, parts_of};

use crate::code::Op;
use chip8_lang::Instr;

/// What stands as an operand.
#[derive(Clone, Copy)]
pub enum Operand {
    /// A register V0 to VF, whose number is the opcode's second digit.
    X,
    /// A register V0 to VF, whose number is the opcode's third digit.
    Y,
    /// The register V0.
    V0,
    /// A number from 0 to 255, the opcode's low byte.
    Byte,
    /// A number from 0 to 4095, the opcode's last three digits.
    Address,
    /// A number from 0 to 15, the opcode's last digit.
    Nibble,
    /// `I`, the index.
    Index,
    /// `[I]`, the bytes from the index on.
    AtIndex,
    /// `DT`
    DelayTimer,
    /// `ST`
    SoundTimer,
    /// `K`, a key.
    Key,
    /// `F`, the font.
    Font,
    /// `B`, decimal digits.
    Decimal,
}

/// The forms of instructions, one for each variant of `Instr` but `Unknown`, and named as that is. Behind each stand its words and its opcode.
#[derive(Clone, Copy)]
pub enum Form {
    /// CLS, 00E0
    Clear,
    /// RET, 00EE
    Return,
    /// SYS nnn, other 0nnn
    Machine,
    /// JP nnn, 1nnn
    Jump,
    /// CALL nnn, 2nnn
    Call,
    /// SE Vx, kk, 3xkk
    SkipEq,
    /// SNE Vx, kk, 4xkk
    SkipNe,
    /// SE Vx, Vy, 5xy0
    SkipSame,
    /// LD Vx, kk, 6xkk
    Load,
    /// ADD Vx, kk, 7xkk
    Add,
    /// LD Vx, Vy, 8xy0
    Copy,
    /// OR Vx, Vy, 8xy1
    Or,
    /// AND Vx, Vy, 8xy2
    And,
    /// XOR Vx, Vy, 8xy3
    Xor,
    /// ADD Vx, Vy, 8xy4
    Sum,
    /// SUB Vx, Vy, 8xy5
    Sub,
    /// SHR Vx, Vy, 8xy6
    Right,
    /// SUBN Vx, Vy, 8xy7
    SubN,
    /// SHL Vx, Vy, 8xyE
    Left,
    /// SNE Vx, Vy, 9xy0
    SkipDiffer,
    /// LD I, nnn, Annn
    Index,
    /// JP V0, nnn, Bnnn
    JumpPlus,
    /// RND Vx, kk, Cxkk
    Random,
    /// DRW Vx, Vy, n, Dxyn
    Draw,
    /// SKP Vx, Ex9E
    SkipDown,
    /// SKNP Vx, ExA1
    SkipUp,
    /// LD Vx, DT, Fx07
    GetDelay,
    /// LD Vx, K, Fx0A
    WaitKey,
    /// LD DT, Vx, Fx15
    SetDelay,
    /// LD ST, Vx, Fx18
    SetSound,
    /// ADD I, Vx, Fx1E
    AddIndex,
    /// LD F, Vx, Fx29
    Font,
    /// LD B, Vx, Fx33
    Decimal,
    /// LD [I], Vx, Fx55
    Store,
    /// LD Vx, [I], Fx65
    Fetch,
}

/// All forms.
pub static FORMS: [Form; 35] = [
    Form::Clear,
    Form::Return,
    Form::Machine,
    Form::Jump,
    Form::Call,
    Form::SkipEq,
    Form::SkipNe,
    Form::SkipSame,
    Form::Load,
    Form::Add,
    Form::Copy,
    Form::Or,
    Form::And,
    Form::Xor,
    Form::Sum,
    Form::Sub,
    Form::Right,
    Form::SubN,
    Form::Left,
    Form::SkipDiffer,
    Form::Index,
    Form::JumpPlus,
    Form::Random,
    Form::Draw,
    Form::SkipDown,
    Form::SkipUp,
    Form::GetDelay,
    Form::WaitKey,
    Form::SetDelay,
    Form::SetSound,
    Form::AddIndex,
    Form::Font,
    Form::Decimal,
    Form::Store,
    Form::Fetch,
];

/// A row of the table: a mnemonic in capitals, the opcode whose fields are all 0, and the operands in the order in which they are written.
type Row = (&'static str, u16, &'static [Operand]);

/// The rows, in the order of the forms.
static ROWS: [Row; 35] = [
    ("CLS", 0x00E0, &[]),
    ("RET", 0x00EE, &[]),
    ("SYS", 0x0000, &[Operand::Address]),
    ("JP", 0x1000, &[Operand::Address]),
    ("CALL", 0x2000, &[Operand::Address]),
    ("SE", 0x3000, &[Operand::X, Operand::Byte]),
    ("SNE", 0x4000, &[Operand::X, Operand::Byte]),
    ("SE", 0x5000, &[Operand::X, Operand::Y]),
    ("LD", 0x6000, &[Operand::X, Operand::Byte]),
    ("ADD", 0x7000, &[Operand::X, Operand::Byte]),
    ("LD", 0x8000, &[Operand::X, Operand::Y]),
    ("OR", 0x8001, &[Operand::X, Operand::Y]),
    ("AND", 0x8002, &[Operand::X, Operand::Y]),
    ("XOR", 0x8003, &[Operand::X, Operand::Y]),
    ("ADD", 0x8004, &[Operand::X, Operand::Y]),
    ("SUB", 0x8005, &[Operand::X, Operand::Y]),
    ("SHR", 0x8006, &[Operand::X, Operand::Y]),
    ("SUBN", 0x8007, &[Operand::X, Operand::Y]),
    ("SHL", 0x800E, &[Operand::X, Operand::Y]),
    ("SNE", 0x9000, &[Operand::X, Operand::Y]),
    ("LD", 0xA000, &[Operand::Index, Operand::Address]),
    ("JP", 0xB000, &[Operand::V0, Operand::Address]),
    ("RND", 0xC000, &[Operand::X, Operand::Byte]),
    ("DRW", 0xD000, &[Operand::X, Operand::Y, Operand::Nibble]),
    ("SKP", 0xE09E, &[Operand::X]),
    ("SKNP", 0xE0A1, &[Operand::X]),
    ("LD", 0xF007, &[Operand::X, Operand::DelayTimer]),
    ("LD", 0xF00A, &[Operand::X, Operand::Key]),
    ("LD", 0xF015, &[Operand::DelayTimer, Operand::X]),
    ("LD", 0xF018, &[Operand::SoundTimer, Operand::X]),
    ("ADD", 0xF01E, &[Operand::Index, Operand::X]),
    ("LD", 0xF029, &[Operand::Font, Operand::X]),
    ("LD", 0xF033, &[Operand::Decimal, Operand::X]),
    ("LD", 0xF055, &[Operand::AtIndex, Operand::X]),
    ("LD", 0xF065, &[Operand::X, Operand::AtIndex]),
];

impl Form {
    /// The row of a form.
    fn row(self) -> Row
        ensures mnemonic { result.0.now ≡ mnemonic_of self }
        ensures opcode { result.1 ≡ opcode_of self }
        ensures operands { result.2.now ≡ operands_of self }
    {
        ROWS[self as usize]
    }

    /// The mnemonic, in capitals.
    pub fn mnemonic(self) -> &'static str
        ensures { result.now ≡ mnemonic_of self }
    {
        self.row().0
    }

    /// The opcode whose fields are all 0.
    pub fn opcode(self) -> u16
        ensures { result ≡ opcode_of self }
    {
        self.row().1
    }

    /// The operands, in the order in which they are written.
    pub fn operands(self) -> &'static [Operand]
        ensures { result.now ≡ operands_of self }
    {
        self.row().2
    }
}

fn op(form: Form, x: u8, y: u8, number: u16) -> Op
    ensures { result ≡ record { form = form; x = x; y = y; number = number } }
{
    Op { form, x, y, number }
}

/// The parts of an instruction, and none of an opcode that the language doesn't know.
pub(crate) fn parts(instr: Instr) -> Option<Op>
    ensures { result ≡ parts_of instr }
{
    let parts = match instr {
        Instr::Clear => op(Form::Clear, 0, 0, 0),
        Instr::Return => op(Form::Return, 0, 0, 0),
        Instr::Machine(number) => op(Form::Machine, 0, 0, number),
        Instr::Jump(number) => op(Form::Jump, 0, 0, number),
        Instr::Call(number) => op(Form::Call, 0, 0, number),
        Instr::SkipEq(x, number) => op(Form::SkipEq, x, 0, u16::from(number)),
        Instr::SkipNe(x, number) => op(Form::SkipNe, x, 0, u16::from(number)),
        Instr::SkipSame(x, y) => op(Form::SkipSame, x, y, 0),
        Instr::Load(x, number) => op(Form::Load, x, 0, u16::from(number)),
        Instr::Add(x, number) => op(Form::Add, x, 0, u16::from(number)),
        Instr::Copy(x, y) => op(Form::Copy, x, y, 0),
        Instr::Or(x, y) => op(Form::Or, x, y, 0),
        Instr::And(x, y) => op(Form::And, x, y, 0),
        Instr::Xor(x, y) => op(Form::Xor, x, y, 0),
        Instr::Sum(x, y) => op(Form::Sum, x, y, 0),
        Instr::Sub(x, y) => op(Form::Sub, x, y, 0),
        Instr::Right(x, y) => op(Form::Right, x, y, 0),
        Instr::SubN(x, y) => op(Form::SubN, x, y, 0),
        Instr::Left(x, y) => op(Form::Left, x, y, 0),
        Instr::SkipDiffer(x, y) => op(Form::SkipDiffer, x, y, 0),
        Instr::Index(number) => op(Form::Index, 0, 0, number),
        Instr::JumpPlus(number) => op(Form::JumpPlus, 0, 0, number),
        Instr::Random(x, number) => op(Form::Random, x, 0, u16::from(number)),
        Instr::Draw(x, y, number) => op(Form::Draw, x, y, u16::from(number)),
        Instr::SkipDown(x) => op(Form::SkipDown, x, 0, 0),
        Instr::SkipUp(x) => op(Form::SkipUp, x, 0, 0),
        Instr::GetDelay(x) => op(Form::GetDelay, x, 0, 0),
        Instr::WaitKey(x) => op(Form::WaitKey, x, 0, 0),
        Instr::SetDelay(x) => op(Form::SetDelay, x, 0, 0),
        Instr::SetSound(x) => op(Form::SetSound, x, 0, 0),
        Instr::AddIndex(x) => op(Form::AddIndex, x, 0, 0),
        Instr::Font(x) => op(Form::Font, x, 0, 0),
        Instr::Decimal(x) => op(Form::Decimal, x, 0, 0),
        Instr::Store(x) => op(Form::Store, x, 0, 0),
        Instr::Fetch(x) => op(Form::Fetch, x, 0, 0),
        Instr::Unknown(_) => return None,
    };
    Some(parts)
}
