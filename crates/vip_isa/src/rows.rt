//! The row of each kind: its opcode, its mnemonic and its operands, and by these the numbers that it can have and its size.

ghost use Rattle.std.specs.Prelude.{◌≡◌};
ghost use Rattle.vip_isa.specs.Rows.{first_of, operands_of, least_of, greatest_of, size_of, mnemonic_of};

use machine::Kind;

/// What stands behind the mnemonic of a kind.
#[derive(Clone, Copy)]
pub enum Operands {
    Nothing,
    /// The register R(N).
    Register,
    /// The port N.
    Port,
    /// The byte behind the opcode.
    Byte,
    /// The low byte of an address on its own page, behind the opcode of a short branch.
    Short,
    /// The two bytes of an address, behind the opcode of a long branch.
    Long,
    /// The opcode itself, which is no instruction.
    Data,
}

/// A row of the table: an opcode, less the number in its low half, a mnemonic, and what stands behind it.
type Row = (u8, &'static str, Operands);

/// The rows, in the order of the kinds.
static ROWS: [Row; 80] = [
    (0x00, "IDL", Operands::Nothing),
    (0x00, "LDN", Operands::Register),
    (0x10, "INC", Operands::Register),
    (0x20, "DEC", Operands::Register),
    (0x30, "BR", Operands::Short),
    (0x31, "BQ", Operands::Short),
    (0x32, "BZ", Operands::Short),
    (0x33, "BDF", Operands::Short),
    (0x34, "B1", Operands::Short),
    (0x35, "B2", Operands::Short),
    (0x36, "B3", Operands::Short),
    (0x37, "B4", Operands::Short),
    (0x38, "SKP", Operands::Nothing),
    (0x39, "BNQ", Operands::Short),
    (0x3A, "BNZ", Operands::Short),
    (0x3B, "BNF", Operands::Short),
    (0x3C, "BN1", Operands::Short),
    (0x3D, "BN2", Operands::Short),
    (0x3E, "BN3", Operands::Short),
    (0x3F, "BN4", Operands::Short),
    (0x40, "LDA", Operands::Register),
    (0x50, "STR", Operands::Register),
    (0x60, "IRX", Operands::Nothing),
    (0x60, "OUT", Operands::Port),
    (0x68, "DB", Operands::Data),
    (0x68, "INP", Operands::Port),
    (0x70, "RET", Operands::Nothing),
    (0x71, "DIS", Operands::Nothing),
    (0x72, "LDXA", Operands::Nothing),
    (0x73, "STXD", Operands::Nothing),
    (0x74, "ADC", Operands::Nothing),
    (0x75, "SDB", Operands::Nothing),
    (0x76, "SHRC", Operands::Nothing),
    (0x77, "SMB", Operands::Nothing),
    (0x78, "SAV", Operands::Nothing),
    (0x79, "MARK", Operands::Nothing),
    (0x7A, "REQ", Operands::Nothing),
    (0x7B, "SEQ", Operands::Nothing),
    (0x7C, "ADCI", Operands::Byte),
    (0x7D, "SDBI", Operands::Byte),
    (0x7E, "SHLC", Operands::Nothing),
    (0x7F, "SMBI", Operands::Byte),
    (0x80, "GLO", Operands::Register),
    (0x90, "GHI", Operands::Register),
    (0xA0, "PLO", Operands::Register),
    (0xB0, "PHI", Operands::Register),
    (0xC0, "LBR", Operands::Long),
    (0xC1, "LBQ", Operands::Long),
    (0xC2, "LBZ", Operands::Long),
    (0xC3, "LBDF", Operands::Long),
    (0xC4, "NOP", Operands::Nothing),
    (0xC5, "LSNQ", Operands::Nothing),
    (0xC6, "LSNZ", Operands::Nothing),
    (0xC7, "LSNF", Operands::Nothing),
    (0xC8, "LSKP", Operands::Nothing),
    (0xC9, "LBNQ", Operands::Long),
    (0xCA, "LBNZ", Operands::Long),
    (0xCB, "LBNF", Operands::Long),
    (0xCC, "LSIE", Operands::Nothing),
    (0xCD, "LSQ", Operands::Nothing),
    (0xCE, "LSZ", Operands::Nothing),
    (0xCF, "LSDF", Operands::Nothing),
    (0xD0, "SEP", Operands::Register),
    (0xE0, "SEX", Operands::Register),
    (0xF0, "LDX", Operands::Nothing),
    (0xF1, "OR", Operands::Nothing),
    (0xF2, "AND", Operands::Nothing),
    (0xF3, "XOR", Operands::Nothing),
    (0xF4, "ADD", Operands::Nothing),
    (0xF5, "SD", Operands::Nothing),
    (0xF6, "SHR", Operands::Nothing),
    (0xF7, "SM", Operands::Nothing),
    (0xF8, "LDI", Operands::Byte),
    (0xF9, "ORI", Operands::Byte),
    (0xFA, "ANI", Operands::Byte),
    (0xFB, "XRI", Operands::Byte),
    (0xFC, "ADI", Operands::Byte),
    (0xFD, "SDI", Operands::Byte),
    (0xFE, "SHL", Operands::Nothing),
    (0xFF, "SMI", Operands::Byte),
];

/// The row of a kind.
fn row_of(kind: Kind) -> Row
    ensures opcode { result.0 ≡ first_of kind }
    ensures mnemonic { result.1.now ≡ mnemonic_of kind }
    ensures operands { result.2 ≡ operands_of kind }
{
    ROWS[kind as usize]
}

/// The opcode of a kind, less the number in its low half.
pub fn first_opcode(kind: Kind) -> u8
    ensures { result ≡ first_of kind }
{
    row_of(kind).0
}

/// What stands behind the mnemonic of a kind.
pub fn operands_in(kind: Kind) -> Operands
    ensures { result ≡ operands_of kind }
{
    row_of(kind).2
}

/// The mnemonic of a kind.
pub fn mnemonic_in(kind: Kind) -> &'static str
    ensures { result.now ≡ mnemonic_of kind }
{
    row_of(kind).1
}

/// The least number that a kind can have.
pub fn least(kind: Kind) -> u8
    ensures { result ≡ least_of kind }
{
    match kind {
        Kind::Ldn | Kind::Out | Kind::Inp => 1,
        _ => 0,
    }
}

/// The greatest number that a kind can have.
pub fn greatest(kind: Kind) -> u8
    ensures { result ≡ greatest_of kind }
{
    match operands_in(kind) {
        Operands::Register => 15,
        Operands::Port => 7,
        _ => 0,
    }
}

/// The size of a kind in bytes.
pub fn size_in(kind: Kind) -> u8
    ensures { result ≡ size_of kind }
{
    match operands_in(kind) {
        Operands::Byte | Operands::Short => 2,
        Operands::Long => 3,
        _ => 1,
    }
}
