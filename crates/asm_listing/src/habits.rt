//! The habits of other assemblers and languages, as rows of tables: what is sought, and what is said where it is found.

ghost use Rattle.std.specs.Prelude.{◌≡◌, map};
ghost use Rattle.asm_listing.specs.Habits.{row_of, words_of, rows, octo_rows, octo_statements, processor_rows, game_rows, words, operands, labels, ranges, undefined, targets, octo_words, game_words, octo_labels, game_labels, game_operands, game_ranges, game_undefined};

use asm_core::AsmCause;
use asm_lex::Isa;

/// What the middle of a text has to be.
#[derive(Clone, Copy)]
pub(crate) enum Class {
    /// Whatever it is.
    Any,
    /// Hexadecimal digits, one or more.
    Hexadecimal,
    /// Hexadecimal digits, the first of them decimal.
    HexNumber,
    /// One hexadecimal digit.
    HexDigit,
    /// One hexadecimal digit behind any number of noughts.
    Digit,
    /// A digit from 1 to 7 behind any number of noughts.
    Port,
    /// Decimal digits, one or more.
    Decimal,
    /// Up to 16 digits 0 and 1.
    Binary,
    /// One byte.
    Character,
    /// What may be a label.
    Name,
    /// What begins with a decimal digit.
    Number,
}

/// What a text has to be, its letters of either case.
#[derive(Clone, Copy)]
pub(crate) enum Shape {
    /// One of these words.
    Words(&'static [&'static str]),
    /// What begins and ends so, with such a text between.
    Between(&'static str, Class, &'static str),
    /// What has this in it.
    Holds(&'static str),
}

/// The words of a line in which a habit is sought. Those that many rows have stand once: a list in each row would be proved in each.
#[derive(Clone, Copy)]
pub(crate) enum After {
    /// Any word.
    AnyWord,
    /// Those of the CDP1802 that take no operand.
    Bare,
    /// Those that take a register.
    Registers,
    /// Those that take a port.
    Ports,
    /// Those that take a byte.
    Bytes,
    /// Those that take one expression.
    Single,
    /// Those of CHIP-8 that take a byte.
    GameBytes,
    /// These.
    These(&'static [&'static str]),
}

/// A habit. What is said has for `@` what stands between, or the whole culprit, for `%` its value as a binary number, for `&` the code of its first
/// byte, for `^` its last byte, for `|` the line's word, and for `~` the first operand behind what it has to begin with.
#[derive(Clone, Copy)]
pub(crate) struct Row {
    /// The words of a line in which it is sought.
    pub after: After,
    /// What the culprit has to be.
    pub shape: Shape,
    /// What the first operand has to begin with.
    pub behind: &'static str,
    /// What is said.
    pub says: &'static str,
}

/// The words of the CDP1802 that take no operand.
#[rattlefmt::skip]
const BARE: &[&str] = &["IDL", "LDX", "LDXA", "STXD", "IRX", "RET", "DIS", "SAV", "MARK", "REQ", "SEQ", "NOP", "ADC", "ADD", "SDB", "SD", "SMB", "SM", "OR", "AND", "XOR", "SHR", "SHRC", "SHL", "SHLC", "SKP", "LSKP", "LSQ", "LSNQ", "LSZ", "LSNZ", "LSDF", "LSNF", "LSIE"];

/// Those that take a register.
#[rattlefmt::skip]
pub(crate) const REGISTERS: &[&str] = &["LDN", "LDA", "STR", "INC", "DEC", "GLO", "GHI", "PLO", "PHI", "SEP", "SEX"];

/// Those that take a port.
#[rattlefmt::skip]
const PORTS: &[&str] = &["OUT", "INP"];

/// Those that take a byte.
#[rattlefmt::skip]
const BYTES: &[&str] = &["LDI", "ORI", "ANI", "XRI", "ADI", "SDI", "SMI", "ADCI", "SDBI", "SMBI", "DB"];

/// Those that take one expression.
#[rattlefmt::skip]
const SINGLE: &[&str] = &["LDI", "ORI", "ANI", "XRI", "ADI", "SDI", "SMI", "ADCI", "SDBI", "SMBI", "BR", "BQ", "BZ", "BDF", "BNQ", "BNZ", "BNF", "B1", "B2", "B3", "B4", "BN1", "BN2", "BN3", "BN4", "LBR", "LBQ", "LBZ", "LBDF", "LBNQ", "LBNZ", "LBNF", "ORG", "EQU", "DS"];

/// The words of CHIP-8 that take a byte.
#[rattlefmt::skip]
const GAME_BYTES: &[&str] = &["LD", "ADD", "SE", "SNE", "RND", "DB"];

/// Of the words of other assemblers and processors.
#[rattlefmt::skip]
static WORDS: [Row; 29] = [
    Row { after: After::AnyWord, shape: Shape::Words(&["BGE", "BPZ"]), behind: "", says: "use BDF" },
    Row { after: After::AnyWord, shape: Shape::Words(&["BM", "BL"]), behind: "", says: "use BNF" },
    Row { after: After::AnyWord, shape: Shape::Words(&["NBR"]), behind: "", says: "use SKP" },
    Row { after: After::AnyWord, shape: Shape::Words(&["NLBR"]), behind: "", says: "use LSKP" },
    Row { after: After::AnyWord, shape: Shape::Words(&["RSHL"]), behind: "", says: "use SHLC" },
    Row { after: After::AnyWord, shape: Shape::Words(&["RSHR"]), behind: "", says: "use SHRC" },
    Row { after: After::AnyWord, shape: Shape::Words(&["HLT", "HALT"]), behind: "", says: "use IDL" },
    Row { after: After::AnyWord, shape: Shape::Words(&["SUB"]), behind: "", says: "use SM, or SMI with a number" },
    Row { after: After::AnyWord, shape: Shape::Words(&["BYTE", "FCB", "FCC", "DC", "TEXT", "ASCII", "DEFB", "DEFM", ".BYTE", ".DB", ".TEXT", ".ASCII"]), behind: "", says: "use DB with numbers" },
    Row { after: After::AnyWord, shape: Shape::Words(&["WORD", "FDB", "ADDR", "DEFW", ".WORD", ".DW"]), behind: "", says: "use DW" },
    Row { after: After::AnyWord, shape: Shape::Words(&["BLK", "RMB", "BSS", "DEFS", "RES", ".BLOCK", ".DS"]), behind: "", says: "use DS" },
    Row { after: After::AnyWord, shape: Shape::Words(&["=", "SET", ".EQU", ".SET"]), behind: "", says: "use EQU" },
    Row { after: After::AnyWord, shape: Shape::Words(&[".ORG"]), behind: "", says: "use ORG" },
    Row { after: After::AnyWord, shape: Shape::Between("", Class::Name, ""), behind: "= ", says: "use EQU with a label: @: EQU ~" },
    Row { after: After::AnyWord, shape: Shape::Between("", Class::Name, ""), behind: "SET ", says: "use EQU with a label: @: EQU ~" },
    Row { after: After::AnyWord, shape: Shape::Between("", Class::Name, ""), behind: ".EQU ", says: "use EQU with a label: @: EQU ~" },
    Row { after: After::AnyWord, shape: Shape::Words(&["CALL", "RETN", "SCAL", "SRET", "JSR", "BSR", "RTS", "GOSUB"]), behind: "", says: "not an 1802 instruction: call by SEP or by a routine of your own, docs/FIRST_1802.md" },
    Row { after: After::AnyWord, shape: Shape::Words(&["JMP", "JUMP", "BRA", "GOTO"]), behind: "", says: "not an 1802 instruction: use BR, or LBR to another page" },
    Row { after: After::AnyWord, shape: Shape::Words(&["MOV", "MVI", "LXI", "STA", "LDAA", "STAA", "PUSH", "POP", "CMP", "CPI", "CLR", "NOP2"]), behind: "", says: "not an 1802 instruction" },
    Row { after: After::AnyWord, shape: Shape::Words(&["RLDI", "RLXA", "RSXD", "RNX", "DBNZ", "LDC", "GEC", "STPC", "DTC", "STM", "ETQ", "XIE", "XID", "CIE", "CID"]), behind: "", says: "an 1804 instruction, not an 1802 instruction" },
    Row { after: After::AnyWord, shape: Shape::Words(&["CLS", "SYS", "JP", "SE", "SNE", "LD", "SUBN", "RND", "DRW", "SKNP"]), behind: "", says: "a CHIP-8 mnemonic: add --chip8" },
    Row { after: After::AnyWord, shape: Shape::Words(&["CPU", "TITLE", "END", "LIST", "NOLIST", "EJECT", "PRINT"]), behind: "", says: "delete the line" },
    Row { after: After::AnyWord, shape: Shape::Words(&["INCLUDE", "#INCLUDE"]), behind: "", says: "insert the lines of that file here" },
    Row { after: After::AnyWord, shape: Shape::Words(&["MACRO", "ENDM", "IF", "ELSE", "ENDIF"]), behind: "", says: "macros and conditions are not supported" },
    Row { after: After::AnyWord, shape: Shape::Between("..", Class::Any, ""), behind: "", says: "a comment begins with ;" },
    Row { after: After::AnyWord, shape: Shape::Between("//", Class::Any, ""), behind: "", says: "a comment begins with ;" },
    Row { after: After::AnyWord, shape: Shape::Between("*", Class::Any, ""), behind: "", says: "a comment begins with ;" },
    Row { after: After::AnyWord, shape: Shape::Between("#", Class::Any, ""), behind: "", says: "a comment begins with ;" },
    Row { after: After::AnyWord, shape: Shape::Holds("="), behind: "", says: "use EQU with a label: SP: EQU 2" },
];

/// Of the operands of the CDP1802.
#[rattlefmt::skip]
static OPERANDS: [Row; 78] = [
    Row { after: After::AnyWord, shape: Shape::Holds(" .."), behind: "", says: "a comment begins with ;" },
    Row { after: After::AnyWord, shape: Shape::Holds(" //"), behind: "", says: "a comment begins with ;" },
    Row { after: After::AnyWord, shape: Shape::Holds(" *"), behind: "", says: "a comment begins with ;" },
    Row { after: After::AnyWord, shape: Shape::Holds(" #"), behind: "", says: "a comment begins with ;" },
    Row { after: After::AnyWord, shape: Shape::Between("..", Class::Any, ""), behind: "", says: "a comment begins with ;" },
    Row { after: After::AnyWord, shape: Shape::Between("//", Class::Any, ""), behind: "", says: "a comment begins with ;" },
    Row { after: After::Bare, shape: Shape::Between("*", Class::Any, ""), behind: "", says: "a comment begins with ;" },
    Row { after: After::Bare, shape: Shape::Between("# ", Class::Any, ""), behind: "", says: "a comment begins with ;" },
    Row { after: After::AnyWord, shape: Shape::Between("V", Class::HexDigit, ""), behind: "", says: "V@ is a CHIP-8 register: add --chip8" },
    Row { after: After::These(&["ADD"]), shape: Shape::Between("", Class::Any, ""), behind: "", says: "with a number use ADI" },
    Row { after: After::These(&["ADC"]), shape: Shape::Between("", Class::Any, ""), behind: "", says: "with a number use ADCI" },
    Row { after: After::These(&["SD"]), shape: Shape::Between("", Class::Any, ""), behind: "", says: "with a number use SDI" },
    Row { after: After::These(&["SDB"]), shape: Shape::Between("", Class::Any, ""), behind: "", says: "with a number use SDBI" },
    Row { after: After::These(&["SM"]), shape: Shape::Between("", Class::Any, ""), behind: "", says: "with a number use SMI" },
    Row { after: After::These(&["SMB"]), shape: Shape::Between("", Class::Any, ""), behind: "", says: "with a number use SMBI" },
    Row { after: After::These(&["AND"]), shape: Shape::Between("", Class::Any, ""), behind: "", says: "with a number use ANI" },
    Row { after: After::These(&["OR"]), shape: Shape::Between("", Class::Any, ""), behind: "", says: "with a number use ORI" },
    Row { after: After::These(&["XOR"]), shape: Shape::Between("", Class::Any, ""), behind: "", says: "with a number use XRI" },
    Row { after: After::These(&["LDX"]), shape: Shape::Between("", Class::Any, ""), behind: "", says: "with a number use LDI" },
    Row { after: After::Bare, shape: Shape::Between("", Class::Any, ""), behind: "", says: "| takes no operand" },
    Row { after: After::Ports, shape: Shape::Between("", Class::Port, ""), behind: "", says: "write the port as ^" },
    Row { after: After::Ports, shape: Shape::Between("#", Class::Port, ""), behind: "", says: "write the port as ^" },
    Row { after: After::Ports, shape: Shape::Between("$", Class::Port, ""), behind: "", says: "write the port as ^" },
    Row { after: After::Ports, shape: Shape::Between("0x", Class::Port, ""), behind: "", says: "write the port as ^" },
    Row { after: After::Ports, shape: Shape::Between("", Class::Port, "H"), behind: "", says: "write the port as ^" },
    Row { after: After::Ports, shape: Shape::Between("X'", Class::Port, "'"), behind: "", says: "write the port as ^" },
    Row { after: After::Ports, shape: Shape::Between("", Class::Any, ""), behind: "", says: "a port is a digit from 1 to 7" },
    Row { after: After::These(&["LDN"]), shape: Shape::Words(&["0", "R0"]), behind: "", says: "LDN doesn't take R0: opcode 00 is IDL" },
    Row { after: After::Registers, shape: Shape::Words(&["D"]), behind: "", says: "D is the accumulator, not a register" },
    Row { after: After::Registers, shape: Shape::Words(&["10", "R10"]), behind: "", says: "write the register as RA, one hexadecimal digit" },
    Row { after: After::Registers, shape: Shape::Words(&["11", "R11"]), behind: "", says: "write the register as RB, one hexadecimal digit" },
    Row { after: After::Registers, shape: Shape::Words(&["12", "R12"]), behind: "", says: "write the register as RC, one hexadecimal digit" },
    Row { after: After::Registers, shape: Shape::Words(&["13", "R13"]), behind: "", says: "write the register as RD, one hexadecimal digit" },
    Row { after: After::Registers, shape: Shape::Words(&["14", "R14"]), behind: "", says: "write the register as RE, one hexadecimal digit" },
    Row { after: After::Registers, shape: Shape::Words(&["15", "R15"]), behind: "", says: "write the register as RF, one hexadecimal digit" },
    Row { after: After::Registers, shape: Shape::Between("", Class::Digit, ""), behind: "", says: "write the register as R^" },
    Row { after: After::Registers, shape: Shape::Between("#", Class::Digit, ""), behind: "", says: "write the register as R^" },
    Row { after: After::Registers, shape: Shape::Between("$", Class::Digit, ""), behind: "", says: "write the register as R^" },
    Row { after: After::Registers, shape: Shape::Between("0x", Class::Digit, ""), behind: "", says: "write the register as R^" },
    Row { after: After::Registers, shape: Shape::Between("", Class::Digit, "H"), behind: "", says: "write the register as R^" },
    Row { after: After::Registers, shape: Shape::Between("X'", Class::Digit, "'"), behind: "", says: "write the register as R^" },
    Row { after: After::Registers, shape: Shape::Words(REGISTERS), behind: "", says: "a register is missing: R0 to RF" },
    Row { after: After::Registers, shape: Shape::Between("R", Class::HexDigit, ""), behind: "", says: "| takes one register" },
    Row { after: After::Registers, shape: Shape::Between("", Class::Name, ""), behind: "", says: "registers have no names: use R0 to RF" },
    Row { after: After::Registers, shape: Shape::Between("", Class::Any, ""), behind: "", says: "use a register, R0 to RF" },
    Row { after: After::These(&["PAGE"]), shape: Shape::Between("", Class::Any, ""), behind: "", says: "PAGE takes no operand; if it is for a listing, delete the line" },
    Row { after: After::These(&["EQU"]), shape: Shape::Words(&["EQU"]), behind: "", says: "use EQU with a label and a number: SP: EQU 2" },
    Row { after: After::Single, shape: Shape::Between("", Class::Decimal, ""), behind: "", says: "| takes one number" },
    Row { after: After::AnyWord, shape: Shape::Between("#", Class::Hexadecimal, ""), behind: "", says: "write hexadecimal as 0x@" },
    Row { after: After::AnyWord, shape: Shape::Between("$", Class::Hexadecimal, ""), behind: "", says: "write hexadecimal as 0x@" },
    Row { after: After::AnyWord, shape: Shape::Between("0X", Class::Hexadecimal, ""), behind: "", says: "write hexadecimal as 0x@" },
    Row { after: After::AnyWord, shape: Shape::Between("X'", Class::Hexadecimal, "'"), behind: "", says: "write hexadecimal as 0x@" },
    Row { after: After::AnyWord, shape: Shape::Between("%", Class::Binary, ""), behind: "", says: "binary is not supported: use 0x%" },
    Row { after: After::AnyWord, shape: Shape::Between("0b", Class::Binary, ""), behind: "", says: "binary is not supported: use 0x%" },
    Row { after: After::AnyWord, shape: Shape::Between("B'", Class::Binary, "'"), behind: "", says: "binary is not supported: use 0x%" },
    Row { after: After::AnyWord, shape: Shape::Between("", Class::Binary, "B"), behind: "", says: "binary is not supported: use 0x%" },
    Row { after: After::AnyWord, shape: Shape::Between("", Class::HexNumber, "H"), behind: "", says: "write hexadecimal as 0x@" },
    Row { after: After::AnyWord, shape: Shape::Between("", Class::HexNumber, ""), behind: "", says: "write hexadecimal as 0x@" },
    Row { after: After::AnyWord, shape: Shape::Between("'", Class::Character, "'"), behind: "", says: "write the character as 0x&" },
    Row { after: After::AnyWord, shape: Shape::Between("\"", Class::Character, "\""), behind: "", says: "write the character as 0x&" },
    Row { after: After::AnyWord, shape: Shape::Between("'", Class::Any, ""), behind: "", says: "write a text as DB with numbers: 0x41 for A" },
    Row { after: After::AnyWord, shape: Shape::Between("\"", Class::Any, ""), behind: "", says: "write a text as DB with numbers: 0x41 for A" },
    Row { after: After::AnyWord, shape: Shape::Between("T'", Class::Any, ""), behind: "", says: "write a text as DB with numbers: 0x41 for A" },
    Row { after: After::AnyWord, shape: Shape::Between("A.1(", Class::Any, ")"), behind: "", says: "write the high byte as >@" },
    Row { after: After::AnyWord, shape: Shape::Between("HIGH(", Class::Any, ")"), behind: "", says: "write the high byte as >@" },
    Row { after: After::AnyWord, shape: Shape::Between("HIGH ", Class::Any, ""), behind: "", says: "write the high byte as >@" },
    Row { after: After::AnyWord, shape: Shape::Between("", Class::Name, ".1"), behind: "", says: "write the high byte as >@" },
    Row { after: After::AnyWord, shape: Shape::Between("A.0(", Class::Any, ")"), behind: "", says: "write the low byte as <@" },
    Row { after: After::AnyWord, shape: Shape::Between("LOW(", Class::Any, ")"), behind: "", says: "write the low byte as <@" },
    Row { after: After::AnyWord, shape: Shape::Between("LOW ", Class::Any, ""), behind: "", says: "write the low byte as <@" },
    Row { after: After::AnyWord, shape: Shape::Between("", Class::Name, ".0"), behind: "", says: "write the low byte as <@" },
    Row { after: After::AnyWord, shape: Shape::Between("*", Class::Any, ""), behind: "", says: "use $ for this address" },
    Row { after: After::Bytes, shape: Shape::Between("-", Class::Decimal, ""), behind: "", says: "write it without a sign: 256-@" },
    Row { after: After::AnyWord, shape: Shape::Between("-", Class::Any, ""), behind: "", says: "an expression can't begin with a sign" },
    Row { after: After::AnyWord, shape: Shape::Between("+", Class::Any, ""), behind: "", says: "an expression can't begin with a sign" },
    Row { after: After::AnyWord, shape: Shape::Between("(", Class::Any, ""), behind: "", says: "parentheses are not supported" },
    Row { after: After::AnyWord, shape: Shape::Between("R", Class::HexDigit, ""), behind: "", says: "R@ is a register, not a number" },
    Row { after: After::AnyWord, shape: Shape::Holds(" "), behind: "", says: "an expression can't contain blanks" },
];

/// Of the labels of the CDP1802.
#[rattlefmt::skip]
static LABELS: [Row; 10] = [
    Row { after: After::AnyWord, shape: Shape::Between("..", Class::Any, ""), behind: "", says: "a comment begins with ;" },
    Row { after: After::AnyWord, shape: Shape::Between("//", Class::Any, ""), behind: "", says: "a comment begins with ;" },
    Row { after: After::AnyWord, shape: Shape::Between("*", Class::Any, ""), behind: "", says: "a comment begins with ;" },
    Row { after: After::AnyWord, shape: Shape::Between("#", Class::Any, ""), behind: "", says: "a comment begins with ;" },
    Row { after: After::AnyWord, shape: Shape::Holds(" .."), behind: "", says: "a comment begins with ;" },
    Row { after: After::AnyWord, shape: Shape::Holds(" //"), behind: "", says: "a comment begins with ;" },
    Row { after: After::AnyWord, shape: Shape::Holds(" *"), behind: "", says: "a comment begins with ;" },
    Row { after: After::AnyWord, shape: Shape::Holds(" #"), behind: "", says: "a comment begins with ;" },
    Row { after: After::AnyWord, shape: Shape::Between("R", Class::HexDigit, ""), behind: "", says: "R@ is a register" },
    Row { after: After::AnyWord, shape: Shape::Between("", Class::Name, " "), behind: "", says: "put the colon directly after the label: @:" },
];

/// Of the values of the CDP1802 that are out of range.
#[rattlefmt::skip]
static RANGES: [Row; 4] = [
    Row { after: After::Bytes, shape: Shape::Between("", Class::Number, ""), behind: "", says: "a byte is 0 to 255" },
    Row { after: After::AnyWord, shape: Shape::Between("<", Class::Any, ""), behind: "", says: "the sum is below 0 or above 65535" },
    Row { after: After::AnyWord, shape: Shape::Between(">", Class::Any, ""), behind: "", says: "the sum is below 0 or above 65535" },
    Row { after: After::Bytes, shape: Shape::Between("", Class::Any, ""), behind: "", says: "a byte is 0 to 255: <@ is the low byte" },
];

/// Of the names without a value of the CDP1802.
#[rattlefmt::skip]
static UNDEFINED: [Row; 3] = [
    Row { after: After::AnyWord, shape: Shape::Between("", Class::Hexadecimal, "H"), behind: "", says: "write hexadecimal as 0x@" },
    Row { after: After::AnyWord, shape: Shape::Between("V", Class::HexDigit, ""), behind: "", says: "V@ is a CHIP-8 register: add --chip8" },
    Row { after: After::AnyWord, shape: Shape::Between("", Class::Hexadecimal, ""), behind: "", says: "write hexadecimal as 0x@, unless it is a name" },
];

/// Of the targets on another page.
#[rattlefmt::skip]
static TARGETS: [Row; 2] = [
    Row { after: After::These(&["BR", "BQ", "BZ", "BDF", "BNQ", "BNZ", "BNF"]), shape: Shape::Between("", Class::Any, ""), behind: "", says: "use L|, which reaches every page" },
    Row { after: After::AnyWord, shape: Shape::Between("", Class::Any, ""), behind: "", says: "put PAGE before both to put them on one page" },
];

/// Of Octo's statements without a colon.
#[rattlefmt::skip]
static OCTO_WORDS: [Row; 21] = [
    Row { after: After::AnyWord, shape: Shape::Between("", Class::Any, ""), behind: "+= ", says: "ADD @, ~" },
    Row { after: After::AnyWord, shape: Shape::Between("", Class::Any, ""), behind: "-= ", says: "SUB @, ~; with a number ADD @, 256-~" },
    Row { after: After::AnyWord, shape: Shape::Between("", Class::Any, ""), behind: "=- ", says: "SUBN @, ~" },
    Row { after: After::AnyWord, shape: Shape::Between("", Class::Any, ""), behind: "|= ", says: "OR @, ~" },
    Row { after: After::AnyWord, shape: Shape::Between("", Class::Any, ""), behind: "&= ", says: "AND @, ~" },
    Row { after: After::AnyWord, shape: Shape::Between("", Class::Any, ""), behind: "^= ", says: "XOR @, ~" },
    Row { after: After::AnyWord, shape: Shape::Between("", Class::Any, ""), behind: ">>= ", says: "SHR @, ~" },
    Row { after: After::AnyWord, shape: Shape::Between("", Class::Any, ""), behind: "<<= ", says: "SHL @, ~" },
    Row { after: After::AnyWord, shape: Shape::Words(&["jump"]), behind: "", says: "JP ~" },
    Row { after: After::AnyWord, shape: Shape::Words(&["jump0"]), behind: "", says: "JP V0, ~" },
    Row { after: After::AnyWord, shape: Shape::Words(&["return"]), behind: "", says: "RET" },
    Row { after: After::AnyWord, shape: Shape::Words(&["clear"]), behind: "", says: "CLS" },
    Row { after: After::AnyWord, shape: Shape::Words(&["sprite"]), behind: "", says: "use DRW with commas: DRW V0, V1, 5" },
    Row { after: After::AnyWord, shape: Shape::Words(&["bcd"]), behind: "", says: "LD B, ~" },
    Row { after: After::AnyWord, shape: Shape::Words(&["save"]), behind: "", says: "LD [I], ~" },
    Row { after: After::AnyWord, shape: Shape::Words(&["load"]), behind: "", says: "LD ~, [I]" },
    Row { after: After::AnyWord, shape: Shape::Words(&["native"]), behind: "", says: "SYS ~" },
    Row { after: After::AnyWord, shape: Shape::Words(&["loop"]), behind: "", says: "use a label, and JP to it in place of again" },
    Row { after: After::AnyWord, shape: Shape::Words(&["again"]), behind: "", says: "use JP to the label in place of loop" },
    Row { after: After::AnyWord, shape: Shape::Words(&["if"]), behind: "", says: "use SNE for == and SE for !=: each skips one instruction" },
    Row { after: After::AnyWord, shape: Shape::Words(&["else", "begin", "while"]), behind: "", says: "use SE or SNE, which skip one instruction, and JP" },
];

/// Of the words of other assemblers of CHIP-8.
#[rattlefmt::skip]
static GAME_WORDS: [Row; 13] = [
    Row { after: After::AnyWord, shape: Shape::Words(&["hires", "lores", "scroll-down", "scroll-left", "scroll-right", "plane", "audio", "bighex"]), behind: "", says: "a SUPER-CHIP or XO-CHIP instruction, not supported here" },
    Row { after: After::AnyWord, shape: Shape::Words(&["SCD", "SCR", "SCL", "EXIT", "LOW", "HIGH"]), behind: "", says: "a SUPER-CHIP or XO-CHIP instruction, not supported here" },
    Row { after: After::AnyWord, shape: Shape::Words(&["DA", "FCB", "BYTE", "TEXT", "ASCII"]), behind: "", says: "use DB with numbers" },
    Row { after: After::AnyWord, shape: Shape::Words(&["FDB", "WORD"]), behind: "", says: "use DW" },
    Row { after: After::AnyWord, shape: Shape::Words(&["=", "SET", ".EQU"]), behind: "", says: "use EQU" },
    Row { after: After::AnyWord, shape: Shape::Between("", Class::Name, ""), behind: "= ", says: "use EQU with a label: @: EQU ~" },
    Row { after: After::AnyWord, shape: Shape::Words(&["CPU", "TITLE", "END", "OPTION", "XREF", "LIST"]), behind: "", says: "delete the line" },
    Row { after: After::AnyWord, shape: Shape::Words(&["ALIGN"]), behind: "", says: "an instruction can be at any address: delete the line" },
    Row { after: After::AnyWord, shape: Shape::Words(&["INCLUDE"]), behind: "", says: "insert the lines of that file here" },
    Row { after: After::AnyWord, shape: Shape::Words(&["LDI", "LDA", "LDN", "STR", "INC", "DEC", "GLO", "GHI", "PLO", "PHI", "SEP", "SEX", "BR", "LBR", "BZ", "BNZ", "IDL", "OUT", "INP"]), behind: "", says: "an 1802 mnemonic: leave out --chip8" },
    Row { after: After::AnyWord, shape: Shape::Between("#", Class::Any, ""), behind: "", says: "a comment begins with ;" },
    Row { after: After::AnyWord, shape: Shape::Between("//", Class::Any, ""), behind: "", says: "a comment begins with ;" },
    Row { after: After::AnyWord, shape: Shape::Between("", Class::Number, ""), behind: "", says: "write bytes after DB, separated by commas" },
];

/// Of Octo's statements with a colon.
#[rattlefmt::skip]
static OCTO_LABELS: [Row; 16] = [
    Row { after: After::AnyWord, shape: Shape::Between("if ", Class::Any, ""), behind: "", says: "use SNE for == and SE for !=: each skips one instruction" },
    Row { after: After::These(&["="]), shape: Shape::Words(&["delay "]), behind: "", says: "LD DT, ~" },
    Row { after: After::These(&["="]), shape: Shape::Words(&["buzzer "]), behind: "", says: "LD ST, ~" },
    Row { after: After::These(&["="]), shape: Shape::Between("", Class::Any, " "), behind: "random ", says: "RND @, ~" },
    Row { after: After::These(&["="]), shape: Shape::Between("", Class::Any, " "), behind: "key", says: "LD @, K" },
    Row { after: After::These(&["="]), shape: Shape::Between("", Class::Any, " "), behind: "delay", says: "LD @, DT" },
    Row { after: After::These(&["="]), shape: Shape::Between("", Class::Any, " "), behind: "hex ", says: "LD F, ~" },
    Row { after: After::These(&["="]), shape: Shape::Between("", Class::Any, " "), behind: "-", says: "LD @, 256-~" },
    Row { after: After::These(&["="]), shape: Shape::Between("", Class::Any, " "), behind: "", says: "LD @, ~" },
    Row { after: After::These(&["alias"]), shape: Shape::Words(&[""]), behind: "", says: "use EQU with a label: x: EQU V0" },
    Row { after: After::These(&["const", "calc"]), shape: Shape::Words(&[""]), behind: "", says: "use EQU with a label: x: EQU 5" },
    Row { after: After::These(&["macro"]), shape: Shape::Words(&[""]), behind: "", says: "macros are not supported" },
    Row { after: After::These(&["org"]), shape: Shape::Words(&[""]), behind: "", says: "ORG ~" },
    Row { after: After::These(&["byte"]), shape: Shape::Words(&[""]), behind: "", says: "DB ~" },
    Row { after: After::These(&["call"]), shape: Shape::Words(&[""]), behind: "", says: "CALL ~" },
    Row { after: After::AnyWord, shape: Shape::Words(&[""]), behind: "", says: "write a label as |:" },
];

/// Of the labels of CHIP-8.
#[rattlefmt::skip]
static GAME_LABELS: [Row; 5] = [
    Row { after: After::AnyWord, shape: Shape::Between("V", Class::HexDigit, ""), behind: "", says: "V@ is a register" },
    Row { after: After::AnyWord, shape: Shape::Words(&["I", "DT", "ST", "K", "F", "B"]), behind: "", says: "@ is a reserved operand name" },
    Row { after: After::AnyWord, shape: Shape::Between("", Class::Name, " "), behind: "", says: "put the colon directly after the label: @:" },
    Row { after: After::AnyWord, shape: Shape::Between("#", Class::Any, ""), behind: "", says: "a comment begins with ;" },
    Row { after: After::AnyWord, shape: Shape::Between("//", Class::Any, ""), behind: "", says: "a comment begins with ;" },
];

/// Of the operands of CHIP-8.
#[rattlefmt::skip]
static GAME_OPERANDS: [Row; 34] = [
    Row { after: After::AnyWord, shape: Shape::Words(&["JP", "CALL", "SYS", "SE", "SNE", "LD", "ADD", "OR", "AND", "XOR", "SUB", "SUBN", "SHR", "SHL", "RND", "DRW", "SKP", "SKNP", "DB", "DW", "DS", "ORG"]), behind: "", says: "an operand is missing" },
    Row { after: After::These(&["EQU"]), shape: Shape::Words(&["EQU"]), behind: "", says: "use EQU with a label and a number: x: EQU 2" },
    Row { after: After::AnyWord, shape: Shape::Holds(" //"), behind: "", says: "a comment begins with ;" },
    Row { after: After::AnyWord, shape: Shape::Holds(" #"), behind: "", says: "a comment begins with ;" },
    Row { after: After::These(&["SUB"]), shape: Shape::Between("", Class::Decimal, ""), behind: "", says: "SUB takes two registers: use ADD with 256-@" },
    Row { after: After::These(&["SUB", "SUBN", "OR", "AND", "XOR", "SHR", "SHL"]), shape: Shape::Between("", Class::Number, ""), behind: "", says: "| takes registers" },
    Row { after: After::AnyWord, shape: Shape::Between("", Class::Decimal, ""), behind: "", says: "a number can't be used here" },
    Row { after: After::AnyWord, shape: Shape::Between("$", Class::Binary, ""), behind: "", says: "write binary as 0b@" },
    Row { after: After::AnyWord, shape: Shape::Between("%", Class::Binary, ""), behind: "", says: "write binary as 0b@" },
    Row { after: After::AnyWord, shape: Shape::Between("0B", Class::Binary, ""), behind: "", says: "write binary as 0b@" },
    Row { after: After::AnyWord, shape: Shape::Between("B'", Class::Binary, "'"), behind: "", says: "write binary as 0b@" },
    Row { after: After::AnyWord, shape: Shape::Between("", Class::Binary, "B"), behind: "", says: "write binary as 0b@" },
    Row { after: After::AnyWord, shape: Shape::Between("0b", Class::Any, ""), behind: "", says: "a binary number has only the digits 0 and 1" },
    Row { after: After::AnyWord, shape: Shape::Between("#", Class::Hexadecimal, ""), behind: "", says: "write hexadecimal as 0x@" },
    Row { after: After::AnyWord, shape: Shape::Between("$", Class::Hexadecimal, ""), behind: "", says: "write hexadecimal as 0x@" },
    Row { after: After::AnyWord, shape: Shape::Between("0X", Class::Hexadecimal, ""), behind: "", says: "write hexadecimal as 0x@" },
    Row { after: After::AnyWord, shape: Shape::Between("", Class::HexNumber, "H"), behind: "", says: "write hexadecimal as 0x@" },
    Row { after: After::AnyWord, shape: Shape::Between("", Class::HexNumber, ""), behind: "", says: "write hexadecimal as 0x@" },
    Row { after: After::AnyWord, shape: Shape::Between("'", Class::Character, "'"), behind: "", says: "write the character as 0x&" },
    Row { after: After::AnyWord, shape: Shape::Between("\"", Class::Character, "\""), behind: "", says: "write the character as 0x&" },
    Row { after: After::AnyWord, shape: Shape::Between("'", Class::Any, ""), behind: "", says: "write a text as DB with numbers: 0x41 for A" },
    Row { after: After::AnyWord, shape: Shape::Between("\"", Class::Any, ""), behind: "", says: "write a text as DB with numbers: 0x41 for A" },
    Row { after: After::AnyWord, shape: Shape::Between("[ I", Class::Any, "]"), behind: "", says: "write [I] without blanks" },
    Row { after: After::GameBytes, shape: Shape::Between("-", Class::Decimal, ""), behind: "", says: "write it without a sign: 256-@" },
    Row { after: After::AnyWord, shape: Shape::Between("-", Class::Any, ""), behind: "", says: "an expression can't begin with a sign" },
    Row { after: After::AnyWord, shape: Shape::Between("*", Class::Any, ""), behind: "", says: "use $ for this address" },
    Row { after: After::AnyWord, shape: Shape::Words(&["R", "HF"]), behind: "", says: "a SUPER-CHIP operand, not supported here" },
    Row { after: After::AnyWord, shape: Shape::Words(&["I", "[I]", "DT", "ST", "K", "F", "B"]), behind: "", says: "a reserved operand name, which can't be used here" },
    Row { after: After::AnyWord, shape: Shape::Between("V1", Class::Decimal, ""), behind: "", says: "a register is one hexadecimal digit, V0 to VF" },
    Row { after: After::AnyWord, shape: Shape::Between("R", Class::HexDigit, ""), behind: "", says: "registers are V0 to VF" },
    Row { after: After::AnyWord, shape: Shape::Between("HIGH(", Class::Any, ")"), behind: "", says: "write the high byte as >@" },
    Row { after: After::AnyWord, shape: Shape::Between("LOW(", Class::Any, ")"), behind: "", says: "write the low byte as <@" },
    Row { after: After::AnyWord, shape: Shape::Holds(" "), behind: "", says: "an expression can't contain blanks, and commas separate operands" },
    Row { after: After::AnyWord, shape: Shape::Between("", Class::Name, ""), behind: "", says: "use a register, or a name that an earlier line gives a register" },
];

/// Of the values of CHIP-8 that are out of range.
#[rattlefmt::skip]
static GAME_RANGES: [Row; 7] = [
    Row { after: After::These(&["LD"]), shape: Shape::Between("", Class::Any, ""), behind: "I", says: "an address is 0 to 4095" },
    Row { after: After::These(&["LD"]), shape: Shape::Between("", Class::Name, ""), behind: "", says: "a byte is 0 to 255: load an address into I, LD I, @" },
    Row { after: After::GameBytes, shape: Shape::Between("", Class::Number, ""), behind: "", says: "a byte is 0 to 255" },
    Row { after: After::GameBytes, shape: Shape::Between("", Class::Any, ""), behind: "", says: "a byte is 0 to 255: <@ is the low byte" },
    Row { after: After::These(&["DRW"]), shape: Shape::Between("", Class::Any, ""), behind: "", says: "a sprite has 0 to 15 rows" },
    Row { after: After::These(&["ORG"]), shape: Shape::Between("", Class::Any, ""), behind: "", says: "a game is at 0x200 to 0xFFF" },
    Row { after: After::These(&["JP", "CALL", "SYS"]), shape: Shape::Between("", Class::Any, ""), behind: "", says: "an address is 0 to 4095" },
];

/// Of the names without a value of CHIP-8.
#[rattlefmt::skip]
static GAME_UNDEFINED: [Row; 3] = [
    Row { after: After::AnyWord, shape: Shape::Between("", Class::Hexadecimal, "H"), behind: "", says: "write hexadecimal as 0x@" },
    Row { after: After::AnyWord, shape: Shape::Between("R", Class::HexDigit, ""), behind: "", says: "registers are V0 to VF" },
    Row { after: After::AnyWord, shape: Shape::Between("", Class::Hexadecimal, ""), behind: "", says: "write hexadecimal as 0x@, unless it is a name" },
];

/// The words of a line in which a habit is sought; none for any.
pub(crate) fn words_of(after: After) -> &'static [&'static str]
    ensures { map (λ word. word.now) result.now ≡ words_of after }
{
    match after {
        After::AnyWord => &[],
        After::Bare => BARE,
        After::Registers => REGISTERS,
        After::Ports => PORTS,
        After::Bytes => BYTES,
        After::Single => SINGLE,
        After::GameBytes => GAME_BYTES,
        After::These(words) => words,
    }
}

#[tactic(auto, unfolding(crate::specs::Habits::words))]
fn words() -> &'static [Row]
    ensures { map row_of result.now ≡ words }
{
    &WORDS
}

#[tactic(auto, unfolding(crate::specs::Habits::operands))]
fn operands() -> &'static [Row]
    ensures { map row_of result.now ≡ operands }
{
    &OPERANDS
}

#[tactic(auto, unfolding(crate::specs::Habits::labels))]
fn labels() -> &'static [Row]
    ensures { map row_of result.now ≡ labels }
{
    &LABELS
}

#[tactic(auto, unfolding(crate::specs::Habits::ranges))]
fn ranges() -> &'static [Row]
    ensures { map row_of result.now ≡ ranges }
{
    &RANGES
}

#[tactic(auto, unfolding(crate::specs::Habits::undefined))]
fn undefined() -> &'static [Row]
    ensures { map row_of result.now ≡ undefined }
{
    &UNDEFINED
}

#[tactic(auto, unfolding(crate::specs::Habits::targets))]
fn targets() -> &'static [Row]
    ensures { map row_of result.now ≡ targets }
{
    &TARGETS
}

#[tactic(auto, unfolding(crate::specs::Habits::octo_words))]
fn octo_words() -> &'static [Row]
    ensures { map row_of result.now ≡ octo_words }
{
    &OCTO_WORDS
}

#[tactic(auto, unfolding(crate::specs::Habits::game_words))]
fn game_words() -> &'static [Row]
    ensures { map row_of result.now ≡ game_words }
{
    &GAME_WORDS
}

#[tactic(auto, unfolding(crate::specs::Habits::octo_labels))]
fn octo_labels() -> &'static [Row]
    ensures { map row_of result.now ≡ octo_labels }
{
    &OCTO_LABELS
}

#[tactic(auto, unfolding(crate::specs::Habits::game_labels))]
fn game_labels() -> &'static [Row]
    ensures { map row_of result.now ≡ game_labels }
{
    &GAME_LABELS
}

#[tactic(auto, unfolding(crate::specs::Habits::game_operands))]
fn game_operands() -> &'static [Row]
    ensures { map row_of result.now ≡ game_operands }
{
    &GAME_OPERANDS
}

#[tactic(auto, unfolding(crate::specs::Habits::game_ranges))]
fn game_ranges() -> &'static [Row]
    ensures { map row_of result.now ≡ game_ranges }
{
    &GAME_RANGES
}

#[tactic(auto, unfolding(crate::specs::Habits::game_undefined))]
fn game_undefined() -> &'static [Row]
    ensures { map row_of result.now ≡ game_undefined }
{
    &GAME_UNDEFINED
}

// Those of a cause that are statements of Octo.
fn octo_statements(cause: AsmCause) -> &'static [Row]
    ensures { map row_of result.now ≡ octo_statements cause }
{
    match cause {
        AsmCause::BadText => octo_labels(),
        AsmCause::UnknownMnemonic => octo_words(),
        _ => &[],
    }
}

// Those of a cause in a source of the CDP1802.
fn processor_rows(cause: AsmCause) -> &'static [Row]
    ensures { map row_of result.now ≡ processor_rows cause }
{
    match cause {
        AsmCause::BadText => labels(),
        AsmCause::UnknownMnemonic => words(),
        AsmCause::BadOperand => operands(),
        AsmCause::Range => ranges(),
        AsmCause::Undefined => undefined(),
        AsmCause::OffPage => targets(),
        _ => &[],
    }
}

// Those of a cause in a source of CHIP-8.
fn game_rows(cause: AsmCause) -> &'static [Row]
    ensures { map row_of result.now ≡ game_rows cause }
{
    match cause {
        AsmCause::BadText => game_labels(),
        AsmCause::UnknownMnemonic => game_words(),
        AsmCause::BadOperand => game_operands(),
        AsmCause::Range => game_ranges(),
        AsmCause::Undefined => game_undefined(),
        _ => &[],
    }
}

/// The habits that are sought where a source of an instruction set has a fault of this cause.
#[tactic(auto, unfolding(crate::specs::Habits::rows))]
pub(crate) fn rows(isa: Isa, cause: AsmCause) -> &'static [Row]
    ensures { map row_of result.now ≡ rows isa cause }
{
    match isa {
        Isa::Cdp1802 => processor_rows(cause),
        Isa::Chip8 => game_rows(cause),
    }
}

/// The statements of Octo among them, which are sought first.
#[tactic(auto, unfolding(crate::specs::Habits::octo_rows))]
pub(crate) fn octo_rows(isa: Isa, cause: AsmCause) -> &'static [Row]
    ensures { map row_of result.now ≡ octo_rows isa cause }
{
    match isa {
        Isa::Cdp1802 => &[],
        Isa::Chip8 => octo_statements(cause),
    }
}
