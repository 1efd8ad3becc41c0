//! What is proved of the comparison, each law the contract of a function without parameters.

ghost use Rattle.chip8_source.specs.Compared.{OneAnswer, SourceGivesRom};

/// A source and an image have one answer, but for want of memory. So each answer comes exactly where it is said to: where a source has a
/// fault, where it assembles and a byte differs, and where it assembles and none does. A call does nothing: the law is its contract.
pub fn one_answer()
    ensures { OneAnswer }
{}

/// The text of each edition assembles, and to exactly the bytes of its ROM. So `check_image` and `check_tall` answer that all is fine, or that no memory
/// was found. It is proved by computing both assemblies. A call does nothing: the law is its contract.
pub fn source_gives_rom()
    ensures { SourceGivesRom }
{}
