//! 0MMM, jumps and calls, loads, skips and 8XYN.

ghost use Rattle.chip8_image.specs.declared.parts.Part.TheVariants.{Arith};
ghost use Rattle.rom_rows.specs.Addresses.{AllInBlocks};
ghost use Rattle.rom_parts.specs.arith.Code.{arith_code};
ghost use Rattle.rom_parts.specs.Parts.{PartLaws, rom_of};

/// The laws of its blocks. The stops are those of 0MMM, of 00EE with no address on the stack, of 2MMM with twelve, and of 5XYN, 8XYN and 9XYN
/// with an N that is no instruction's.
pub fn part()
    ensures laws { PartLaws Arith (rom_of arith_code) }
    ensures covers { AllInBlocks Arith }
{}
