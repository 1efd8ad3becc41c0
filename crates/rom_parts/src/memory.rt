//! I and game memory: AMMM, FX1E, FX29, FX33, FX55, FX65, and the range check that FX33, FX55, FX65 and DXYN call.

ghost use Rattle.chip8_image.specs.declared.parts.Part.TheVariants.{Memory};
ghost use Rattle.rom_rows.specs.Addresses.{AllInBlocks};
ghost use Rattle.rom_parts.specs.memory.Code.{memory_code};
ghost use Rattle.rom_parts.specs.Parts.{PartLaws, rom_of};

/// The laws of its blocks.
pub fn part()
    ensures laws { PartLaws Memory (rom_of memory_code) }
    ensures covers { AllInBlocks Memory }
{}
