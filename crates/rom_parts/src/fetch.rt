//! Boot, the fetch and the dispatch, with the stops and the tests which of FXKK an opcode is.

ghost use Rattle.chip8_image.specs.declared.parts.Part.TheVariants.{Fetch};
ghost use Rattle.rom_rows.specs.Addresses.{AllInBlocks};
ghost use Rattle.rom_parts.specs.fetch.Code.{fetch_code};
ghost use Rattle.rom_parts.specs.Parts.{PartLaws, rom_of};

/// The laws of its blocks; and besides: a main move that takes P from 4 to 3 for an opcode in game memory ends DISPATCH main cycles after the
/// dispatch point, whatever the opcode, and however many interrupts come between; and from reset, for every game that fits into game memory and
/// whatever keys are down, the first dispatch point comes at cycle 56, with the game's first state. Only boot and the loop at `halt` are in no block.
pub fn part()
    ensures laws { PartLaws Fetch (rom_of fetch_code) }
    ensures covers { AllInBlocks Fetch }
{}
