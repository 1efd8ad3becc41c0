//! The keypad: EX9E, EXA1 and FX0A.

ghost use Rattle.chip8_image.specs.declared.parts.Part.TheVariants.{Keys};
ghost use Rattle.rom_rows.specs.Addresses.{AllInBlocks};
ghost use Rattle.rom_parts.specs.keys.Code.{keys_code};
ghost use Rattle.rom_parts.specs.Parts.{PartLaws, rom_of};
ghost use Rattle.rom_parts.specs.keys.Laws.{CountsOn};

/// The laws of its blocks and places, where the latched key is tested; and what FX0A finds: in the rows where it waits for a key to go down, no key
/// is down in all of any 400 successive sets of keys; where it waits for that key to go up, the key is down in the last set; and in the rows behind
/// its last test its key is down in a set and up in a later one: down in one of the last five, and up in one of the last four.
pub fn part()
    ensures laws { PartLaws Keys (rom_of keys_code) }
    ensures covers { AllInBlocks Keys }
{}

/// In the record of what came since a dispatch point there are two main cycles for each set of keys, whatever comes.
pub fn counts()
    ensures { CountsOn }
{}
