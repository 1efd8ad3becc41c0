//! The screen: 00E0 and DXYN.

ghost use Rattle.chip8_image.specs.declared.parts.Part.TheVariants.{Sprite};
ghost use Rattle.rom_rows.specs.Addresses.{AllInBlocks};
ghost use Rattle.rom_parts.specs.sprite.Code.{sprite_code};
ghost use Rattle.rom_parts.specs.Parts.{PartLaws, rom_of};

/// The laws of its blocks and places. The places are their waits: a main move from one comes to a row where main code runs, and a tick there also
/// where main code waits.
pub fn part()
    ensures laws { PartLaws Sprite (rom_of sprite_code) }
    ensures covers { AllInBlocks Sprite }
{}
