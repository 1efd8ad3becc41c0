//! Worked examples of the definitions, each proved by computing: what a definition says of one case that a data sheet, a manual or plain
//! arithmetic decides.

ghost use Rattle.std.specs.Prelude.{◌≡◌, ◌∷◌, [], Some, true, false};
ghost use Rattle.machine.specs.Keys.{held_at};
ghost use Rattle.machine.specs.Memory.{read, written};
ghost use Rattle.machine.specs.Pictures.{windows_ended, filled};
ghost use Rattle.machine.specs.Samples.{after_byte, after_branch, after_mark, key_script};
ghost use Rattle.machine.specs.Signals.{int_at, dma_at, efx_at};

/// Instructions of the CDP1802.
pub fn instructions()
    ensures add_with_carry { after_byte 0x74 0x00 1 0xff ≡ (0x00, 1) }
    ensures subtract_memory_with_borrow { after_byte 0x77 0x05 0 0x05 ≡ (0xff, 0) }
    ensures shift_right_with_carry { after_byte 0x76 0x01 1 0x00 ≡ (0x80, 1) }
    ensures branch_over_a_page { after_branch ≡ 0x0112 }
    ensures mark { after_mark ≡ (0x34, (0x4, (0x00ff, Some (0x0100, 0x34)))) }
{}

/// The signals of the CDP1861 at the edges of their lines, and the window's end.
#[tactic(auto, unfolding(crate::specs::Pictures::windows_ended))]
pub fn signals()
    ensures before_int { int_at 1091 true ≡ false }
    ensures int { int_at 1092 true ≡ true }
    ensures efx { efx_at 1091 true ≡ true }
    ensures after_int { int_at 1120 true ≡ false }
    ensures int_of_the_next_frame { int_at 4760 true ≡ true }
    ensures before_efx { efx_at 1063 true ≡ false }
    ensures first_efx { efx_at 1064 true ≡ true }
    ensures after_efx { efx_at 1120 true ≡ false }
    ensures second_efx { efx_at 2856 true ≡ true }
    ensures last_efx { efx_at 2911 true ≡ true }
    ensures no_efx { efx_at 2912 true ≡ false }
    ensures before_dma { dma_at 1121 true ≡ false }
    ensures dma { dma_at 1122 true ≡ true }
    ensures last_dma { dma_at 1129 true ≡ true }
    ensures after_dma { dma_at 1130 true ≡ false }
    ensures while_off { dma_at 1122 false ≡ false }
    ensures window_open { windows_ended 2911 ≡ 0 }
    ensures window_ended { windows_ended 2912 ≡ 1 }
    ensures short_line { filled (0xff ∷ 0x7f ∷ 0x3f ∷ 0x1f ∷ 0x0f ∷ 0x07 ∷ 0x03 ∷ []) ≡ 0xff ∷ 0x7f ∷ 0x3f ∷ 0x1f ∷ 0x0f ∷ 0x07 ∷ 0x03 ∷ 0x00 ∷ [] }
{}

/// The address map with a ROM whose first byte is 69, before and after the boot latch is cleared.
#[tactic(auto, unfolding(crate::specs::Memory::read, crate::specs::Memory::written))]
pub fn memory()
    ensures latched { read (0x69 ∷ []) true (0x00 ∷ []) 0x0000 ≡ 0x69 }
    ensures ram { read (0x69 ∷ []) false (0x00 ∷ []) 0x0000 ≡ 0x00 }
    ensures behind_ram { read (0x69 ∷ []) false (0x00 ∷ []) 0x1000 ≡ 0xff }
    ensures before_rom { read (0x69 ∷ []) false (0x00 ∷ []) 0x7fff ≡ 0xff }
    ensures rom { read (0x69 ∷ []) false (0x00 ∷ []) 0x8000 ≡ 0x69 }
    ensures behind_rom { read (0x69 ∷ []) false (0x00 ∷ []) 0x8800 ≡ 0xff }
    ensures write { written false (0x00 ∷ []) 0x0000 0x05 ≡ 0x05 ∷ [] }
    ensures write_while_latched { written true (0x00 ∷ []) 0x0000 0x05 ≡ 0x00 ∷ [] }
    ensures write_behind_ram { written false (0x00 ∷ []) 0x1000 0x05 ≡ 0x00 ∷ [] }
    ensures write_to_rom { written false (0x00 ∷ []) 0x8000 0x05 ≡ 0x00 ∷ [] }
{}

/// The keys of a script: 5 goes down at cycle 10 and up at cycle 20, and down and up again at cycle 30.
pub fn keys()
    ensures before { held_at key_script 9 5 ≡ false }
    ensures down { held_at key_script 10 5 ≡ true }
    ensures other { held_at key_script 10 6 ≡ false }
    ensures up { held_at key_script 20 5 ≡ false }
    ensures later_event_counts { held_at key_script 30 5 ≡ false }
{}
