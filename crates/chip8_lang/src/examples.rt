//! Worked examples of the definitions, each proved by computing: what a definition says of one case that the manual or plain arithmetic
//! decides.

ghost use Rattle.std.specs.Prelude.{◌≡◌, ◌∷◌, [], Some, None, true, slice_index};
ghost use Rattle.chip8_lang.specs.Between.{ticks_between};
ghost use Rattle.chip8_lang.specs.Decode.{instr_of};
ghost use Rattle.chip8_lang.specs.Samples.{cycle_behind, next_cycle, press, shown_in_short, state_behind, state_with, stepped_once, take, ticked_twice, wait};
ghost use Rattle.chip8_lang.specs.State.{first};
ghost use Rattle.chip8_lang.specs.Step.{stop_of};
ghost use Rattle.chip8_lang.specs.Timed.{ended, interrupts, later, woken};
ghost use Rattle.chip8_lang.specs.declared.instr.Instr.TheVariants.{Clear, Machine, Sum, Draw, SkipSame, Unknown};
ghost use Rattle.chip8_lang.specs.declared.view.Edition.TheVariants.{Usual, Tall};
ghost use Rattle.chip8_lang.specs.declared.view.Stop.TheVariants.{MachineCall};

/// Opcodes of the language.
pub fn opcodes()
    ensures clear { instr_of 0x00e0 ≡ Clear }
    ensures machine { instr_of 0x00e1 ≡ Machine 0x0e1 }
    ensures sum { instr_of 0x8ab4 ≡ Sum 0xa 0xb }
    ensures same { instr_of 0x5120 ≡ SkipSame 1 2 }
    ensures unknown { instr_of 0x5121 ≡ Unknown 0x5121 }
    ensures draw { instr_of 0xd125 ≡ Draw 1 2 5 }
{}

/// Steps, stops and ticks of the language.
#[tactic(auto, unfolding(crate::specs::Between::ticks_between))]
pub fn steps()
    ensures flag_wins { stepped_once (0x8f ∷ 0xe4 ∷ []) 15 ≡ (0x01, 0x0202) }
    ensures add_without_flag { stepped_once (0x7e ∷ 0xff ∷ []) 14 ≡ (0x00, 0x0202) }
    ensures empty_game { stop_of Usual (first Usual []) ≡ Some MachineCall }
    ensures jump_to_the_end { stop_of Tall (first Tall (0x1d ∷ 0x9f ∷ [])) ≡ None }
    ensures ticks { ticked_twice ≡ (0x00, (0x01, true)) }
    ensures no_tick { ticks_between 1092 1092 ≡ 0 }
    ensures one_tick { ticks_between 1091 1093 ≡ 1 }
{}

/// Cycles: main code goes on behind an interrupt that comes right when its main cycles are over, and a tick right there comes behind a CXKK that has
/// read the count.
pub fn cycles()
    ensures calm { later 56 86 ≡ 142 }
    ensures interrupted { later 1000 92 ≡ 2938 }
    ensures over { ended 1000 92 ≡ 1092 }
    ensures at_the_interrupt { woken 1092 ≡ 2938 }
    ensures behind_the_interrupt { woken 1094 ≡ 6606 }
    ensures from_the_window { later 2912 26 ≡ 2938 }
    ensures tick_behind { interrupts 1000 91 ≡ 0 }
    ensures tick_before { interrupts 1002 91 ≡ 1 }
{}

/// The next point: of 6005, of 00E0 and D000, which wait for the interrupt in cycle 1092, and of D001, which stops as I is 0.
pub fn points()
    ensures load { next_cycle 56 (0x60 ∷ 0x05 ∷ []) ≡ (142, 0) }
    ensures clear { next_cycle 56 (0x00 ∷ 0xe0 ∷ []) ≡ (3708, 1) }
    ensures no_rows { next_cycle 56 (0xd0 ∷ 0x00 ∷ []) ≡ (2962, 1) }
    ensures stop { next_cycle 1000 (0xd0 ∷ 0x01 ∷ []) ≡ (2998, 1) }
{}

/// How many main cycles each instruction takes, and each stop, as docs/TIMING.md has them.
pub fn times()
    ensures plain { take 0x300 ((0x6005, 86) ∷ (0x7005, 90) ∷ (0x1200, 92) ∷ (0xa123, 92) ∷ (0xf007, 92) ∷ (0x8010, 100) ∷ (0xf015, 104) ∷ (0xb200, 106) ∷ (0x2200, 108) ∷ (0xf018, 110) ∷ (0xc000, 114) ∷ []) ≡ true }
    ensures arithmetic { take 0x300 ((0x8011, 120) ∷ (0x8012, 120) ∷ (0x8013, 120) ∷ (0x8014, 118) ∷ (0x8015, 118) ∷ (0x8016, 118) ∷ (0x8017, 118) ∷ (0x801e, 118) ∷ (0x00ee, 126) ∷ (0xf01e, 126) ∷ (0xf029, 146) ∷ []) ≡ true }
    ensures skips { take 0x300 ((0x3001, 90) ∷ (0x3000, 94) ∷ (0x4000, 90) ∷ (0x4001, 94) ∷ (0x50e0, 96) ∷ (0x5010, 100) ∷ (0x9010, 96) ∷ (0x90e0, 100) ∷ (0xe09e, 94) ∷ (0xe0a1, 104) ∷ []) ≡ true }
    ensures memory { take 0x300 ((0xf033, 230) ∷ (0xfc33, 242) ∷ (0xff33, 272) ∷ (0xf055, 206) ∷ (0xf355, 242) ∷ (0xf065, 214) ∷ (0xf365, 250) ∷ []) ≡ true }
    ensures end_of_memory { take 0xe9f ((0xf065, 214) ∷ []) ≡ true }
    ensures font { take 0x8700 ((0xf065, 228) ∷ (0xf365, 264) ∷ []) ≡ true }
    ensures stops { take 0 ((0x0000, 122) ∷ (0x0100, 110) ∷ (0x5001, 112) ∷ (0x9001, 112) ∷ (0x8008, 120) ∷ (0xe000, 120) ∷ (0xf000, 160) ∷ (0xd001, 152) ∷ (0xf065, 206) ∷ (0xf033, 188) ∷ (0xf055, 198) ∷ []) ≡ true }
    ensures behind_memory { take 0xf00 ((0xd001, 170) ∷ (0xf065, 224) ∷ (0xf033, 206) ∷ (0xf055, 216) ∷ []) ≡ true }
    ensures behind_font { take 0x8760 ((0xd001, 178) ∷ (0xf065, 232) ∷ (0xf033, 214) ∷ (0xf055, 224) ∷ []) ≡ true }
    ensures below { cycle_behind 56 [] (record (state_with 0 0x6005) { pc = 0x100 }) ≡ 88 }
    ensures above { cycle_behind 56 [] (record (state_with 0 0x6005) { pc = 0xea0 }) ≡ 98 }
    ensures empty { cycle_behind 56 [] (record (state_with 0 0x00ee) { stack = [] }) ≡ 184 }
    ensures full { cycle_behind 56 [] (record (state_with 0 0x2200) { stack = 1 ∷ 2 ∷ 3 ∷ 4 ∷ 5 ∷ 6 ∷ 7 ∷ 8 ∷ 9 ∷ 10 ∷ 11 ∷ 12 ∷ [] }) ≡ 168 }
{}

/// The display wait: 00E0; sprites of no row, of one row at column 0, 1, 56 and 63, at the bottom edge and of two rows in its last one; and of a byte of the font.
pub fn waits()
    ensures rows { wait 0x300 ((0x00e0, 102, 770) ∷ (0xd000, 222, 24) ∷ (0xd001, 312, 82) ∷ (0xde01, 324, 82) ∷ (0xdd01, 310, 82) ∷ (0xdf01, 394, 82) ∷ (0xd0f1, 320, 82) ∷ (0xd0f2, 320, 82) ∷ (0xd002, 352, 140) ∷ []) ≡ true }
    ensures font { wait 0x8700 ((0xd001, 326, 82) ∷ []) ≡ true }
{}

/// FX0A: from cycle 56 on it looks at key 0 in cycle 171, at key 1 in cycle 185 and so on; and at the one that was down 2, 4, 6 cycles later and so on. EX9E and
/// EXA1 look in cycles 147 and 153.
#[tactic(auto, unfolding(crate::specs::Timed::first_from))]
pub fn looks()
    ensures at_once { cycle_behind 56 (press 0 171 172) (state_with 0 0xf00a) ≡ 182 }
    ensures up_at_once { cycle_behind 56 (press 0 171 173) (state_with 0 0xf00a) ≡ 182 }
    ensures held { cycle_behind 56 (press 0 171 174) (state_with 0 0xf00a) ≡ 184 }
    ensures held_on { cycle_behind 56 (press 0 171 176) (state_with 0 0xf00a) ≡ 186 }
    ensures second { cycle_behind 56 (press 1 185 186) (state_with 0 0xf00a) ≡ 196 }
    ensures second_held { cycle_behind 56 (press 1 185 188) (state_with 0 0xf00a) ≡ 198 }
    ensures key_0_again { cycle_behind 56 (press 0 395 398) (state_with 0 0xf00a) ≡ 408 }
    ensures key_0 { slice_index (state_behind 56 (press 0 395 398) 0xff0a).v 15 ≡ 0 }
    ensures down { cycle_behind 56 (press 0 147 148) (state_with 0 0xe09e) ≡ 154 }
    ensures key_f_down { cycle_behind 56 (press 15 147 148) (state_with 0 0xef9e) ≡ 154 }
    ensures not_down { cycle_behind 56 (press 0 153 154) (state_with 0 0xe0a1) ≡ 156 }
    ensures key_f_not_down { cycle_behind 56 (press 15 153 154) (state_with 0 0xefa1) ≡ 156 }
{}

/// Which ticks come before a step: one in a cycle of the interrupt comes before CXKK, FX07, FX15 and FX18 where main code has made 91, 87, 101 and 107 main cycles
/// by then, and else behind them. Before 00E0 comes the one that it waits for, and one more where the 102 main cycles before its wait aren't over by the first.
pub fn ticks_before()
    ensures random { (state_behind 1001 [] 0xc0ff).b ≡ 114 }
    ensures random_behind { (state_behind 1000 [] 0xc0ff).b ≡ 113 }
    ensures delay { slice_index (state_behind 1005 [] 0xf007).v 0 ≡ 4 }
    ensures delay_behind { slice_index (state_behind 1004 [] 0xf007).v 0 ≡ 5 }
    ensures set_delay { (state_behind 991 [] 0xff15).dt ≡ 255 }
    ensures set_delay_behind { (state_behind 990 [] 0xff15).dt ≡ 254 }
    ensures set_sound { (state_behind 985 [] 0xff18).st ≡ 255 }
    ensures set_sound_behind { (state_behind 984 [] 0xff18).st ≡ 254 }
    ensures clear { (state_behind 990 [] 0x00e0).n ≡ 1 }
    ensures clear_behind { (state_behind 991 [] 0x00e0).n ≡ 2 }
{}

/// A run of 00E0, up to its second dispatch point: the first one in cycle 56, the picture of frame 0, and the second one.
#[tactic(auto, unfolding(crate::specs::Timed::shown_behind, machine::specs::Pictures::windows_ended))]
pub fn run()
    ensures clear { shown_in_short (0x00 ∷ 0xe0 ∷ []) 3708 ≡ 56 ∷ 0 ∷ 3708 ∷ [] }
{}
