//! The interrupt routine, CXKK, FX07, FX15 and FX18.

pub(crate) const TEXT: &str = "
; ======================================================================================================================
; TIMER: the interrupt routine, CXKK, FX07, FX15, FX18
; ======================================================================================================================

; The interrupt routine
; P = 1, X = R2, IE = 0. The interrupt is taken at cycle 1092 of a frame, and each row says the exact cycle of the frame
; at its label. The window begins at cycle 1120 = 14 * 80. In each of its 128 lines one instruction comes before the
; eight DMA cycles and two come after them. The DMA cycles take R0 eight bytes on; DEC R0 and PLO R0 take it back. With
; a for R2 at the interrupt: in all rows from scan on R2 = a - 2, M(a - 1) holds X and P, M(a - 2) holds D, and n has
; grown by 1. DF is as it was. show l is the address of the row that line l of the window shows: SCREEN + 8 (l / 4), and
; in the tall edition SCREEN + 8 (l / 2).
;   entry           1093       the interrupt was taken; T holds X and P
;   scan            1120 + 56g for some g from 0 to 31, with l = 4g: line l is next; R0 = show l
;   scan1           1134 + 56g with l = 4g + 1: line l is next; R0 = show l; D is the low byte of R0
;   scan2           1148 + 56g with l = 4g + 2: line l is next; R0 = show l; D is the low byte of R0
;   scan3           1162 + 56g with l = 4g + 3: line l is next; R0 = show l
;   delay           2912       the window is shown
;   delay_down      2916       D = DT, which is not 0
;   delay_none      2916       DT is 0
;   sound           2924       DT is as after the tick
;   sound_down      2928       DT is as after the tick; ST is not 0
;   sound_none      2928       DT is as after the tick; ST is 0
;   resume          2934       DT, ST, n and the tone are as after the tick
                ORG     0x8600
resume:         LDXA                    ; D
                RET                     ; X, P and IE; main code goes on at cycle 2938. R1 is at `entry` again
entry:          DEC     R2
                SAV                     ; X and P
                DEC     R2
                STR     R2              ; D
                NOP                     ; three cycles: from here on instructions start at even cycles
                LDI     >SCREEN
                PHI     R0
                LDI     <SCREEN
                PLO     R0
                INC     R9
                SEX     R2              ; three to fill the time
                SEX     R2
                SEX     R2
scan:           GLO     R0              ; line 4g
                DEC     R0
                PLO     R0
scan1:          ORI     NEXT_ROW        ; line 4g + 1
                DEC     R0
                PLO     R0
scan2:          SEX     R2              ; line 4g + 2
                DEC     R0
                PLO     R0
scan3:          SEX     R2              ; line 4g + 3
                SEX     R2
                BN1     scan            ; EFX is active in the last four lines
delay:          GHI     R8
                BZ      delay_none
delay_down:     PLO     RF              ; DF must stay as it is
                DEC     RF
                GLO     RF
                PHI     R8
sound:          GLO     R8
                BZ      sound_none
sound_down:     DEC     R8
                SEQ
                BR      resume
sound_none:     SEX     R2              ; as long as sound_down
                REQ
                BR      resume
delay_none:     SEX     R2              ; as long as delay_down
                SEX     R2
                SEX     R2
                BR      sound

; CXKK: b = 5b + n mod 256 + 113 modulo 256, and VX = b and KK
;   random          @80        entered, CXKK
;   random_count    @90        entered, CXKK; RD = RANDOM, X = RD
;   random_mix      @92        entered, CXKK; RD = RANDOM, X = RD; D = n mod 256, and the ticks from here on come after
;                              the step
                ORG     0x825D
random:         LDI     >RANDOM
                PHI     RD
                LDI     <RANDOM
                PLO     RD              ; RD at b
                SEX     RD
random_count:   GLO     R9
random_mix:     ADD
                ADD
                ADD
                ADD
                ADD                     ; D = n + 5b
                ADI     113
                STR     RD
                GLO     RC
                AND
                STR     R6
                SEP     R4

; FX07: VX = DT
;   get_delay       @86        entered, FX07
;   get_delay_put   @88        entered, FX07; D = DT, and the ticks from here on come after the step
                ORG     0x8331
get_delay:      GHI     R8
get_delay_put:  STR     R6
                SEP     R4

; FX15: DT = VX
;   set_delay       @98        entered, FX15
;   set_delay_put   @100       entered, FX15; D = VX
;   set_delay_end   @102       done, FX15; the ticks from here on come after the step
set_delay:      LDN     R6
set_delay_put:  PHI     R8
set_delay_end:  SEP     R4

; FX18: ST = VX
;   set_sound       @104       entered, FX18
;   set_sound_put   @106       entered, FX18; D = VX
;   set_sound_end   @108       done, FX18; the ticks from here on come after the step
set_sound:      LDN     R6
set_sound_put:  PLO     R8
set_sound_end:  SEP     R4
";
