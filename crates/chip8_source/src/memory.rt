//! AMMM, FX1E, FX29, FX33, FX55 and FX65, and the range check.

pub(crate) const TEXT: &str = "
; ======================================================================================================================
; MEMORY: AMMM, FX1E, FX29, FX33, FX55, FX65, the range check
; ======================================================================================================================

; AMMM: I = MMM
;   index           @80        entered, AMMM
                ORG     0x8354
index:          GHI     RC
                ANI     0x0F
                PHI     RA
                GLO     RC
                PLO     RA
                SEP     R4

; FX1E: I = I + VX
;   add_index       @110       entered, FX1E
add_index:      SEX     R6
                GLO     RA
                ADD
                PLO     RA
                GHI     RA
                ADCI    0
                PHI     RA
                SEP     R4

; FX29: I is the font's address of the digit VX mod 16, five bytes each
;   digit           @116       entered, FX29
digit:          LDI     >WORK
                PHI     RD
                LDI     <WORK
                PLO     RD              ; RD at a byte for the sum
                SEX     RD
                LDN     R6
                ANI     0x0F
                STR     RD
                SHL
                SHL
                ADD
                PLO     RA              ; the font begins a page
                LDI     >font
                PHI     RA
                SEP     R4

; FX33: M(I), M(I+1), M(I+2) = hundreds, tens and ones of VX
;   decimal         @122       entered, FX33
;   decimal_found   @186       checked for 3 bytes, FX33
;   decimal_start   @188       entered but for RC, FX33; the three bytes lie in game memory
;   hundreds        @216       entered but for RC, FX33; the three bytes lie in game memory; RC = I; RE.0 = 0; for some
;                              k: RD.0 = k and D = VX - 100k
;   hundreds_end    @222       the same, but RD.0 = VX / 100 + 1 and D = VX mod 100 + 156
;   tens            @280       entered but for RC, FX33; the three bytes lie in game memory; RC = I; RD.0 = VX / 100;
;                              for some k: RE.0 = k and D = VX mod 100 - 10k
;   tens_end        @286       the same, but RE.0 = VX mod 100 / 10 + 1 and D = VX mod 10 + 246
decimal:        LDI     3
                PLO     RE
                LDI     >check
                PHI     RD
                LDI     <check
                PLO     RD
                SEP     RD
decimal_found:  BNZ     write_outside
decimal_start:  GHI     RA
                PHI     RC
                GLO     RA
                PLO     RC              ; RC at the first of the three bytes
                LDI     0
                PLO     RD
                PLO     RE
                LDN     R6
hundreds:       INC     RD
                SMI     100
                BDF     hundreds
hundreds_end:   DEC     RD
                ADI     100
tens:           INC     RE
                SMI     10
                BDF     tens
tens_end:       DEC     RE
                ADI     10
                PHI     RE
                GLO     RD
                STR     RC
                INC     RC
                GLO     RE
                STR     RC
                INC     RC
                GHI     RE
                STR     RC
                SEP     R4

; FX55: M(I) to M(I+X) = V0 to VX; I = I + X + 1
;   store           @128       entered, FX55
;   store_found     @196       checked for X + 1 bytes, FX55
;   store_start     @198       checked for X + 1 bytes, FX55; they lie in game memory
;   store_byte      @386       entered but for RC, FX55; the X + 1 bytes lie in game memory; for some k from 0 to X: V0
;                              to V(k-1) are stored, RD = VARS + k, RA = I + k, RE.0 = X + 1 - k
;   store_end       @398       done, FX55
store:          GHI     RC
                ANI     0x0F
                ADI     1
                PLO     RE
                LDI     >check
                PHI     RD
                LDI     <check
                PLO     RD
                SEP     RD
store_found:    BNZ     write_outside
store_start:    LDI     >VARS
                PHI     RD
                LDI     <VARS
                PLO     RD              ; RD at V0
store_byte:     LDA     RD
                STR     RA
                INC     RA
                DEC     RE
                GLO     RE
                BNZ     store_byte
store_end:      SEP     R4

; FX65: V0 to VX = M(I) to M(I+X); I = I + X + 1
;   restore         @134       entered, FX65
;   restore_found   @202       checked for X + 1 bytes, FX65
;   restore_start   @206       checked for X + 1 bytes, FX65; they lie in game memory or in the font
;   restore_byte    @394       entered but for RC, FX65; the X + 1 bytes lie in game memory or in the font; for some k
;                              from 0 to X: V0 to V(k-1) are fetched, RD = VARS + k, RA = I + k, RE.0 = X + 1 - k
;   restore_end     @406       done, FX65
restore:        GHI     RC
                ANI     0x0F
                ADI     1
                PLO     RE
                LDI     >check
                PHI     RD
                LDI     <check
                PLO     RD
                SEP     RD
restore_found:  XRI     NOWHERE
                BZ      read_outside
restore_start:  LDI     >VARS
                PHI     RD
                LDI     <VARS
                PLO     RD              ; RD at V0
restore_byte:   LDA     RA
                STR     RD
                INC     RD
                DEC     RE
                GLO     RE
                BNZ     restore_byte
restore_end:    SEP     R4

; FX33 and FX55 whose bytes don't lie in game memory; FX65 whose bytes lie neither in game memory nor in the font
;   write_outside   @198       entered but for RC; s stops with WRITE_OUTSIDE
;   read_outside    @206       entered but for RC; s stops with READ_OUTSIDE
write_outside:  LDI     WRITE_OUTSIDE
                BR      leave83
read_outside:   LDI     READ_OUTSIDE
                BR      leave83

; The range check
; Where the m bytes from I on lie, for m from 1 to 16. FX33, FX55, FX65 and DXYN call it by SEP RD, and it goes back to
; R3. I is compared with the end less m, so that no sum passes FFFF. In all rows as entered, but RD is the program
; counter, R3 is decimal_found, store_found, restore_found or draw_found, and RE.0 = m, which is 3, X + 1, X + 1 or N.
; From check_game on RC = WORK, X = RC, and WORK holds the low byte of I.
;   check           @152       RD = check; RC is the opcode
;   check_game      @172       I is at least FIRST
;   check_font      @184       I is at least FIRST; the bytes don't lie in game memory
;   check_low       @190       I is from 8700 to 87FF
;   in_font         @198       the bytes lie in the font
;   in_game         @184       the bytes lie in game memory
;   nowhere         @198       the bytes lie neither in game memory nor in the font
                ORG     0x8500
check:          LDI     >WORK
                PHI     RC
                LDI     <WORK
                PLO     RC              ; RC at a byte for the difference
                SEX     RC
                GLO     RA
                STR     RC
                GHI     RA
                SMI     >FIRST
                BNF     nowhere         ; I is below FIRST
check_game:     GLO     RE
                SDI     <END
                SM
                GHI     RA
                SDBI    >END
                BDF     in_game         ; I is at most END - m
check_font:     GHI     RA
                XRI     >font
                BNZ     nowhere
check_low:      GLO     RE
                SDI     <FONT_END
                SM
                BNF     nowhere         ; I is above FONT_END - m
in_font:        LDI     IN_FONT
                SEP     R3
in_game:        LDI     IN_GAME
                SEP     R3
nowhere:        LDI     NOWHERE
                SEP     R3
";
