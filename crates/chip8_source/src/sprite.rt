//! 00E0 and DXYN.

pub(crate) const TEXT: &str = "
; ======================================================================================================================
; SPRITE: 00E0, DXYN
; ======================================================================================================================

; 00E0: after the display wait the screen is empty. It is cleared from its last byte down, a row of eight bytes a turn.
; IDL leaves the processor idling at `wipe` until the next tick.
;   clear           @90        entered, 00E0
;   clear_wait      @100       entered, 00E0; RD = SCREEN_LAST, X = RD
;   wipe            @wait+1512 entered, 00E0; for some k from 1 to ROWS: the rows from k on are empty,
;                              RD = SCREEN + 8k - 1, X = RD
;   wipe3           @wait+1518 the same, but also the last two bytes of row k - 1 are 00, RD = SCREEN + 8k - 3; D = 0
;   wipe6           @wait+1524 the same, but also the last five bytes of row k - 1 are 00, RD = SCREEN + 8k - 6; D = 0
;   wiped           @wait+1530 entered, 00E0; for some k from 0 to ROWS - 1: the rows from k on are empty,
;                              RD = SCREEN + 8k - 1, X = RD
;   cleared         @wait+1536 done, 00E0
                ORG     0x8184
clear:          LDI     >SCREEN_LAST
                PHI     RD
                LDI     <SCREEN_LAST
                PLO     RD
                SEX     RD
clear_wait:     IDL
wipe:           LDI     0
                STXD
                STXD
wipe3:          STXD
                STXD
                STXD
wipe6:          STXD
                STXD
                STXD
wiped:          GHI     RD
                XRI     >SCREEN-1
                BNZ     wipe            ; RD is not below the screen
cleared:        SEP     R4

; DXYN. The sprite starts at column x = VX mod 64 of row y = VY mod ROWS. Of its N rows the first h = min(N, ROWS - y)
; lie above the bottom edge, and these are prepared and drawn. Row r is byte r, M(I + r), shifted right by x mod 8 over
; 16 bits: left r and right r, which belong to the screen's bytes x / 8 and x / 8 + 1 of row y + r. In the last column,
; x / 8 = 7, right r is 0, so that nothing passes the right edge.
;   draw            @80        entered, DXYN
;   draw_check      @88        entered, DXYN; RE.0 = N, which is not 0
;   draw_found      @148       checked for N bytes, DXYN
;   place           @152       entered but for RC, DXYN; RE.0 = N; if N is not 0, the N bytes lie in game memory or in
;                              the font
;   edge            @176       the same; N is at least ROWS - y; RD = WORK, X = RD
;   fits            @184       the same as at place, but RE.0 = h; RD = WORK, X = RD
;   angle           @224       the same; RE.1 = h; RC.1 and RB.0 are the high and the low byte of SCREEN + 8y + x / 8
;   begin           @242       entered but for RC, DXYN; the h bytes lie in game memory or in the font; RE.0 = RE.1 = h;
;                              RC.1 and RB.0 as at angle; RC.0 is the low byte of shift7 + 6 (7 - x mod 8)
                ORG     0x8400
draw:           GLO     RC
                ANI     0x0F
                PLO     RE
                BZ      place           ; DXY0 reads nothing
draw_check:     LDI     >check
                PHI     RD
                LDI     <check
                PLO     RD
                SEP     RD
draw_found:     XRI     NOWHERE
                BZ      draw_outside
place:          LDI     >WORK
                PHI     RD
                LDI     <WORK
                PLO     RD              ; RD at a byte for the sums
                SEX     RD
                LDN     R7
                ANI     ROWS-1
                SDI     ROWS
                STR     RD              ; ROWS - y
                GLO     RE
                SM
                BNF     fits            ; N is less
edge:           LDN     R7
                ANI     ROWS-1
                SDI     ROWS
                PLO     RE
fits:           GLO     RE
                PHI     RE
                LDN     R7
                ANI     ROWS-1
                SHL
                SHL
                SHL
                PLO     RB              ; DF and RB.0: 8y
                LDI     0
                ADCI    >SCREEN
                PHI     RC
                LDN     R6
                ANI     0x3F
                SHR
                SHR
                SHR
                STR     RD              ; x / 8
                GLO     RB
                ADD
                PLO     RB
angle:          LDN     R6
                ANI     7
                SDI     7               ; the shifts to be left out
                STR     RD
                SHL
                ADD
                SHL
                ADI     <shift7         ; six bytes each
                PLO     RC
begin:          GHI     RC
                PHI     R6
                GLO     RC
                PLO     R6
                LDI     >WORK
                PHI     R7
                LDI     <WORK
                PLO     R7
                GHI     RA
                PHI     RD
                GLO     RA
                PLO     RD

; The rows are prepared, one a turn: left r goes to WORK + 2r, and right r to WORK + 2r + 1. In all of these rows P = 3
; and R4 = fetch; s is in its places, but R5 = pc + 2, and it is at DXYN; the h bytes lie in game memory or in the font;
; RE.1 = h; R6.1 and RB.0 are the high and the low byte of SCREEN + 8y + x / 8; R6.0 is the low byte of shift7 + 6
; (7 - x mod 8).
;   row             @2126      for some r from 0 to h: the rows below r are prepared; R7 = WORK + 2r, RD = I + r,
;                              RE.0 = h - r
;   row_byte        @2006      the same; r is below h
;   shift7..shift1  @2092      the rows below r are prepared; R7 = WORK + 2r, RD = I + r + 1, RE.0 = h - r - 1; at shift
;                              j, which is at most x mod 8: RC is 256 times byte r, shifted right by x mod 8 - j
;   shifted         @2104      the same; RC.1 = left r, and RC.0 = right r unless x / 8 = 7
;   row_right       @2118      the same, but left r is in the work, R7 = WORK + 2r + 1; x / 8 is not 7
;   row_store       @2120      the rows below r are prepared, and left r is in the work; R7 = WORK + 2r + 1,
;                              RD = I + r + 1, RE.0 = h - r - 1; D = right r
row:            GLO     RE
                BZ      ready
row_byte:       DEC     RE
                LDA     RD
                PHI     RC
                LDI     0
                PLO     RC
                GLO     R6
                PLO     R3              ; on where x mod 8 shifts are left
shift7:         GHI     RC
                SHR
                PHI     RC
                GLO     RC
                SHRC
                PLO     RC
shift6:         GHI     RC
                SHR
                PHI     RC
                GLO     RC
                SHRC
                PLO     RC
shift5:         GHI     RC
                SHR
                PHI     RC
                GLO     RC
                SHRC
                PLO     RC
shift4:         GHI     RC
                SHR
                PHI     RC
                GLO     RC
                SHRC
                PLO     RC
shift3:         GHI     RC
                SHR
                PHI     RC
                GLO     RC
                SHRC
                PLO     RC
shift2:         GHI     RC
                SHR
                PHI     RC
                GLO     RC
                SHRC
                PLO     RC
shift1:         GHI     RC
                SHR
                PHI     RC
                GLO     RC
                SHRC
                PLO     RC
shifted:        GHI     RC
                STR     R7
                INC     R7
                GLO     RB
                ANI     7
                XRI     7
                BZ      row_store       ; the last column; D = 0
row_right:      GLO     RC
row_store:      STR     R7
                INC     R7
                BR      row

; The display wait, and the drawing, one row a turn. IDL leaves the processor idling at `line` until the next tick. In
; the last column right r is 0, and it changes nothing: neither the first byte of the row below nor, past the screen's
; last byte, what is no RAM. In all rows from `line` on P = 3, R4 = fetch, X = RD; s is in its places, but R5 = pc + 2
; and the screen has the dots of some rows drawn; it is at DXYN; all rows are prepared. RC.0 counts the bytes of the
; screen in which a dot was put out.
;   ready           @2130      the row of `row` with r = h
;   draw_wait       @2152      P = 3, R4 = fetch; s is in its places, but R5 = pc + 2, and it is at DXYN; all rows are
;                              prepared; R7 = WORK, RD = SCREEN + 8y + x / 8, RE.0 = h, RC.0 = 0, X = RD
;   line            @wait+870  for some r from 0 to h: the rows below r are drawn, and RC.0 counts theirs;
;                              R7 = WORK + 2r, RD = SCREEN + 8 (y + r) + x / 8, RE.0 = h - r
;   line_left       @wait+816  the same; r is below h
;   line_right      @wait+838  the rows below r and left r are drawn, and RC.0 counts theirs; R7 = WORK + 2r + 1,
;                              RD = SCREEN + 8 (y + r) + x / 8 + 1, RE.0 = h - r - 1
;   drawn           @wait+874  the row of `line` with r = h
ready:          GHI     RE
                PLO     RE
                GHI     R6
                PHI     RD
                GLO     RB
                PLO     RD
                LDI     <WORK
                PLO     R7
                LDI     0
                PLO     RC
                SEX     RD
draw_wait:      IDL
line:           GLO     RE
                BZ      drawn
line_left:      DEC     RE
                LDN     R7
                AND
                ADI     0xFF            ; DF = 1 where a dot is put out
                GLO     RC
                ADCI    0
                PLO     RC
                LDA     R7
                XOR
                STR     RD
                INC     RD
line_right:     LDN     R7
                AND
                ADI     0xFF
                GLO     RC
                ADCI    0
                PLO     RC
                LDA     R7
                XOR
                STR     RD
                GLO     RD
                ADI     7
                PLO     RD
                GHI     RD
                ADCI    0
                PHI     RD
                BR      line
drawn:          LDI     >FLAG
                PHI     RD
                LDI     <FLAG
                PLO     RD              ; RD at VF
                GLO     RC
                ADI     0xFF            ; DF = 1 where the count is not 0
                LDI     0
                SHLC                    ; D = DF
                STR     RD
                SEP     R4

; DXYN whose bytes lie neither in game memory nor in the font
;   draw_outside    @152       entered but for RC; s stops with READ_OUTSIDE
draw_outside:   LDI     READ_OUTSIDE
                BR      leave84
";
