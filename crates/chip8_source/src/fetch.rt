//! The fetch: boot, fetch and dispatch, which of FXKK an opcode is, and the stops.

pub(crate) const TEXT: &str = "
; ======================================================================================================================
; FETCH: boot, fetch and dispatch, which of FXKK an opcode is, stops
; ======================================================================================================================

; Boot. The boot latch lets the addresses from 0000 on read the ROM, until OUT 4. RAM stays as it is.
;   boot            cycle 0    after reset: P = 0, all registers are 0, the boot latch is set, the display is off
;   start           cycle 10   P = 3, R0 = 0007, R3 = start, D = 07; else as at boot
;   mapped          cycle 14   P = 3, R0 = 0007, R3 = mapped, X = 4, R4 = 0001, D = 07; the boot latch is clear; else
;                              as at boot
                ORG     0x8000
boot:           LDI     >start
                PHI     R3
                LDI     <start
                PLO     R3
                SEP     R3              ; on at the ROM's own addresses
start:          SEX     R4
                OUT     4               ; clears the boot latch, whatever the byte; R4 is set below
mapped:         LDI     >entry
                PHI     R1
                LDI     <entry
                PLO     R1
                LDI     >TOP
                PHI     R2
                LDI     <TOP
                PLO     R2
                LDI     >FIRST
                PHI     R5
                LDI     <FIRST
                PLO     R5
                LDI     >SCREEN
                PHI     RB
                LDI     >fetch
                PHI     R4
                LDI     <fetch
                PLO     R4
                SEX     R3
                INP     1               ; turns the display on; the write of INP goes to the ROM and does nothing
                SEP     R4              ; the first dispatch point, at cycle 56

; Fetch and dispatch, P = 4. SEP R3 stands right before `fetch`, so that the SEP R4 of a routine comes to `fetch`.
;   outside         @16        P = 4; s is in its places and stops with FETCH_OUTSIDE
;   dispatch        @78        P = 4; as entered, but R4 = dispatch and R3 is the table's address for the opcode; or
;                              s is in its places and stops with FETCH_OUTSIDE, R3 = stopped, RE.0 = FETCH_OUTSIDE
;   fetch           @0         a dispatch point: P = 4, R4 = fetch; s is in its places
;   upper           @6         P = 4, R4 = upper; s is in its places; pc is at least FIRST
;   inside          @16        P = 4, R4 = inside; s is in its places; pc and pc + 1 lie in game memory
outside:        LDI     >stopped
                PHI     R3
                LDI     <stopped
                PLO     R3
                LDI     FETCH_OUTSIDE
                PLO     RE
dispatch:       SEP     R3
fetch:          GHI     R5
                SMI     >FIRST
                BNF     outside         ; pc is below FIRST
upper:          GLO     R5
                SDI     <END-2
                GHI     R5
                SDBI    >END-2
                BNF     outside         ; pc is above END - 2
inside:         LDI     >VARS
                PHI     R6
                PHI     R7
                LDA     R5
                PHI     RC
                ANI     0x0F
                ADI     <VARS
                PLO     R6
                LDA     R5
                PLO     RC
                SHR
                SHR
                SHR
                SHR
                ADI     <VARS
                PLO     R7
                LDI     >table
                PHI     RD
                GHI     RC
                SHR
                SHR
                SHR
                SHR
                SHL
                ADI     <table
                PLO     RD              ; RD at the two bytes for the opcode's first digit
                LDA     RD
                PHI     R3
                LDN     RD
                PLO     R3
                BR      dispatch

; The dispatch table: the address of the routine for each first digit of an opcode
table:          DW      system, jump, call, skip_eq, skip_ne, skip_same, load, add
                DW      arith, skip_differ, index, jump_plus, random, draw, key_skip, misc

; FXKK: which of them
;   misc            @80        entered, FXKK
;   misc_0A         @86        entered, FXKK, KK is not 07
;   misc_15         @92        entered, FXKK, KK is neither 07 nor 0A
;   misc_18         @98        entered, FXKK, KK is none of 07, 0A, 15
;   misc_1E         @104       entered, FXKK, KK is none of 07, 0A, 15, 18
;   misc_29         @110       entered, FXKK, KK is none of 07, 0A, 15, 18, 1E
;   misc_33         @116       entered, FXKK, KK is none of 07, 0A, 15, 18, 1E, 29
;   misc_55         @122       entered, FXKK, KK is none of 07, 0A, 15, 18, 1E, 29, 33
;   misc_65         @128       entered, FXKK, KK is none of 07, 0A, 15, 18, 1E, 29, 33, 55
;   unknown83       @134       entered; s stops with UNKNOWN
                ORG     0x8300
misc:           GLO     RC
                XRI     0x07
                BZ      get_delay
misc_0A:        GLO     RC
                XRI     0x0A
                BZ      wait_key
misc_15:        GLO     RC
                XRI     0x15
                BZ      set_delay
misc_18:        GLO     RC
                XRI     0x18
                BZ      set_sound
misc_1E:        GLO     RC
                XRI     0x1E
                BZ      add_index
misc_29:        GLO     RC
                XRI     0x29
                BZ      digit
misc_33:        GLO     RC
                XRI     0x33
                BZ      decimal
misc_55:        GLO     RC
                XRI     0x55
                BZ      store
misc_65:        GLO     RC
                XRI     0x65
                BZ      restore
unknown83:      LDI     UNKNOWN
                BR      leave83

; The stops. A page's way to them ends at its offset F3 by setting R3.1, and so goes on at `stop`, offset F4 of page 80.
;   stop            @216       stop c; RE.0 = c
;   stopped         @220       P = 3; s is in its places and stops with the number c; RE.0 = c
;   halt            @232       a stop point: P = 3, R3 = halt; s is in its places and stops with the number c; STOP_CELL
;                              holds c
                ORG     0x80F4
stop:           DEC     R5
                DEC     R5
stopped:        LDI     >STOP_CELL
                PHI     RD
                LDI     <STOP_CELL
                PLO     RD
                GLO     RE
                STR     RD
halt:           BR      halt

; The ways of pages 81 to 84 to the stops
;   leave81         @106       stop c; D = c
;   leave82         @98        stop c; D = c
;   leave83         @210       stop c; D = c
;   leave84         @156       stop c; D = c
                ORG     0x81F0
leave81:        PLO     RE
                LDI     >stop
                PHI     R3              ; on at `stop`
                ORG     0x82F0
leave82:        PLO     RE
                LDI     >stop
                PHI     R3              ; on at `stop`
                ORG     0x83F0
leave83:        PLO     RE
                LDI     >stop
                PHI     R3              ; on at `stop`
                ORG     0x84F0
leave84:        PLO     RE
                LDI     >stop
                PHI     R3              ; on at `stop`
";
