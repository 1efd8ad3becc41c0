//! EX9E, EXA1 and FX0A.

pub(crate) const TEXT: &str = "
; ======================================================================================================================
; KEYS: EX9E, EXA1, FX0A
; ======================================================================================================================

; EX9E: skip where key VX mod 16 is down; EXA1: skip where it is up
;   key_skip        @80        entered, EXKK
;   key_skip_up     @88        entered, EXKK, KK is not 9E; X = R6
;   skip_up         @94        entered, EXA1; X = R6
;   skip_up_test    @96        entered but for R6, EXA1; key VX mod 16 is latched
;   skip_up_no      @98        done, EXA1: that key is down in a set of K
;   skip_down       @88        entered, EX9E; X = R6
;   skip_down_test  @90        entered but for R6, EX9E; key VX mod 16 is latched
;   skip_down_no    @92        done, EX9E: that key is up in a set of K
;   key_yes         @98        entered but for R6; the step makes pc + 4 of pc and changes nothing else: the key is down
;                              in a set of K for EX9E, up for EXA1
                ORG     0x8271
key_skip:       SEX     R6
                GLO     RC
                XRI     0x9E
                BZ      skip_down
key_skip_up:    GLO     RC
                XRI     0xA1
                BNZ     unknown82
skip_up:        OUT     2
skip_up_test:   BN3     key_yes
skip_up_no:     SEP     R4
skip_down:      OUT     2
skip_down_test: B3      key_yes
skip_down_no:   SEP     R4
key_yes:        INC     R5
                INC     R5
                SEP     R4

; FX0A: VX is a key that was down and then up. The keys are tested in turn until one is down, and then that one until it
; is up. A turn takes 7 instructions, so each key is tested again after 112: up to key_count, where K has 400 sets, no
; key is in all of the last 400.
;   wait_key        @92        entered, FX0A
;   key_next        @key       entered, FX0A; RD = WORK, X = RD; key RE.0 mod 16 is to be tested
;   key_test        @key       the same; that key is latched
;   key_count       @key       the same; that key is up in the last set of K
;   key_held        @key       entered, FX0A; key RE.0 mod 16 is latched, and it is down in the last set of K
;   key_freed       @key       entered, FX0A; key RE.0 mod 16 is up in a set of K, and down in an earlier one
                ORG     0x833A
wait_key:       LDI     >WORK
                PHI     RD
                LDI     <WORK
                PLO     RD
                SEX     RD
                LDI     0
                PLO     RE
key_next:       GLO     RE
                STR     RD
                OUT     2               ; the port takes the low four bits
                DEC     RD
key_test:       B3      key_held
key_count:      INC     RE
                BR      key_next
key_held:       B3      key_held
key_freed:      GLO     RE
                ANI     0x0F
                STR     R6
                SEP     R4
";
