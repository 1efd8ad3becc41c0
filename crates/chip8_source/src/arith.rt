//! 0MMM, 00EE, jumps and calls, loads, skips, and 8XYN.

pub(crate) const TEXT: &str = "
; ======================================================================================================================
; ARITH: 0MMM, 00EE, jumps and calls, loads, skips, 8XYN
; ======================================================================================================================

; 0MMM: which of them
;   system          @80        entered, 0MMM
;   system_low      @84        entered, 00KK
;   system_back     @90        entered, 00KK, KK is not E0
;   machine         @96        entered; s stops with MACHINE_CALL
                ORG     0x8100
system:         GHI     RC
                BNZ     machine
system_low:     GLO     RC
                XRI     0xE0
                BZ      clear
system_back:    GLO     RC
                XRI     0xEE
                BZ      return
machine:        LDI     MACHINE_CALL
                BR      leave81

; 00EE: pc is the address taken from the stack
;   return          @96        entered, 00EE
;   return_take     @102       entered, 00EE; the stack is not empty
;   empty           @102       entered; s stops with STACK_EMPTY
return:         GLO     R2
                XRI     <TOP
                BZ      empty
return_take:    GHI     R2
                PHI     RD
                GLO     R2
                PLO     RD
                INC     RD              ; RD at the newest address
                LDA     RD
                PHI     R5
                LDN     RD
                PLO     R5
                INC     R2
                INC     R2
                SEP     R4
empty:          LDI     STACK_EMPTY
                BR      leave81

; 1MMM: pc = MMM
;   jump            @80        entered, 1MMM
jump:           GHI     RC
                ANI     0x0F
                PHI     R5
                GLO     RC
                PLO     R5
                SEP     R4

; 2MMM: pc + 2 goes on the stack, and pc = MMM
;   call            @80        entered, 2MMM
;   call_put        @86        entered, 2MMM; the stack holds fewer than 12 addresses
;   full            @86        entered; s stops with STACK_FULL
call:           GLO     R2
                XRI     <FULL
                BZ      full
call_put:       SEX     R2
                GLO     R5
                STXD
                GHI     R5
                STXD
                GHI     RC
                ANI     0x0F
                PHI     R5
                GLO     RC
                PLO     R5
                SEP     R4
full:           LDI     STACK_FULL
                BR      leave81

; BMMM: pc = MMM + V0
;   jump_plus       @80        entered, BMMM
jump_plus:      LDI     >VARS
                PHI     RD
                LDI     <VARS
                PLO     RD              ; RD at V0
                SEX     RD
                GLO     RC
                ADD
                PLO     R5
                GHI     RC
                ANI     0x0F
                ADCI    0
                PHI     R5
                SEP     R4

; 6XKK: VX = KK
;   load            @80        entered, 6XKK
load:           GLO     RC
                STR     R6
                SEP     R4

; 7XKK: VX = VX + KK
;   add             @80        entered, 7XKK
add:            SEX     R6
                GLO     RC
                ADD
                STR     R6
                SEP     R4

; 3XKK: skip where VX = KK
;   skip_eq         @80        entered, 3XKK
;   skip_eq_no      @88        done, 3XKK
skip_eq:        SEX     R6
                GLO     RC
                XOR
                BZ      skip
skip_eq_no:     SEP     R4

; 4XKK: skip where VX differs from KK
;   skip_ne         @80        entered, 4XKK
;   skip_ne_no      @88        done, 4XKK
skip_ne:        SEX     R6
                GLO     RC
                XOR
                BNZ     skip
skip_ne_no:     SEP     R4

; 5XY0: skip where VX = VY
;   skip_same       @80        entered, 5XYN
;   skip_same_test  @86        entered, 5XY0
;   skip_same_no    @94        done, 5XY0
skip_same:      GLO     RC
                ANI     0x0F
                BNZ     unknown81
skip_same_test: SEX     R6
                LDN     R7
                XOR
                BZ      skip
skip_same_no:   SEP     R4

; 9XY0: skip where VX differs from VY
;   skip_differ     @80        entered, 9XYN
;   differ_test     @86        entered, 9XY0
;   differ_no       @94        done, 9XY0
skip_differ:    GLO     RC
                ANI     0x0F
                BNZ     unknown81
differ_test:    SEX     R6
                LDN     R7
                XOR
                BNZ     skip
differ_no:      SEP     R4

; The skip of 3XKK, 4XKK, 5XY0 and 9XY0
;   skip            @94        entered; the step makes pc + 4 of pc and changes nothing else
skip:           INC     R5
                INC     R5
                SEP     R4

; 5XYN and 9XYN, N not 0
;   unknown81       @86        entered; s stops with UNKNOWN
unknown81:      LDI     UNKNOWN
                BR      leave81

; 8XYN: one of sixteen branches, two bytes each
;   arith           @80        entered, 8XYN
;   slot0..slotF    @92        entered, 8XY0 to 8XYF; X = R6
                ORG     0x8200
arith:          SEX     R6
                GLO     RC
                ANI     0x0F
                SHL
                ADI     <slot0
                PLO     R3              ; on at slot0 + 2N
slot0:          BR      copy
slot1:          BR      vx_or
slot2:          BR      vx_and
slot3:          BR      vx_xor
slot4:          BR      sum
slot5:          BR      less
slot6:          BR      right
slot7:          BR      from
slot8:          BR      unknown82
slot9:          BR      unknown82
slotA:          BR      unknown82
slotB:          BR      unknown82
slotC:          BR      unknown82
slotD:          BR      unknown82
slotE:          BR      left
slotF:          BR      unknown82

; 8XY0: VX = VY
;   copy            @94        entered, 8XY0; X = R6
copy:           LDN     R7
                STR     R6
                SEP     R4

; 8XY1, 8XY2 and 8XY3: VX = VX or, and, xor VY; then VF = 0
;   vx_or           @94        entered, 8XY1; X = R6
;   vx_and          @94        entered, 8XY2; X = R6
;   vx_xor          @94        entered, 8XY3; X = R6
vx_or:          LDN     R7
                OR
                BR      no_flag
vx_and:         LDN     R7
                AND
                BR      no_flag
vx_xor:         LDN     R7
                XOR
                BR      no_flag

; 8XY4: VX = VX + VY; then VF = the carry
;   sum             @94        entered, 8XY4; X = R6
sum:            LDN     R7
                ADD
                BR      flag

; 8XY5: VX = VX - VY; then VF = 1 where there is no borrow, else 0
;   less            @94        entered, 8XY5; X = R6
less:           LDN     R7
                SD
                BR      flag

; 8XY6: VX = VY shifted right; then VF = the bit lost
;   right           @94        entered, 8XY6; X = R6
right:          LDN     R7
                SHR
                BR      flag

; 8XY7: VX = VY - VX; then VF = 1 where there is no borrow, else 0
;   from            @94        entered, 8XY7; X = R6
from:           LDN     R7
                SM
                BR      flag

; 8XYE: VX = VY shifted left; then VF = the bit lost
;   left            @94        entered, 8XYE; X = R6
left:           LDN     R7
                SHL
                BR      flag

; The end of 8XY1 to 8XYE: VX, and after it VF
;   no_flag         @100       entered; the step puts D into VX and then 0 into VF
;   flag            @102       entered; the step puts D into VX and then DF into VF
no_flag:        ADI     0               ; DF = 0
flag:           STR     R6
                LDI     >FLAG
                PHI     RD
                LDI     <FLAG
                PLO     RD              ; RD at VF
                LDI     0
                SHLC                    ; D = DF
                STR     RD
                SEP     R4

; 8XYN with N from 8 to D or F, and EXKK with KK neither 9E nor A1
;   unknown82       @94        entered; s stops with UNKNOWN
unknown82:      LDI     UNKNOWN
                BR      leave82
";
