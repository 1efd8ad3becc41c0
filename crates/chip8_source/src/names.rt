//! The names of both editions, the registers, and how the rows are read: what gives no byte.

pub(crate) const TEXT: &str = "
; The places that follow from these, and those that the editions share
FLAG:           EQU     VARS+15         ; VF
FULL:           EQU     TOP-24          ; R2 while the stack holds 12 addresses
SCREEN_LAST:    EQU     0x0FFF          ; the screen's last byte
FIRST:          EQU     0x0200          ; the first address of game memory
STOP_CELL:      EQU     0x01F0          ; the number of a stop
RANDOM:         EQU     0x01F1          ; b, the random byte
FONT_END:       EQU     0x8750          ; the first address past the font

; What the range check answers
IN_GAME:        EQU     0               ; the bytes lie wholly in game memory
IN_FONT:        EQU     1               ; they lie wholly in the font
NOWHERE:        EQU     2               ; neither

; The numbers of the stops
MACHINE_CALL:   EQU     1
UNKNOWN:        EQU     2
FETCH_OUTSIDE:  EQU     3
READ_OUTSIDE:   EQU     4
WRITE_OUTSIDE:  EQU     5
STACK_FULL:     EQU     6
STACK_EMPTY:    EQU     7

; ----------------------------------------------------------------------------------------------------------------------
; THE PARTS OF THE ROM stand below one after the other: fetch, arith, memory, sprite, timer, keys, and the font. The code
; of a part lies in one or more stretches of the addresses 8000 to 87FF, each of which begins with its ORG. The bytes
; between the stretches are 00, and nothing reads them.
;
; THE REGISTERS
;   R0  DMA pointer, for the interrupt routine alone
;   R1  at `entry`, the interrupt routine
;   R2  stack pointer of the processor and of the language; the newest address lies in the two bytes above it
;   R3  program counter of the routines of the opcodes, P = 3
;   R4  program counter of the fetch, P = 4; at `fetch` in every routine
;   R5  pc
;   R6  at VX; for a sprite R6.1 is the page of its first byte on the screen, and R6.0 the place where the shifts begin
;   R7  at VY; for a sprite at the sprite work
;   R8  R8.1 is DT, the delay timer, and R8.0 is ST, the sound timer
;   R9  n, the tick count
;   RA  I
;   RB  RB.1 is the page of the screen; RB.0 is the low byte of a sprite's first address on the screen
;   RC  the opcode; after the range check free for the routine
;   RD  program counter of the range check; else a pointer of the routine
;   RE  RE.0 is a count, RE.1 a second one
;   RF  RF.0 is for the interrupt routine alone
;
; The interrupt routine can run between any two instructions. It makes one tick, and changes nothing else but R0, RF.0,
; T and the bytes below R2. So main code keeps nothing in these and reads no byte of the stack but above R2. What
; touches DT, ST, n or a flag line, and the two display waits, are blocks of one instruction. Every instruction takes
; two cycles, but for the one NOP of the interrupt routine, so main code starts each at an even cycle.
;
; HOW TO READ THE ROWS. Above each routine a row for each label says what holds there, whatever ticks come.
;   @n        at most n cycles of main code have passed since the dispatch point
;   @wait+n   at most n since the end of the display wait
;   @key      as many as it takes until a key goes down, or up
;   s         the state of the language at the dispatch point, after the ticks that came since, or after some of them
;             where a row says that the others come after the step
;   entered   P = 3 and R4 = fetch; s is in its places, but R5 = pc + 2; RC is the opcode, R6 is at VX, R7 is at VY
;   done      P = 3 and R4 = fetch; the state after the step is in its places; what is left is the dispatch
;   stop c    as entered, but for R6 and RC; s stops with the number c
;   checked   as entered, but for RC; RE.0 is the count of bytes from I on, and D what the range check answers for them
;   K         the sets of keys that were down at the instructions of main code since the dispatch point, in order
; X, Y, N, KK and MMM are the parts of the opcode; VX, VY, I, DT, ST, n and pc are those of s. `X = R6` says what the
; processor's X is.
; ----------------------------------------------------------------------------------------------------------------------
";
