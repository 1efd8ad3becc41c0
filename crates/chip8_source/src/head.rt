//! The head of each edition: its screen, and its places in RAM.

pub(crate) const USUAL: &str =
    "; ======================================================================================================================
; CHIP-8 INTERPRETER FOR THE CDP1802, usual edition: a screen of 64 by 32 dots, each row four lines high.
; The editions have the same instructions at the same addresses. They differ in the values of the names below alone.
; ======================================================================================================================

; The edition's screen, and its places in RAM
ROWS:           EQU     32              ; rows of the screen
NEXT_ROW:       EQU     0               ; lines 2 and 3 of each four show the row that lines 0 and 1 show
END:            EQU     0x0EA0          ; the first address past game memory, where the room of the stack begins
TOP:            EQU     0x0ECF          ; R2 while the stack is empty
WORK:           EQU     0x0ED0          ; the sprite work, 32 bytes
VARS:           EQU     0x0EF0          ; V0 to VF
SCREEN:         EQU     0x0F00          ; the screen's first byte
";

pub(crate) const TALL: &str =
    "; ======================================================================================================================
; CHIP-8 INTERPRETER FOR THE CDP1802, tall edition: a screen of 64 by 64 dots, each row two lines high.
; The editions have the same instructions at the same addresses. They differ in the values of the names below alone.
; ======================================================================================================================

; The edition's screen, and its places in RAM
ROWS:           EQU     64              ; rows of the screen
NEXT_ROW:       EQU     8               ; lines 2 and 3 of each four show the row after that of lines 0 and 1
END:            EQU     0x0DA0          ; the first address past game memory, where the room of the stack begins
TOP:            EQU     0x0DCF          ; R2 while the stack is empty
WORK:           EQU     0x0DD0          ; the sprite work, 32 bytes
VARS:           EQU     0x0DF0          ; V0 to VF
SCREEN:         EQU     0x0E00          ; the screen's first byte
";
