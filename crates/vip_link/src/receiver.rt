//! RECEIVER: the text and its bytes.

ghost use Rattle.std.specs.Prelude.{◌≡◌, ◌≤◌, length};
ghost use Rattle.vip_link.specs.Roms.{receiver_text};

/// The text of RECEIVER in the assembly language of this project.
const TEXT: &str =
    "; ----------------------------------------------------------------------------------------------------------------------
; RECEIVER takes bytes from port 3 and stores them in RAM from 0200 on, for as long as it runs.
;
; EF2 is 1 while the incoming wire is full; INP 3 takes the byte, which empties the wire, and stores it. The display
; stays off, so there is no interrupt and no DMA.
;
;   R0  program counter, from reset on: P = 0
;   R1  where the next byte goes: 0200 + j, where j bytes were taken
; ----------------------------------------------------------------------------------------------------------------------
STORE:          EQU     0x0200

                ORG     0x8000
                LBR     boot            ; reset begins at 0000, which reads as 8000 while the boot latch is set
boot:           OUT     4               ; clears the latch; with X = P = 0 the byte that is sent stands here
                DB      0
                LDI     >STORE
                PHI     R1
                LDI     <STORE
                PLO     R1
                SEX     R1
wait:           BN2     wait            ; until a byte comes
                INP     3               ; M(R1)
                IRX                     ; R1 + 1
                BR      wait
";

/// What the text assembles to, from 8000 on. The comment on a line is the address of its first byte.
pub const CODE: [u8; 18] = [
    0xc0, 0x80, 0x03, // 8000
    0x64, 0x00, 0xf8, 0x02, 0xb1, 0xf8, 0x00, 0xa1, 0xe1, // 8003 boot
    0x3d, 0x0c, 0x6b, 0x60, 0x30, 0x0c, // 800C wait
];

/// The text of RECEIVER in the assembly language of this project, at most 1,048,576 bytes.
#[tactic(auto, unfolding(crate::specs::Roms::receiver_text))]
pub fn receiver_text() -> &'static [u8]
    ensures text { result.now ≡ receiver_text }
    ensures size { length result.now ≤ 1048576 }
{
    TEXT.as_bytes()
}
