//! SENDER: the text and its bytes.

ghost use Rattle.std.specs.Prelude.{◌≡◌, ◌≤◌, length};
ghost use Rattle.vip_link.specs.Roms.{sender_text};

/// The text of SENDER in the assembly language of this project.
const TEXT: &str =
    "; ----------------------------------------------------------------------------------------------------------------------
; SENDER sends a message over port 3, each byte as soon as the one before it has been taken.
;
; The message lies in RAM from 0200 on, and its length at 01FE, the high byte first. EF4 is 1 while the outgoing wire is
; full; OUT 3 puts a byte on it. The display stays off, so there is no interrupt and no DMA.
;
;   R0  program counter, from reset on: P = 0
;   R1  the next byte of the message: 0200 + k, where k bytes were sent
;   R2  how many bytes are left
; ----------------------------------------------------------------------------------------------------------------------
LENGTH:         EQU     0x01FE          ; the length, and behind it the message

                ORG     0x8000
                LBR     boot            ; reset begins at 0000, which reads as 8000 while the boot latch is set
boot:           OUT     4               ; clears the latch; with X = P = 0 the byte that is sent stands here
                DB      0
                LDI     >LENGTH
                PHI     R1
                LDI     <LENGTH
                PLO     R1
                LDA     R1
                PHI     R2
                LDA     R1
                PLO     R2
                SEX     R1
next:           GHI     R2              ; is a byte left?
                BNZ     wait
                GLO     R2
                BZ      done
wait:           B4      wait            ; until the last byte has been taken
                OUT     3               ; M(R1), and R1 + 1
                DEC     R2
                BR      next
done:           BR      done
";

/// What the text assembles to, from 8000 on. The comment on a line is the address of its first byte.
pub const CODE: [u8; 30] = [
    0xc0, 0x80, 0x03, // 8000
    0x64, 0x00, 0xf8, 0x01, 0xb1, 0xf8, 0xfe, 0xa1, 0x41, 0xb2, 0x41, 0xa2, 0xe1, // 8003 boot
    0x92, 0x3a, 0x16, 0x82, 0x32, 0x1c, // 8010 next
    0x37, 0x16, 0x63, 0x22, 0x30, 0x10, // 8016 wait
    0x30, 0x1c, // 801C done
];

/// The text of SENDER in the assembly language of this project, at most 1,048,576 bytes.
#[tactic(auto, unfolding(crate::specs::Roms::sender_text))]
pub fn sender_text() -> &'static [u8]
    ensures text { result.now ≡ sender_text }
    ensures size { length result.now ≤ 1048576 }
{
    TEXT.as_bytes()
}
