//! The commands that show bytes as the bus reads them.

ghost use Rattle.std.specs.Prelude.{◌≡◌, ◌+◌, ◌-◌, ◌*◌, ◌≤◌, ◌<◌, ◌++◌, [], ℕ, length};
ghost use Rattle.arrayvec.specs.ArrayVec.{array_vec_len};
ghost use Rattle.vip_byte.specs.Room.{HasRoom};
ghost use Rattle.machine.specs.Memory.{read};
ghost use Rattle.vip_byte.specs.HexText.{bytes_text, hex2};
ghost use Rattle.vip_outside.specs.Sink.{PutAnswers};
ghost use Rattle.vip_outside.specs.Pieces.{StreamAnswers};
ghost use Rattle.std.specs.List.{flat_map};
ghost use Rattle.asm_listing.specs.Listing.{first_digits};
ghost use Rattle.vip_debug.specs.BoardParts.{PutsLine, reads};
ghost use Rattle.vip_debug.specs.BoardShown.{end_in, front_text, instruction_lines, labels_in, mem_lines, row, rows, stretch};

use arrayvec::ArrayVec;
use asm_core::{Origins, read_place};
use asm_listing::one_line;
use vip_byte::{Buffer, add16, hex2, hex4, put};
use vip_memory::Memory;
use vip_outside::{Failed, Sink};
use vip_program::put_labels_at;

/// One more than the greatest address.
const END: u32 = 0x10000;

/// The most bytes of a stretch.
const MOST_BYTES: usize = 4_096;

/// The bytes of a stretch of memory, copied.
pub type Stretch = ArrayVec<u8, MOST_BYTES>;

/// How an instruction is shown: as a line of source, or as in a listing, behind its address and its bytes.
#[derive(Clone, Copy)]
pub enum Layout {
    Source,
    Listing,
}

/// Copies so many bytes from an address on over what was there: 4,096 at most, and those up to FFFF.
pub fn read_stretch(memory: &Memory, address: u16, count: u32, into: &mut Stretch)
    ensures { into.new.items ≡ stretch (reads memory.now) address count }
{
    into.clear();
    let start = u32::from(address);
    for i in 0..count.min(MOST_BYTES as u32).min(END - start) {
        into.push(memory.read((start + i) as u16));
    }
}

/// Appends the digits of these bytes, each behind a blank.
fn put_bytes(into: &mut Buffer, bytes: &[u8])
    requires few { length bytes.now ≤ 16 }
    requires room { HasRoom into.old.items 48 }
    ensures items { into.new.items ≡ into.old.items ++ bytes_text bytes.now }
    ensures len { array_vec_len into.new ≤ array_vec_len into.old + 48 }
{
    for byte in bytes {
        put(into, b" ");
        put(into, &hex2(*byte));
    }
}

/// Puts a line with these bytes, the first of which stands at an address.
fn put_row<O: Sink>(address: u16, bytes: &[u8], out: &mut O) -> Result<(), Failed>
    requires few { length bytes.now ≤ 16 }
    ensures { PutAnswers (row address bytes.now) (O.meaning out.old) (O.meaning out.new) result }
{
    let mut text = Buffer::new();
    put(&mut text, &hex4(address));
    put_bytes(&mut text, bytes);
    put(&mut text, b"\n");
    out.put(text.as_slice())
}

/// Puts these bytes, the first of which stands at an address, in lines of at most 16.
pub fn put_rows<O: Sink>(address: u16, bytes: &[u8], out: &mut O) -> Result<(), Failed>
    requires { address + length bytes.now ≤ 65536 }
    ensures { StreamAnswers (rows address bytes.now) (O.meaning out.old) (O.meaning out.new) result }
{
    for k in 0..(bytes.len() + 15) / 16 {
        let start = 16 * k;
        let end = bytes.len().min(start + 16);
        put_row(
            (usize::from(address) + start) as u16,
            &bytes[start..end],
            out,
        )?;
    }
    Ok(())
}

/// Puts so many bytes from an address on, or those up to FFFF, in lines of at most 16.
pub fn put_mem<O: Sink>(
    memory: &Memory,
    address: u16,
    count: u32,
    out: &mut O,
) -> Result<(), Failed>
    ensures { StreamAnswers (mem_lines (reads memory.now) address count) (O.meaning out.old) (O.meaning out.new) result }
{
    let mut bytes = Stretch::new();
    read_stretch(memory, address, count, &mut bytes);
    put_rows(address, bytes.as_slice(), out)
}

/// Appends the digits of at most three bytes, in six places.
fn put_digits(into: &mut Buffer, bytes: &[u8])
    requires few { length bytes.now ≤ 3 }
    requires room { HasRoom into.old.items 6 }
    ensures items { into.new.items ≡ into.old.items ++ first_digits bytes.now }
    ensures len { array_vec_len into.new ≡ array_vec_len into.old + 6 }
{
    for byte in bytes {
        put(into, &hex2(*byte));
    }
    let blanks: &[u8] = b"      ";
    put(into, &blanks[2 * bytes.len()..]);
}

/// Appends what stands in front of the line of an instruction that has these bytes.
fn put_before(into: &mut Buffer, layout: Layout, address: u16, bytes: &[u8])
    requires few { length bytes.now ≤ 3 }
    requires room { HasRoom into.old.items 11 }
    ensures items { into.new.items ≡ into.old.items ++ front_text layout address bytes.now }
    ensures len { array_vec_len into.new ≤ array_vec_len into.old + 11 }
{
    if let Layout::Listing = layout {
        put(into, &hex4(address));
        put(into, b" ");
        put_digits(into, bytes);
    }
}

/// Appends what stands behind it: the source's line that gave these bytes, in a listing.
fn put_behind(
    into: &mut Buffer,
    origins: &Origins,
    latch: bool,
    layout: Layout,
    address: u16,
    bytes: &[u8],
)
    requires room { HasRoom into.old.items 320 }
    ensures items { into.new.items ≡ into.old.items ++ end_in origins.now latch layout address bytes.now }
    ensures len { array_vec_len into.new ≤ array_vec_len into.old + 320 }
{
    if let Layout::Listing = layout {
        origins.put_end(latch, address, bytes, into);
    }
}

/// Puts the lines of the labels at the byte that an address reads, where a layout shows them.
fn put_labels_in<O: Sink>(
    origins: &Origins,
    latch: bool,
    layout: Layout,
    address: u16,
    out: &mut O,
) -> Result<(), Failed>
    ensures { StreamAnswers (labels_in origins.now latch layout address) (O.meaning out.old) (O.meaning out.new) result }
{
    match layout {
        Layout::Source => Ok(()),
        Layout::Listing => put_labels_at(origins, read_place(latch, address), out),
    }
}

/// Puts the line of the instruction at an address, behind those of its labels, and answers how many bytes it shows.
fn put_instruction<O: Sink>(
    memory: &Memory,
    origins: &Origins,
    address: u16,
    layout: Layout,
    out: &mut O,
) -> Result<u8, Failed>
    ensures { PutsLine origins.now memory.now.latch layout (reads memory.now) address (O.meaning out.old) (O.meaning out.new) result }
{
    let three = [
        memory.read(address),
        memory.read(add16(address, 1)),
        memory.read(add16(address, 2)),
    ];
    let have = (END - u32::from(address)).min(3);
    let mut line = ArrayVec::new();
    let shown = one_line(three, have as u8, address, &mut line);
    let bytes = &three[..usize::from(shown)];
    let latch = memory.latch_set();
    let mut text = Buffer::new();
    put_before(&mut text, layout, address, bytes);
    put(&mut text, line.as_slice());
    put_behind(&mut text, origins, latch, layout, address, bytes);
    put(&mut text, b"\n");
    put_labels_in(origins, latch, layout, address, out)?;
    out.put(text.as_slice())?;
    Ok(shown)
}

/// Puts the lines of so many instructions from an address on, or those up to FFFF, in a listing behind those of their labels.
pub fn put_instructions<O: Sink>(
    memory: &Memory,
    origins: &Origins,
    address: u16,
    count: u32,
    layout: Layout,
    out: &mut O,
) -> Result<(), Failed>
    ensures { StreamAnswers (instruction_lines (reads memory.now) origins.now memory.now.latch layout address count) (O.meaning out.old) (O.meaning out.new) result }
{
    let mut at = u32::from(address);
    for _line in 0..count {
        if at >= END {
            return Ok(());
        }
        at += u32::from(put_instruction(memory, origins, at as u16, layout, out)?);
    }
    Ok(())
}
