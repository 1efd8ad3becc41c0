//! The text of a profile.

ghost use Rattle.std.specs.Prelude.{◌≡◌, ◌+◌, ◌-◌, ◌*◌, ◌++◌, ◌≤◌, ◌<◌, [], ℕ, List, length, take, vec_capacity, decimal, codes};
ghost use Rattle.std.specs.Option.{option_map_or};
ghost use Rattle.arrayvec.specs.ArrayVec.{array_vec_len};
ghost use Rattle.asm_core.specs.Labels.{label_lines};
ghost use Rattle.asm_core.specs.Origins.{source_end};
ghost use Rattle.vip_byte.specs.Room.{HasRoom};
ghost use Rattle.vip_program.specs.declared.counts.Point.{Point};
ghost use Rattle.vip_program.specs.Counts.{addresses, Counted, IsCount};
ghost use Rattle.vip_program.specs.Figures.{figures_of, IsTold, most_number};
ghost use Rattle.vip_program.specs.Profile.{Code, column, cycles_at, frame_points, frames_line, frames_text, heading, label_of, places_text, profile_text, row_text, steps_line, sum_lines, sums_before};
ghost use Rattle.vip_program.specs.Sums.{AreWithin, IsRoomy, IsShown, IsSum, end_room, lines_room, row_room, rows_from};

use crate::counts::{ADDRESSES, Counts};
use crate::figures::Figures;
use crate::sums::{Sums, label_of, put_sums, sums_under};
use crate::write::put_right;
use asm_core::Origins;
use vip_byte::{Buffer, hex4, put, put_number};

/// What the rows of a profile show of the code, address by address.
pub trait Codes {
    // the title of its column, and what is shown of each address
    ghost title: { List ℕ };

    ghost code: { Self → ℕ → Code };

    /// Whether it was read through the boot latch.
    fn latch(&self, pc: u16) -> bool
        ensures { result ≡ (code self.now pc).latch };

    /// Appends the title, with the blanks behind it.
    fn put_title(&self, into: &mut Buffer)
        requires { HasRoom into.old.items 6 }
        ensures items { into.new.items ≡ into.old.items ++ title }
        ensures len { array_vec_len into.new ≤ array_vec_len into.old + 6 };

    /// Appends what stands in the column.
    fn put_code(&self, pc: u16, into: &mut Buffer)
        requires { HasRoom into.old.items 12 }
        ensures items { into.new.items ≡ into.old.items ++ (code self.now pc).text }
        ensures len { array_vec_len into.new ≤ array_vec_len into.old + 6 };

    /// Appends the words behind the numbers.
    fn put_words(&self, pc: u16, into: &mut Buffer)
        requires { HasRoom into.old.items 13 }
        ensures items { into.new.items ≡ into.old.items ++ (code self.now pc).words }
        ensures len { array_vec_len into.new ≤ array_vec_len into.old + 13 };

    /// Appends the source's line that gave the bytes, where it is told.
    fn put_end(&self, origins: &Origins, pc: u16, into: &mut Buffer)
        requires { HasRoom into.old.items 320 }
        ensures items { into.new.items ≡ into.old.items ++ source_end origins.now (code self.now pc).latch pc (code self.now pc).bytes }
        ensures len { array_vec_len into.new ≤ array_vec_len into.old + 320 };
}

/// Appends a blank, and a number that stands right in ten places.
fn put_column(into: &mut Buffer, number: u64)
    requires room { HasRoom into.old.items 11 }
    requires number { number ≤ most_number }
    ensures items { into.new.items ≡ into.old.items ++ column number }
    ensures len { array_vec_len into.new ≡ array_vec_len into.old + 11 }
{
    put(into, b" ");
    put_right(into, number);
}

/// Appends what the numbers of a row say.
fn put_figures(into: &mut Buffer, figures: Figures)
    requires room { HasRoom into.old.items 44 }
    requires told { IsTold figures }
    ensures items { into.new.items ≡ into.old.items ++ column figures.count ++ column figures.sum ++ column figures.least ++ column figures.most }
    ensures len { array_vec_len into.new ≡ array_vec_len into.old + 44 }
{
    put_column(into, figures.count);
    put_column(into, figures.sum);
    put_column(into, figures.least);
    put_column(into, figures.most);
}

/// Appends the end of a row, which takes no room where no texts are told.
fn put_end<C: Codes>(into: &mut Buffer, pc: u16, codes: &C, origins: &Origins)
    requires { HasRoom into.old.items 320 }
    ensures items { into.new.items ≡ into.old.items ++ source_end origins.now (C.code codes.now pc).latch pc (C.code codes.now pc).bytes }
    ensures len { array_vec_len into.new ≤ array_vec_len into.old + end_room origins.now.texts }
{
    codes.put_end(origins, pc, into);
}

/// Writes the row of an address into an empty buffer, or nothing where no step began there.
fn put_row<C: Codes>(into: &mut Buffer, pc: u16, codes: &C, origins: &Origins, steps: Figures)
    requires empty { into.old.items ≡ [] }
    requires told { IsTold steps }
    ensures items { (cycles : List ℕ) → steps ≡ figures_of cycles → into.new.items ≡ row_text origins.now pc (C.code codes.now pc) cycles }
    ensures len { array_vec_len into.new ≤ row_room origins.now }
{
    if steps.count == 0 {
        return;
    }
    put(into, &hex4(pc));
    put(into, b" ");
    codes.put_code(pc, into);
    put_figures(into, steps);
    codes.put_words(pc, into);
    put_end(into, pc, codes, origins);
    put(into, b"\n");
}

/// Appends hundredths as a number with two places.
fn put_places(into: &mut Buffer, hundredths: u64)
    requires { HasRoom into.old.items 121 }
    ensures items { into.new.items ≡ into.old.items ++ places_text hundredths }
    ensures len { array_vec_len into.new ≤ array_vec_len into.old + 121 }
{
    put_number(into, hundredths / 100);
    put(into, b".");
    put_number(into, hundredths % 100 / 10);
    put_number(into, hundredths % 10);
}

/// Writes the line of all steps into an empty buffer.
fn put_steps(into: &mut Buffer, counts: &Counts)
    requires empty { into.old.items ≡ [] }
    requires count { IsCount counts.now }
    ensures items { (points : List Point) → Counted counts.now points → into.new.items ≡ steps_line points }
    ensures len { array_vec_len into.new ≤ 185 }
{
    let last = counts.last_cycle();
    put(into, b"steps ");
    put_number(into, counts.count);
    put(into, b" cycles ");
    put_number(into, last - counts.first);
    put(into, b" from ");
    put_number(into, counts.first);
    put(into, b" to ");
    put_number(into, last);
    put(into, b"\n");
}

/// Appends the line of the frames, by how many points lie in each.
fn put_frames(into: &mut Buffer, points: Figures)
    requires room { HasRoom into.old.items 275 }
    requires few { points.sum ≤ most_number }
    ensures items { into.new.items ≡ into.old.items ++ frames_text points.count points.sum points.least points.most }
    ensures len { array_vec_len into.new ≤ array_vec_len into.old + 275 }
{
    put(into, b"frames ");
    put_number(into, points.count);
    put(into, b" points least ");
    put_number(into, points.least);
    put(into, b" mean ");
    put_places(into, points.hundredths());
    put(into, b" most ");
    put_number(into, points.most);
    put(into, b"\n");
}

/// Appends the line above the rows.
fn put_heading<C: Codes>(into: &mut Buffer, codes: &C)
    requires { HasRoom into.old.items 60 }
    ensures items { into.new.items ≡ into.old.items ++ heading C.title }
    ensures len { array_vec_len into.new ≤ array_vec_len into.old + 60 }
{
    put(into, b"pc   ");
    codes.put_title(into);
    put(into, b"      steps     cycles      least       most\n");
}

/// Writes the lines before the rows into an empty buffer.
fn put_head<C: Codes>(into: &mut Buffer, counts: &Counts, codes: &C)
    requires empty { into.old.items ≡ [] }
    requires count { IsCount counts.now }
    ensures items { (points : List Point) → Counted counts.now points → into.new.items ≡ steps_line points ++ frames_line (frame_points points) ++ heading C.title }
    ensures len { array_vec_len into.new ≤ 1_024 }
{
    put_steps(into, counts);
    put_frames(into, counts.frames.whole(counts.last_cycle()));
    put_heading(into, codes);
}

/// Appends a piece of text for which there is room.
fn append(text: &mut Vec<u8>, piece: &[u8])
    requires { length text.old.items + length piece.now ≤ vec_capacity text.old }
    ensures items { text.new.items ≡ text.old.items ++ piece.now }
    ensures room { vec_capacity text.old ≤ vec_capacity text.new }
{
    text.extend_from_slice(piece).unwrap();
}

/// Appends the line that shows a label, with what is said of its rows in place of its newline.
fn append_line(text: &mut Vec<u8>, line: &[u8], sums: &[u8])
    requires { length text.old.items + (length line.now + length sums.now) ≤ vec_capacity text.old }
    ensures items { text.new.items ≡ text.old.items ++ (take (length line.now - 1) line.now ++ sums.now) }
    ensures room { vec_capacity text.old ≤ vec_capacity text.new }
{
    append(text, &line[..line.len().saturating_sub(1)]);
    append(text, sums);
}

/// Appends the lines of the labels of an address, if there is one, with sums.
fn append_sums(text: &mut Vec<u8>, origins: &Origins, label: Option<u16>, sums: &Sums)
    requires { length text.old.items + option_map_or (λ address. lines_room (label_lines origins.now.labels address)) label 0 ≤ vec_capacity text.old }
    ensures items { (cycles : List ℕ) → IsSum sums.now cycles → text.new.items ≡ text.old.items ++ sum_lines origins.now label cycles }
    ensures room { vec_capacity text.old ≤ vec_capacity text.new }
    ensures len { length text.new.items ≤ length text.old.items + option_map_or (λ address. lines_room (label_lines origins.now.labels address)) label 0 }
{
    let Some(address) = label else {
        return;
    };
    let mut end = Buffer::new();
    put_sums(&mut end, sums);
    for line in origins.labels().lines_at(address) {
        append_line(text, line, end.as_slice());
    }
}

/// Appends the row of an address at which a step began, behind the sums that stand before it, by where the row before it belongs; and answers where this
/// one does. It is written over what `line` has.
fn append_row<C: Codes>(
    text: &mut Vec<u8>,
    line: &mut Buffer,
    counts: &Counts,
    codes: &C,
    origins: &Origins,
    before: Option<u16>,
    pc: u16,
) -> Option<u16>
    requires count { IsCount counts.now }
    requires room { (most : ℕ) × AreWithin origins.now.labels most × (length text.old.items + row_room origins.now + most ≤ vec_capacity text.old) }
    ensures label { (code : ℕ → Code) → IsShown (C.code codes.now) code → result ≡ label_of origins.now code pc }
    ensures items { (points : List Point) (code : ℕ → Code) → Counted counts.now points → IsShown (C.code codes.now) code → text.new.items ≡ text.old.items ++ (sums_before origins.now code points before pc (rows_from points (pc + 1)) ++ row_text origins.now pc (code pc) (cycles_at points pc)) }
    ensures room { vec_capacity text.old ≤ vec_capacity text.new }
    ensures len { (most : ℕ) → AreWithin origins.now.labels most → length text.new.items ≤ length text.old.items + row_room origins.now + most }
{
    let label = label_of(codes, origins, pc);
    if label != before {
        let sums = sums_under(counts, codes, origins, label, pc);
        append_sums(text, origins, label, &sums);
    }
    line.clear();
    put_row(line, pc, codes, origins, counts.steps[usize::from(pc)]);
    append(text, line.as_slice());
    label
}

/// Writes the text of a profile into an empty one with room for the longest.
pub(crate) fn write_text<C: Codes>(
    counts: &Counts,
    codes: &C,
    origins: &Origins,
    text: &mut Vec<u8>,
)
    requires empty { text.old.items ≡ [] }
    requires room { (most : ℕ) × IsRoomy origins.now most (vec_capacity text.old) }
    requires count { IsCount counts.now }
    ensures items { (points : List Point) (code : ℕ → Code) → Counted counts.now points → IsShown (C.code codes.now) code → text.new.items ≡ profile_text C.title origins.now code points }
    ensures room { vec_capacity text.old ≤ vec_capacity text.new }
{
    let mut line = Buffer::new();
    put_head(&mut line, counts, codes);
    append(text, line.as_slice());
    let mut before = None;
    for pc in 0..ADDRESSES {
        if counts.steps[pc].count > 0 {
            before = append_row(text, &mut line, counts, codes, origins, before, pc as u16);
        }
    }
}
