//! A screen as text.

ghost use Rattle.std.specs.Prelude.{◌≡◌, ◌+◌, ◌*◌, ◌/◌, ◌%◌, ◌≤◌, ◌<◌, ◌++◌, [], length};
ghost use Rattle.arrayvec.specs.ArrayVec.{array_vec_len};
ghost use Rattle.vip_byte.specs.Room.{HasRoom};
ghost use Rattle.vip_text.specs.Screens.{dot, pixels_of, row_text, rows_text};

use vip_byte::Buffer;

/// The bytes of a row.
pub const ROW_SIZE: usize = 8;

/// The pixels of a row.
pub const WIDTH: usize = 64;

/// Writes a screen of at most 64 rows, 8 bytes each, into an empty buffer: a line of 64 characters a row, `#` for a lit pixel and `.` for
/// the others.
pub fn screen_text(rows: &[u8], into: &mut Buffer)
    requires whole { length rows.now % 8 ≡ 0 }
    requires few { length rows.now ≤ 512 }
    requires empty { into.old.items ≡ [] }
    ensures { into.new.items ≡ rows_text rows.now }
{
    for y in 0..rows.len() / ROW_SIZE {
        put_row(rows, y, into);
    }
}

/// Appends the line of row y.
fn put_row(rows: &[u8], y: usize, into: &mut Buffer)
    requires row { 8 * y + 8 ≤ length rows.now }
    requires room { HasRoom into.old.items 65 }
    ensures items { into.new.items ≡ into.old.items ++ row_text (pixels_of rows.now) y }
    ensures len { array_vec_len into.new ≡ array_vec_len into.old + 65 }
{
    for x in 0..WIDTH {
        into.push(character(is_lit(rows, x, y)));
    }
    into.push(b'\n');
}

fn character(lit: bool) -> u8
    ensures { result ≡ dot lit }
{
    if lit { b'#' } else { b'.' }
}

/// Whether pixel (x, y) of a screen with 8 bytes a row is lit.
pub fn is_lit(rows: &[u8], x: usize, y: usize) -> bool
    requires column { x < 64 }
    requires row { 8 * y + 8 ≤ length rows.now }
    ensures { result ≡ pixels_of rows.now x y }
{
    (rows[ROW_SIZE * y + x / 8] >> (7 - x % 8)) % 2 == 1
}
