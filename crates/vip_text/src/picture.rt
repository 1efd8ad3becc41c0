//! A picture as a PBM file.

ghost use Rattle.std.specs.Prelude.{◌≡◌, []};
ghost use Rattle.arrayvec.specs.ArrayVec.{array_vec_len};
ghost use Rattle.vip_text.specs.Screens.{picture_file};

use vip_byte::{Buffer, put};
use vip_video::Picture;

/// The bytes of a picture as PBM: a header of 10, and 128 lines of 8.
pub const PICTURE_SIZE: usize = 10 + 128 * 8;

/// Writes a picture into an empty buffer as PBM in form P4.
pub fn picture_text(picture: &Picture, into: &mut Buffer)
    requires { into.old.items ≡ [] }
    ensures file { into.new.items ≡ picture_file picture.now.lines }
    ensures size { array_vec_len into.new ≡ PICTURE_SIZE }
{
    put(into, b"P4\n64 128\n");
    for line in &picture.lines {
        put(into, line);
    }
}
