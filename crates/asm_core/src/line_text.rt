//! The text of a line of a source, as it is shown.

ghost use Rattle.std.specs.Prelude.{◌≤◌, vec_len};

/// The text of a line of a source, without the blanks around it.
#[derive(Drop)]
pub(crate) struct LineText {
    pub bytes: Vec<u8>,
    ghost short: { vec_len bytes ≤ 255 },
}
