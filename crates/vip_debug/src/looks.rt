//! How answers are shown.

use asm_core::Origins;
use vip_text::TraceColumns;

/// How the answers of a machine that runs a game are shown.
#[derive(Drop)]
pub struct Looks {
    /// What the lines of dispatch points have besides the states; `state` has their time always.
    pub columns: TraceColumns,
    /// What the source gave, whose labels stand before what is shown of their bytes, and its lines, where they are told, behind it.
    pub origins: Origins,
}
