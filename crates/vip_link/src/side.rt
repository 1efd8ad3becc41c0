//! The two boards of a link.

/// One of the two boards. A schedule is a list of sides.
#[derive(Clone, Copy)]
pub enum Side {
    A,
    B,
}
