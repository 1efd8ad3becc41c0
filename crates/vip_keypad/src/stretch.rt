//! A stretch of machine cycles.

ghost use Rattle.std.specs.Prelude.{◌≤◌, ◌<◌, ◌↔◌, IsTrue};

use crate::key_set::KeySet;

/// The same keys are held down in each machine cycle from the first of two up to the second one, which is no longer in the stretch.
#[derive(Clone, Copy)]
pub struct Stretch {
    pub from: u64,
    pub until: u64,
    pub keys: KeySet,
}

impl Stretch {
    /// A stretch without a cycle.
    pub fn empty() -> Stretch
        ensures { result.until ≤ result.from }
    {
        Stretch {
            from: 0,
            until: 0,
            keys: KeySet::empty(),
        }
    }

    /// Whether cycle t is in it.
    pub fn contains(&self, t: u64) -> bool
        ensures { IsTrue result ↔ ((self.now.from ≤ t) × (t < self.now.until)) }
    {
        self.from <= t && t < self.until
    }
}
