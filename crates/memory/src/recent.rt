//! The combinations remembered last, in a ring.
ghost use Rattle.std.specs.Prelude.{◌≡◌, ◌<◌, ◌≤◌, length};

use crate::entry::Remembered;
use arrayvec::ArrayVec;

// How many combinations are remembered.
pub(crate) const MOST: usize = 64;

/// At most 64 remembered combinations. When there are so many, a new one takes the place of the oldest.
#[derive(Drop)]
pub struct Recent {
    pub(crate) entries: ArrayVec<Remembered, MOST>,
    // The place of the oldest, once all places are taken.
    pub(crate) oldest: usize,
    ghost within: { length entries.items ≤ 64 },
    ghost slot: { oldest < 64 },
    ghost in_turn: { length entries.items < 64 → oldest ≡ 0 },
}
