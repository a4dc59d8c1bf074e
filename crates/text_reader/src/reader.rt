//! Where a reader stands in its text.
ghost use Rattle.std.specs.Prelude.{◌≡◌, ◌^◌, ◌<◌, ◌≤◌, length, take};
ghost use Rattle.text_reader.specs.Places.{place_after};

use crate::place::Place;

/// A reader over the bytes of a text. It stands before one of them, or at the end, and knows the place.
// Text and position, and not only what is left: the contracts say where in the whole text a reader stands.
#[derive(Drop)]
pub struct Reader<'a> {
    pub(crate) text: &'a [u8],
    pub(crate) pos: usize,
    pub(crate) place: Place,
    ghost sized: { length text.now < 2 ^ 63 },
    ghost within: { pos ≤ length text.now },
    ghost lines: { place.line ≡ (place_after (take pos text.now)).line },
    ghost columns: { place.column ≡ (place_after (take pos text.now)).column },
}
