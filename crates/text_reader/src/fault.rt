//! Why a text is refused.
ghost use Rattle.std.specs.Prelude.{◌≡◌, Some};
ghost use Rattle.text_reader.specs.Faults.{number_of, value_of, place_of, refusal_text};

use crate::place::Place;
use std::fmt;

/// A fault of a text's form.
#[derive(Clone, Copy)]
pub enum TextFault {
    /// The text has more bytes than a circuit text may have.
    TooLong { length: usize },
    /// No circuit text goes on with what stands at this place: it begins with this byte, or is the end.
    Unexpected { byte: Option<u8>, place: Place },
    /// The count at this place is not one that its section may have.
    OutOfRange { count: u32, place: Place },
}

impl TextFault {
    /// The number of the refusal.
    pub fn number(self) -> u32
        ensures { result ≡ number_of self }
    {
        match self {
            TextFault::TooLong { .. } => 12,
            TextFault::Unexpected { .. } => 13,
            TextFault::OutOfRange { .. } => 14,
        }
    }

    /// The offending value: the text's length, the byte (0 at the end) or the count.
    pub fn value(self) -> usize
        ensures { result ≡ value_of self }
    {
        match self {
            TextFault::TooLong { length } => length,
            TextFault::Unexpected { byte, .. } => byte.map_or(0, usize::from),
            TextFault::OutOfRange { count, .. } => count as usize,
        }
    }

    /// Where the fault stands; a text that is too long is refused at its start.
    pub fn place(self) -> Place
        ensures { result ≡ place_of self }
    {
        match self {
            TextFault::TooLong { .. } => Place { line: 1, column: 1 },
            TextFault::Unexpected { place, .. } => place,
            TextFault::OutOfRange { place, .. } => place,
        }
    }
}

impl fmt::Display for TextFault {
    ghost output = { λ e. Some (refusal_text e) };

    fn fmt<W: fmt::Write>(&self, f: &mut fmt::Formatter<W>) -> fmt::Result {
        let number = self.number();
        let place = self.place();
        write!(f, "refused {number} {place}")
    }
}
