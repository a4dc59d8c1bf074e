//! A place in a text.
ghost use Rattle.std.specs.Prelude.{◌≡◌, ◌+◌, ◌^◌, ◌<◌, Some};
ghost use Rattle.text_reader.specs.Places.{moved, place_text};

use std::fmt;

/// A line and a column, both counted from 1; columns count bytes.
#[derive(Clone, Copy)]
pub struct Place {
    pub line: usize,
    pub column: usize,
}

impl Place {
    /// The place after a byte that stands here.
    pub(crate) fn past(self, byte: u8) -> Place
        requires { (self.line + 1 < 2 ^ 64) × (self.column + 1 < 2 ^ 64) }
        ensures { result ≡ moved byte self }
    {
        if byte == b'\n' {
            Place {
                line: self.line + 1,
                column: 1,
            }
        } else {
            Place {
                line: self.line,
                column: self.column + 1,
            }
        }
    }
}

impl fmt::Display for Place {
    ghost output = { λ p. Some (place_text p) };

    fn fmt<W: fmt::Write>(&self, f: &mut fmt::Formatter<W>) -> fmt::Result {
        let Place { line, column } = *self;
        write!(f, "{line} {column}")
    }
}
