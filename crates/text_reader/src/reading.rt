//! How a reader moves on.
ghost use Rattle.std.specs.Prelude.{◌≡◌, []};
ghost use Rattle.text_reader.specs.Tokens.{first_word, first_line};
ghost use Rattle.text_reader.specs.Places.{place_after};
ghost use Rattle.text_reader.specs.Reading.{text_of, rest, standing, first_byte, unexpected_at, Lent, Passed, Ended};

use crate::fault::TextFault;
use crate::place::Place;
use crate::reader::Reader;
use crate::word::{Word, run};

impl<'a> Reader<'a> {
    /// Stands at the start of the text.
    pub fn new(text: &'a [u8]) -> Reader<'a>
        ensures same { text_of result ≡ text.now }
        ensures whole { rest result ≡ text.now }
        ensures start { standing result ≡ place_after [] }
    {
        Reader {
            text,
            pos: 0,
            place: Place { line: 1, column: 1 },
        }
    }

    /// The place where it stands.
    pub fn place(&self) -> Place
        ensures { result ≡ standing self.now }
    {
        self.place
    }

    /// Lends the word that stands here, and stays.
    pub fn peek(&self) -> &'a [u8]
        ensures { result.now ≡ first_word (rest self.now) }
    {
        run(self.left(), |byte| byte != b'\n' && byte != b' ')
    }

    /// Lends the word that stands here, and stands after it.
    pub fn word(&mut self) -> Word<'a>
        ensures { Lent self.old self.new result }
    {
        let bytes = self.peek();
        let byte = self.byte();
        let place = self.place;
        self.place.column += bytes.len();
        self.pos += bytes.len();
        Word { bytes, byte, place }
    }

    /// Lends what is left of the line, without its end, and stays.
    pub fn line(&self) -> &'a [u8]
        ensures { result.now ≡ first_line (rest self.now) }
    {
        run(self.left(), |byte| byte != b'\n')
    }

    /// Passes this byte, or stays where it does not stand here.
    pub fn expect(&mut self, byte: u8) -> Result<(), TextFault>
        ensures { Passed byte self.old self.new result }
    {
        if self.byte() == Some(byte) {
            self.place = self.place.past(byte);
            self.pos += 1;
            Ok(())
        } else {
            Err(self.unexpected())
        }
    }

    /// Nothing is left.
    pub fn end(&self) -> Result<(), TextFault>
        ensures { Ended self.now result }
    {
        if self.left().is_empty() {
            Ok(())
        } else {
            Err(self.unexpected())
        }
    }

    /// What is left of the text.
    fn left(&self) -> &'a [u8]
        ensures { result.now ≡ rest self.now }
    {
        &self.text[self.pos..]
    }

    /// The byte that it stands before, unless it is the end.
    fn byte(&self) -> Option<u8>
        ensures { result ≡ first_byte (rest self.now) }
    {
        self.left().first().copied()
    }

    /// The fault of what stands here.
    fn unexpected(&self) -> TextFault
        ensures { result ≡ unexpected_at self.now }
    {
        TextFault::Unexpected {
            byte: self.byte(),
            place: self.place,
        }
    }
}
