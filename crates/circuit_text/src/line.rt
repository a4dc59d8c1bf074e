//! What a line of a circuit text is.
ghost use Rattle.std.specs.Prelude.{◌≡◌, ◌+◌};
ghost use Rattle.circuit_text.specs.Columns.{after_spaces};

use text_phrases::{Opening, Question, Step};
use text_reader::Place;
use text_words::Section;

/// What a line says.
#[derive(Clone, Copy)]
pub enum Content {
    Section { section: Section, count: u32 },
    Opening(Opening),
    Step(Step),
    Question(Question),
}

/// A line lent from a text, without its end, with its number and what it says.
#[derive(Clone, Copy)]
pub struct Line<'a> {
    pub number: usize,
    pub bytes: &'a [u8],
    pub content: Content,
}

impl<'a> Line<'a> {
    /// The place of the line's word of this number, counted from 0: it stands after as many spaces.
    pub fn place(&self, nth: usize) -> Place
        ensures { result ≡ record { line = self.now.number; column = 1 + after_spaces nth self.now.bytes.now } }
    {
        Place {
            line: self.number,
            column: 1 + offset(self.bytes, nth),
        }
    }
}

/// How many bytes stand before the word that comes after `nth` spaces; all of them where there are fewer spaces.
fn offset(bytes: &[u8], nth: usize) -> usize
    ensures { result ≡ after_spaces nth bytes.now }
{
    let mut rest = bytes;
    for _ in 0..nth {
        match rest.iter().position(|b| *b == b' ') {
            Some(space) => rest = &rest[space + 1..],
            None => return bytes.len(),
        }
    }
    bytes.len() - rest.len()
}
