//! A word of a text.
ghost use Rattle.std.specs.Prelude.{◌≡◌, ℕ, Bool};
ghost use Rattle.text_reader.specs.Tokens.{run_of, Tells};
ghost use Rattle.text_reader.specs.declared.fault.TextFault.TheVariants.{Unexpected};

use crate::fault::TextFault;
use crate::place::Place;

/// A word lent from a text, with its place; empty where no word stands there.
#[derive(Clone, Copy)]
pub struct Word<'a> {
    pub bytes: &'a [u8],
    /// The byte at the place, unless it is the end.
    pub byte: Option<u8>,
    pub place: Place,
}

impl<'a> Word<'a> {
    /// The fault of standing where the grammar has no such word.
    pub fn unexpected(self) -> TextFault
        ensures { result ≡ Unexpected self.entry.byte self.entry.place }
    {
        TextFault::Unexpected {
            byte: self.byte,
            place: self.place,
        }
    }
}

/// The longest run of bytes of a kind that a text begins with.
pub(crate) fn run<F: Fn(u8) -> bool>(text: &[u8], kind: F) -> &[u8]
    requires { F.IsAlwaysCallable kind }
    ensures { (of_kind : ℕ → Bool) → Tells (F.post kind) of_kind → result.now ≡ run_of of_kind text.now }
{
    let end = text.iter().position(|b| !kind(*b));
    &text[..end.unwrap_or(text.len())]
}
