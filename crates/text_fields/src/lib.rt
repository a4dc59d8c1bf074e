//! The fields of a line of circuit text: each function reads one, or names the first token that does not fit.
#![tactic(auto)]

ghost use Rattle.std.specs.Prelude.{◌≤◌};
ghost use Rattle.std.specs.Fn.{FnOnceReturnsAt};
ghost use Rattle.text_words.specs.Spelling.{named};
ghost use Rattle.text_grammar.specs.Syntaxes as syntax;
ghost use Rattle.text_fields.specs.Reading.{Follows, Told, Is, IsNothing, Counts, IsIndex, IsNumbers};

use exact::QubitCount;
use text_numbers::{basis_index, whole_number};
use text_reader::{Reader, TextFault};
use text_words::{CountRange, Keyword, Section};

/// What `read` tells of the word that stands here; a word of which it tells nothing is a fault.
fn told<T, F: FnOnce(&[u8]) -> Option<T>>(reader: &mut Reader, read: F) -> Result<T, TextFault>
    requires { F.IsAlwaysCallable read }
    ensures { Told (FnOnceReturnsAt F.FnOnce read) reader.old reader.new result }
{
    let word = reader.word();
    read(word.bytes).ok_or(word.unexpected())
}

/// A whole number.
pub fn number(reader: &mut Reader) -> Result<u32, TextFault>
    ensures { Follows syntax.number Is reader.old reader.new result }
{
    told(reader, whole_number)
}

/// A space and a whole number.
pub fn spaced_number(reader: &mut Reader) -> Result<u32, TextFault>
    ensures { Follows syntax.spaced_number Is reader.old reader.new result }
{
    reader.expect(b' ')?;
    number(reader)
}

/// A section's count, which has to be in this range.
pub fn count(reader: &mut Reader, range: CountRange) -> Result<u32, TextFault>
    ensures { Follows (syntax.count range) (Counts range) reader.old reader.new result }
{
    let word = reader.word();
    match whole_number(word.bytes) {
        Some(n) if range.least <= n && n <= range.most => Ok(n),
        Some(n) => Err(TextFault::OutOfRange {
            count: n,
            place: word.place,
        }),
        None => Err(word.unexpected()),
    }
}

/// The word of this section.
// Tried: `told` with a closure that compares; the proof did not close.
pub fn section_name(reader: &mut Reader, wanted: Section) -> Result<(), TextFault>
    ensures { Follows (syntax.section_name wanted) IsNothing reader.old reader.new result }
{
    let word = reader.word();
    if Section::named(word.bytes) == Some(wanted) {
        Ok(())
    } else {
        Err(word.unexpected())
    }
}

/// A basis index of so many qubits.
pub fn index(reader: &mut Reader, qubits: QubitCount<16>) -> Result<u32, TextFault>
    ensures { Follows (syntax.index qubits.number) IsIndex reader.old reader.new result }
{
    told(reader, |word| basis_index(word, qubits))
}

/// A bit.
pub fn bit(reader: &mut Reader) -> Result<bool, TextFault>
    ensures { Follows syntax.bit Is reader.old reader.new result }
{
    told(
        reader,
        |word| basis_index(word, QubitCount { number: 1 }).map(|index| index == 1),
    )
}

/// A word that names something, as that of a step or of a question.
// Tried: `told(reader, K::named)`; no proof is made of a function whose result is a type parameter of the caller.
pub fn keyword<K: Keyword>(reader: &mut Reader) -> Result<K, TextFault>
    ensures { (any : K) → Follows (syntax.telling (named K.spelling K.all) any) Is reader.old reader.new result }
{
    let word = reader.word();
    K::named(word.bytes).ok_or(word.unexpected())
}

/// So many whole numbers, each after a space; places beyond them are 0.
pub fn numbers(reader: &mut Reader, total: u32) -> Result<[u32; 4], TextFault>
    requires { total ≤ 4 }
    ensures { Follows (syntax.several syntax.spaced_number total) IsNumbers reader.old reader.new result }
{
    let mut numbers = [0; 4];
    for number in &mut numbers[..total as usize] {
        *number = spaced_number(reader)?;
    }
    Ok(numbers)
}
