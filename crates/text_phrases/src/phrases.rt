//! The lines of circuit text, and what follows a question's word.
ghost use Rattle.text_words.specs.Spelling.{range_of};
ghost use Rattle.text_grammar.specs.Syntaxes as syntax;
ghost use Rattle.text_fields.specs.Reading.{Follows, Counts};
ghost use Rattle.text_phrases.specs.Values.{IsOpening, IsStep, IsQuestion};

use crate::values::{Opening, Question, Step};
use exact::QubitCount;
use text_fields::{bit, count, index, keyword, number, numbers, section_name, spaced_number};
use text_reader::{Reader, TextFault};
use text_words::{QuestionWord, Section, StepWord};

/// A section's word and count.
pub fn section(reader: &mut Reader, wanted: Section) -> Result<u32, TextFault>
    ensures { Follows (syntax.section (range_of wanted) wanted) (Counts (range_of wanted)) reader.old reader.new result }
{
    section_name(reader, wanted)?;
    reader.expect(b' ')?;
    let total = count(reader, wanted.range())?;
    reader.expect(b'\n')?;
    Ok(total)
}

/// A register and its basis index.
pub fn opening(reader: &mut Reader, qubits: QubitCount<16>) -> Result<Opening, TextFault>
    ensures { Follows (syntax.opening qubits.number) IsOpening reader.old reader.new result }
{
    let register = number(reader)?;
    reader.expect(b' ')?;
    let index = index(reader, qubits)?;
    reader.expect(b'\n')?;
    Ok(Opening { register, index })
}

/// A step's word and numbers.
pub fn step(reader: &mut Reader) -> Result<Step, TextFault>
    ensures { Follows syntax.step IsStep reader.old reader.new result }
{
    let name: StepWord = keyword(reader)?;
    let numbers = numbers(reader, name.numbers())?;
    reader.expect(b'\n')?;
    Ok(Step { name, numbers })
}

fn amp_tail(reader: &mut Reader, qubits: QubitCount<16>) -> Result<Question, TextFault>
    ensures { Follows (syntax.amp_tail qubits.number) IsQuestion reader.old reader.new result }
{
    let register = spaced_number(reader)?;
    reader.expect(b' ')?;
    let index = index(reader, qubits)?;
    reader.expect(b'\n')?;
    Ok(Question::Amp { register, index })
}

fn weight_tail(reader: &mut Reader) -> Result<Question, TextFault>
    ensures { Follows syntax.weight_tail IsQuestion reader.old reader.new result }
{
    let register = spaced_number(reader)?;
    let qubit = spaced_number(reader)?;
    reader.expect(b' ')?;
    let outcome = bit(reader)?;
    reader.expect(b'\n')?;
    Ok(Question::Weight {
        register,
        qubit,
        outcome,
    })
}

fn same_tail(reader: &mut Reader) -> Result<Question, TextFault>
    ensures { Follows syntax.same_tail IsQuestion reader.old reader.new result }
{
    let first = spaced_number(reader)?;
    let second = spaced_number(reader)?;
    reader.expect(b'\n')?;
    Ok(Question::Same { first, second })
}

/// A question's word and what it asks about.
pub fn question(reader: &mut Reader, qubits: QubitCount<16>) -> Result<Question, TextFault>
    ensures { Follows (syntax.question qubits.number) IsQuestion reader.old reader.new result }
{
    match keyword(reader)? {
        QuestionWord::Amp => amp_tail(reader, qubits),
        QuestionWord::Weight => weight_tail(reader),
        QuestionWord::Same => same_tail(reader),
    }
}
