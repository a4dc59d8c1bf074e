//! What the line says before which a reader stands.
ghost use Rattle.circuit_text.specs.Lines.{BeforeLine, ContentRead};

use crate::line::Content;
use exact::QubitCount;
use text_phrases::{opening, question, section, step};
use text_reader::Reader;
use text_words::{Keyword, QuestionWord, Section, StepWord};

/// Reads the line, which no fault can stop: its first word tells what it is, and a number begins an opening.
pub(crate) fn content(reader: &mut Reader, qubits: QubitCount<16>) -> Content
    requires { BeforeLine qubits.number reader.old }
    ensures { (h : BeforeLine qubits.number reader.old) → ContentRead reader.old reader.new h.line h.more result }
{
    let word = reader.peek();
    if let Some(named) = Section::named(word) {
        let count = section(reader, named).unwrap();
        Content::Section {
            section: named,
            count,
        }
    } else if StepWord::named(word).is_some() {
        Content::Step(step(reader).unwrap())
    } else if QuestionWord::named(word).is_some() {
        Content::Question(question(reader, qubits).unwrap())
    } else {
        Content::Opening(opening(reader, qubits).unwrap())
    }
}
