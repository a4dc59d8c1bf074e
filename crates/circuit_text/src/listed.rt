//! The lines of which a section has as many as it counts.
ghost use Rattle.std.specs.Prelude.{ℕ};
ghost use Rattle.text_grammar.specs.Circuits as circuit;
ghost use Rattle.text_grammar.specs.Syntaxes as syntax;
ghost use Rattle.text_fields.specs.Reading.{Follows};
ghost use Rattle.text_phrases.specs.Values.{IsOpening, IsStep, IsQuestion};

use exact::QubitCount;
use text_phrases::{Opening, Question, Step, opening, question, step};
use text_reader::{Reader, TextFault};

/// A line that a section lists.
pub(crate) trait Listed: Sized + Drop {
    // what such lines stand for
    ghost Value: { Type 0 };

    // how one is written where there are n qubits
    ghost phrase: { ℕ → (Value → syntax.Syntax) → syntax.Syntax };

    // what one that was read stands for
    ghost means: { Self → Value → Type 0 };

    /// Reads one.
    fn read(reader: &mut Reader, qubits: QubitCount<16>) -> Result<Self, TextFault>
        ensures { Follows (phrase qubits.number) means reader.old reader.new result };
}

impl Listed for Opening {
    ghost Value = { circuit.Opening };

    ghost phrase = { syntax.opening };

    ghost means = { IsOpening };

    fn read(reader: &mut Reader, qubits: QubitCount<16>) -> Result<Opening, TextFault> {
        opening(reader, qubits)
    }
}

impl Listed for Step {
    ghost Value = { circuit.Step };

    ghost phrase = { λ n. syntax.step };

    ghost means = { IsStep };

    fn read(reader: &mut Reader, _qubits: QubitCount<16>) -> Result<Step, TextFault> {
        step(reader)
    }
}

impl Listed for Question {
    ghost Value = { circuit.Question };

    ghost phrase = { syntax.question };

    ghost means = { IsQuestion };

    fn read(reader: &mut Reader, qubits: QubitCount<16>) -> Result<Question, TextFault> {
        question(reader, qubits)
    }
}
