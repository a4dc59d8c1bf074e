//! The words that name sections, steps and questions.
ghost use Rattle.std.specs.Prelude.{◌≡◌, ℕ, List};
ghost use Rattle.text_words.specs.Spelling.{named, section_word, sections, step_word, steps, question_word, questions, numbers_of, range_of};

use gates::Gate;

/// What words of one kind name.
pub trait Keyword: Sized {
    // how each of them is spelled
    ghost spelling: { Self → List ℕ };

    // all that have a word
    ghost all: { List Self };

    /// What this word names.
    fn named(word: &[u8]) -> Option<Self>
        ensures { result ≡ named spelling all word.now };
}

/// A section of a circuit text, named by the word before its count.
#[derive(Clone, Copy, PartialEq, Eq)]
pub enum Section {
    Qubits,
    Opens,
    Steps,
    Reads,
}

/// The least and the most that a section may count.
#[derive(Clone, Copy)]
pub struct CountRange {
    pub least: u32,
    pub most: u32,
}

/// The word that a step begins with.
#[derive(Clone, Copy)]
pub enum StepWord {
    Gate(Gate),
    Copy,
    Close,
}

/// The word that a question begins with.
#[derive(Clone, Copy)]
pub enum QuestionWord {
    Amp,
    Weight,
    Same,
}

impl Keyword for Section {
    ghost spelling = { section_word };

    ghost all = { sections };

    fn named(word: &[u8]) -> Option<Section> {
        match word {
            b"qubits" => Some(Section::Qubits),
            b"opens" => Some(Section::Opens),
            b"steps" => Some(Section::Steps),
            b"reads" => Some(Section::Reads),
            _ => None,
        }
    }
}

impl Section {
    /// The counts that the section may have.
    pub fn range(self) -> CountRange
        ensures { result ≡ range_of self }
    {
        match self {
            Section::Qubits => CountRange { least: 1, most: 16 },
            Section::Opens => CountRange { least: 0, most: 4 },
            Section::Steps => CountRange {
                least: 0,
                most: 2000,
            },
            Section::Reads => CountRange {
                least: 0,
                most: 100,
            },
        }
    }
}

impl Keyword for StepWord {
    ghost spelling = { step_word };

    ghost all = { steps };

    fn named(word: &[u8]) -> Option<StepWord> {
        match word {
            b"x" => Some(StepWord::Gate(Gate::X)),
            b"z" => Some(StepWord::Gate(Gate::Z)),
            b"h" => Some(StepWord::Gate(Gate::H)),
            b"s" => Some(StepWord::Gate(Gate::S)),
            b"t" => Some(StepWord::Gate(Gate::T)),
            b"rx" => Some(StepWord::Gate(Gate::Rx)),
            b"ry" => Some(StepWord::Gate(Gate::Ry)),
            b"cx" => Some(StepWord::Gate(Gate::Cx)),
            b"cz" => Some(StepWord::Gate(Gate::Cz)),
            b"ccx" => Some(StepWord::Gate(Gate::Ccx)),
            b"copy" => Some(StepWord::Copy),
            b"close" => Some(StepWord::Close),
            _ => None,
        }
    }
}

impl StepWord {
    /// How many numbers follow the word, at most 4: a gate's register and qubits, or a step's registers.
    pub fn numbers(self) -> u32
        ensures { result ≡ numbers_of self }
    {
        match self {
            StepWord::Gate(gate) => 1 + gate.arity(),
            StepWord::Copy => 2,
            StepWord::Close => 1,
        }
    }
}

impl Keyword for QuestionWord {
    ghost spelling = { question_word };

    ghost all = { questions };

    fn named(word: &[u8]) -> Option<QuestionWord> {
        match word {
            b"amp" => Some(QuestionWord::Amp),
            b"weight" => Some(QuestionWord::Weight),
            b"same" => Some(QuestionWord::Same),
            _ => None,
        }
    }
}
