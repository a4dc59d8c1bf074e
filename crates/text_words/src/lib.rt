//! The words that name the sections, steps and questions of circuit text, told from their bytes.
#![tactic(auto)]

mod spelling;

pub use spelling::{CountRange, Keyword, QuestionWord, Section, StepWord};
