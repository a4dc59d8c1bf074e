//! The phrases of circuit text: what is read of each kind of line.
#![tactic(auto)]

mod phrases;
mod values;

pub use phrases::{opening, question, section, step};
pub use values::{Opening, Question, Step};
