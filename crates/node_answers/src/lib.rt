//! Answers and counts that are remembered over a diagram.
#![tactic(auto)]

mod answered;
mod counting;
mod counts;
mod question;
mod remembered;
mod remembering;

pub use answered::Answered;
pub use counts::{Counted, Counts};
pub use question::{Fixing, Question};
pub use remembered::Remembered;
