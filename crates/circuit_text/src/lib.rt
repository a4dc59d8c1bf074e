//! The form check of circuit text, and the lines of a text that has passed it.
#![tactic(auto)]

mod content;
mod form;
mod line;
mod lines;
mod listed;
mod reading;
mod text;

pub use form::{Form, MAX_BYTES, check_form};
pub use line::{Content, Line};
pub use lines::Lines;
pub use text::CircuitText;
