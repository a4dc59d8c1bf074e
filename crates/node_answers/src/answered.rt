//! A question and its answer.
use crate::question::Question;

/// A question, the handle that answers it, and the generation in which that was found.
#[derive(Clone, Copy)]
pub struct Answered {
    pub question: Question,
    pub answer: u32,
    pub generation: u32,
}
