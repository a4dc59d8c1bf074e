//! What is asked of a diagram.
use functions::Combination;

/// A handle with the qubit of a height set to a bit.
#[derive(Clone, Copy, PartialEq, Eq)]
pub struct Fixing {
    pub f: u32,
    pub height: u32,
    pub bit: bool,
}

/// A function that is asked for by handles.
#[derive(Clone, Copy, PartialEq, Eq)]
pub enum Question {
    Combined(Combination),
    Fixed(Fixing),
}
