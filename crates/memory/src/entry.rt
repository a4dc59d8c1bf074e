//! A remembered combination.
use functions::Combination;

/// An accepted combination and the handle that it was answered with.
#[derive(Clone, Copy, Default)]
pub struct Remembered {
    pub combination: Combination,
    pub answer: u32,
}
