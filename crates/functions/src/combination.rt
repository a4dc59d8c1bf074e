//! A combination of three functions.

/// Three handles, and the rule that combines what they stand for.
#[derive(Clone, Copy, Default, PartialEq, Eq)]
pub struct Combination {
    pub rule: u8,
    pub f: u32,
    pub g: u32,
    pub h: u32,
}
