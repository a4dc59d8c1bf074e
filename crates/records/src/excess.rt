//! Why columns have no record.
use exact::{RootTwoPower, SliceCount};

/// Columns in normal form that no record can hold.
#[derive(Clone, Copy)]
pub enum Excess {
    /// The power is above 40.
    Power(RootTwoPower),
    /// The power is not, but the width is above 22.
    Width(SliceCount),
}
