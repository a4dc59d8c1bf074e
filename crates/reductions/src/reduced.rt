//! Columns with a power of √2.
use columns::Columns;
use exact::RootTwoPower;

/// Columns that stand for quadruples divided by a power of √2.
#[derive(Clone, Copy)]
pub struct Reduced {
    pub columns: Columns<24>,
    pub power: RootTwoPower,
}
