//! A register's record.
ghost use Rattle.std.specs.Prelude.{◌≤◌};

use columns::Columns;
use exact::RootTwoPower;

/// A register's record: the power of √2, at most 40, and the handles of the slices of each component. All four columns have
/// the same number of slices, from 1 to 22: the record's width.
#[derive(Clone, Copy, PartialEq, Eq)]
pub struct Record {
    pub power: RootTwoPower,
    pub handles: Columns<22>,
    ghost low: { power.0 ≤ 40 },
}
