//! Four columns of slices.
ghost use Rattle.std.specs.Prelude.{◌≡◌, ◌≤◌, length};

use crate::Column;

/// The handles of four columns of slices, one column for each component of a quadruple. All four have the same number of
/// slices, from 1 to N, and N is at most 24.
#[derive(Clone, Copy, PartialEq, Eq)]
pub struct Columns<const N: usize> {
    pub a: Column<N>,
    pub b: Column<N>,
    pub c: Column<N>,
    pub d: Column<N>,
    ghost most: { N ≤ 24 },
    ghost some: { 1 ≤ length a },
    ghost few: { length a ≤ N },
    ghost level: { (length b ≡ length a) × (length c ≡ length a) × (length d ≡ length a) },
}
