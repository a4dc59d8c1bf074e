//! Records of registers: columns trimmed to the least width, in fixed places.
#![tactic(auto)]

ghost use Rattle.std.specs.Prelude.{◌≡◌, ◌+◌, ◌<◌, ◌≤◌, length, Decides};
ghost use Rattle.records.specs.Records.{same_handles, all_same_handles, LeastWidth, CutTo, ColumnsTrimmed, Widened};

use columns::{Column, Columns};
use exact::{RootTwoPower, SliceCount};

mod excess;
mod record;

pub use excess::Excess;
pub use record::Record;

/// Whether slices j and j + 1 of a column have the same handle.
fn same_next(column: &Column<24>, j: usize) -> bool
    requires { j + 1 < length column.now }
    ensures { result ≡ same_handles column.now j }
{
    let slices = column.as_slice();
    slices[j] == slices[j + 1]
}

/// Whether slices j and j + 1 have the same handle in all four columns.
fn same_slices(columns: &Columns<24>, j: usize) -> bool
    requires { j + 1 < length columns.now.a }
    ensures { result ≡ all_same_handles columns.now j }
{
    same_next(&columns.a, j)
        && same_next(&columns.b, j)
        && same_next(&columns.c, j)
        && same_next(&columns.d, j)
}

/// The least width: while in all four columns the top slice equals the next, it goes.
fn least_width(columns: &Columns<24>) -> SliceCount
    ensures some { 1 ≤ result.0 }
    ensures few { result.0 ≤ length columns.now.a }
    ensures least { LeastWidth columns.now result.0 }
{
    for top in (1..columns.slices().0).rev() {
        if !same_slices(columns, top as usize - 1) {
            return SliceCount(top + 1);
        }
    }
    SliceCount(1)
}

impl Record {
    /// The record of the lowest slices of columns.
    pub fn cut(columns: &Columns<24>, power: RootTwoPower, width: SliceCount) -> Record
        requires low { power.0 ≤ 40 }
        requires some { 1 ≤ width.0 }
        requires few { width.0 ≤ 22 }
        ensures { CutTo columns.now power width result }
    {
        Record {
            power,
            handles: columns.lowest(width),
        }
    }

    /// The record of columns with a power, trimmed to the least width; or which of the two is too large.
    pub fn trimmed(columns: &Columns<24>, power: RootTwoPower) -> Result<Record, Excess>
        ensures { ColumnsTrimmed columns.now power.0 result }
    {
        let width = least_width(columns);
        if power.0 > 40 {
            return Err(Excess::Power(power));
        }
        if width.0 > 22 {
            return Err(Excess::Width(width));
        }
        Ok(Record::cut(columns, power, width))
    }

    /// Whether two records are equal: power, width and every handle.
    // `==` with a contract: what `==` itself ensures speaks of the places of columns.
    pub fn same(&self, other: &Record) -> bool
        ensures { Decides result (self.now ≡ other.now) }
    {
        self == other
    }

    /// The number of slices of each component.
    pub fn width(&self) -> SliceCount
        ensures value { result.0 ≡ length self.now.handles.a }
        ensures some { 1 ≤ result.0 }
        ensures few { result.0 ≤ 22 }
    {
        self.handles.slices()
    }

    /// The record's columns.
    pub fn columns(&self) -> Columns<24>
        ensures { Widened self.now result }
    {
        self.handles.lowest(self.width())
    }
}
