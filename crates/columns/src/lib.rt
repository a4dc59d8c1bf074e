//! Columns of slices over any function store: the handles of four columns, and what is made of one or two columns slice by
//! slice.
#![tactic(auto)]

ghost use Rattle.std.specs.Prelude.{◌≡◌, ◌<◌, ◌≤◌, length, min, take};
ghost use Rattle.columns.specs.Columns.{handles_of, Wide, ColumnFixed, ColumnChosen, ColumnFlipped, ColumnsAdded, TopsRepeated, places, LowestSlices};

use adder::add_slice;
use exact::{Qubit, SliceCount};
use functions::rules::CHOICE;
use functions::{FunctionStore, StoreFault};
use slicing::Component;

mod column;
mod four;

pub use column::Column;
pub use four::Columns;

/// A column with qubit q set to a bit.
pub fn fix_column<S: FunctionStore, const N: usize>(
    store: &mut S,
    column: &Column<N>,
    q: Qubit,
    bit: bool,
) -> Result<Column<N>, StoreFault>
    requires { S.ordered store.old }
    ensures order { S.ordered store.new }
    ensures width { Wide (length column.now) result }
    ensures fixed { ColumnFixed (S.meaning store.old) (S.meaning store.new) column.now q bit result }
{
    let mut fixed = Column::new();
    for slice in column.as_slice() {
        fixed.push(store.fixed(*slice, q, bit)?);
    }
    Ok(fixed)
}

/// The column that f chooses: p where it is 1, else q.
pub fn choose_column<S: FunctionStore, const N: usize>(
    store: &mut S,
    f: u32,
    p: &Column<N>,
    q: &Column<N>,
) -> Result<Column<N>, StoreFault>
    requires { S.ordered store.old }
    ensures order { S.ordered store.new }
    ensures width { Wide (min (length p.now) (length q.now)) result }
    ensures chosen { ColumnChosen (S.meaning store.old) (S.meaning store.new) f p.now q.now result }
{
    let mut chosen = Column::new();
    for (p, q) in p.as_slice().iter().zip(q.as_slice()) {
        chosen.push(store.combine(CHOICE, f, *p, *q)?);
    }
    Ok(chosen)
}

/// A column with qubit q turned: the literal of q chooses the column where q is 0, else the column where it is 1.
pub fn flip_column<S: FunctionStore, const N: usize>(
    store: &mut S,
    column: &Column<N>,
    q: Qubit,
    literal: u32,
) -> Result<Column<N>, StoreFault>
    requires { S.ordered store.old }
    ensures order { S.ordered store.new }
    ensures width { Wide (length column.now) result }
    ensures flipped { ColumnFlipped (S.meaning store.old) (S.meaning store.new) column.now q literal result }
{
    let low = fix_column(store, column, q, false)?;
    let high = fix_column(store, column, q, true)?;
    choose_column(store, literal, &low, &high)
}

/// The sum of two columns, or their difference where the first carry e is 1.
pub fn add_columns<S: FunctionStore, const N: usize>(
    store: &mut S,
    p: &Column<N>,
    q: &Column<N>,
    e: u32,
) -> Result<Column<N>, StoreFault>
    requires { S.ordered store.old }
    ensures order { S.ordered store.new }
    ensures width { Wide (min (length p.now) (length q.now)) result }
    ensures added { ColumnsAdded (S.meaning store.old) (S.meaning store.new) p.now q.now e result }
{
    let mut sums = Column::new();
    let mut carry = e;
    for (p, q) in p.as_slice().iter().zip(q.as_slice()) {
        let slice = add_slice(store, *p, *q, e, carry)?;
        sums.push(slice.sum);
        carry = slice.carry;
    }
    Ok(sums)
}

/// The lowest handles of a column, as many as the width; past its slices, 0.
fn lowest_handles<const N: usize, const M: usize>(
    column: &Column<N>,
    width: SliceCount,
) -> Column<M>
    requires within { width.0 ≤ N }
    requires room { width.0 ≤ M }
    ensures { result ≡ take width.0 (places N column.now) }
{
    let mut places = [0; N];
    places[..column.len()].copy_from_slice(column.as_slice());
    Column::from_slice(&places[..width.0 as usize])
}

impl<const N: usize> Columns<N> {
    /// The number of slices of each column.
    pub fn slices(&self) -> SliceCount
        ensures value { result.0 ≡ length self.now.a }
        ensures some { 1 ≤ result.0 }
        ensures few { result.0 ≤ N }
    {
        SliceCount(self.a.len() as u32)
    }

    /// A component's column.
    // One of four, as in `Component::of` and `Recipe::term`: one generic struct is no plainer, as definitions name the fields.
    pub fn column(&self, component: Component) -> Column<N>
        ensures value { result ≡ handles_of self.now component }
        ensures width { length result ≡ length self.now.a }
    {
        match component {
            Component::A => self.a,
            Component::B => self.b,
            Component::C => self.c,
            Component::D => self.d,
        }
    }

    /// Each top slice once more. Nothing is made.
    pub fn repeat_tops(&self) -> Self
        requires { length self.now.a < N }
        ensures { TopsRepeated self.now result }
    {
        Columns {
            a: self.a.repeat_top(),
            b: self.b.repeat_top(),
            c: self.c.repeat_top(),
            d: self.d.repeat_top(),
        }
    }

    /// The lowest slices of each column, as many as the width; past its slices, 0. Nothing is made.
    pub fn lowest<const M: usize>(&self, width: SliceCount) -> Columns<M>
        requires most { M ≤ 24 }
        requires some { 1 ≤ width.0 }
        requires within { width.0 ≤ N }
        requires room { width.0 ≤ M }
        ensures { LowestSlices self.now width.0 result }
    {
        Columns {
            a: lowest_handles(&self.a, width),
            b: lowest_handles(&self.b, width),
            c: lowest_handles(&self.c, width),
            d: lowest_handles(&self.d, width),
        }
    }
}
