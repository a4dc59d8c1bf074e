//! Division of columns by √2, and their normal form, over any function store.
#![tactic(auto)]

ghost use Rattle.std.specs.Prelude.{◌≡◌, ◌<◌, ◌≤◌, length, drop};
ghost use Rattle.columns.specs.Columns.{Sliced};
ghost use Rattle.reductions.specs.Reductions.{AskedDivisible, ColumnsDivided, ColumnsReduced, SlicedToo};

use columns::{Column, Columns, add_columns};
use exact::RootTwoPower;
use functions::rules::PARITY;
use functions::{FunctionStore, StoreFault};

mod reduced;

pub use reduced::Reduced;

/// Whether √2 divides every quadruple: makes the odd sums of the lowest slices, of a with c and of b with d, and asks
/// whether both are the constant 0, which has handle 0.
pub fn divisible<S: FunctionStore>(store: &mut S, columns: &Columns<24>) -> Result<bool, StoreFault>
    requires order { S.ordered store.old }
    ensures order { S.ordered store.new }
    ensures asked { AskedDivisible (S.meaning store.old) (S.meaning store.new) columns.now result }
{
    let with_c = store.combine(PARITY, columns.a.as_slice()[0], columns.c.as_slice()[0], 0)?;
    let with_d = store.combine(PARITY, columns.b.as_slice()[0], columns.d.as_slice()[0], 0)?;
    Ok((with_c, with_d) == (0, 0))
}

/// A column without its lowest slice.
fn drop_lowest(column: &Column<24>) -> Column<24>
    requires { 1 ≤ length column.now }
    ensures { result ≡ drop 1 column.now }
{
    Column::from_slice(&column.as_slice()[1..])
}

/// Divided by √2: each top slice is repeated, the sums and differences are made, and their lowest slices go. Where √2 does
/// not divide a quadruple, it is rounded down.
pub fn divide<S: FunctionStore>(
    store: &mut S,
    columns: &Columns<24>,
) -> Result<Columns<24>, StoreFault>
    requires order { S.ordered store.old }
    requires room { length columns.now.a < 24 }
    ensures order { S.ordered store.new }
    ensures slices { Sliced (length columns.now.a) result }
    ensures divided { ColumnsDivided (S.meaning store.old) (S.meaning store.new) columns.now result }
{
    let x = columns.repeat_tops();
    let a = add_columns(store, &x.b, &x.d, 1)?;
    let b = add_columns(store, &x.a, &x.c, 0)?;
    let c = add_columns(store, &x.b, &x.d, 0)?;
    let d = add_columns(store, &x.c, &x.a, 1)?;
    Ok(Columns {
        a: drop_lowest(&a),
        b: drop_lowest(&b),
        c: drop_lowest(&c),
        d: drop_lowest(&d),
    })
}

/// The normal form: while the power is above 0 and √2 divides every quadruple, divides and lowers the power. No slice goes
/// from the top meanwhile.
pub fn reduce<S: FunctionStore>(
    store: &mut S,
    mut columns: Columns<24>,
    power: RootTwoPower,
) -> Result<Reduced, StoreFault>
    requires order { S.ordered store.old }
    requires room { length columns.a < 24 }
    ensures order { S.ordered store.new }
    ensures slices { SlicedToo (length columns.a) result }
    ensures reduced { ColumnsReduced (S.meaning store.old) (S.meaning store.new) columns power.0 result }
{
    for lower in (0..power.0).rev() {
        if !divisible(store, &columns)? {
            let power = RootTwoPower(lower + 1);
            return Ok(Reduced { columns, power });
        }
        columns = divide(store, &columns)?;
    }
    let power = RootTwoPower(0);
    Ok(Reduced { columns, power })
}
