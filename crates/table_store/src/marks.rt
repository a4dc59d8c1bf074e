//! The marks of functions, by which their places are found.
ghost use Rattle.std.specs.Prelude.{◌≡◌};
ghost use Rattle.table_store.specs.Marks.{mixed, mark_of};

use table_words::PackedTable;

// A word mixed into a mark; the factor is odd, and its bits are in no order.
fn mixed(mark: u64, word: u64) -> u64
    ensures { result ≡ mixed mark word }
{
    (mark ^ word).wrapping_mul(0x9E37_79B9_7F4A_7C15)
}

/// A table with its mark.
#[derive(Clone, Copy)]
pub(crate) struct Marked {
    pub(crate) table: PackedTable,
    pub(crate) mark: u64,
    ghost right: { mark ≡ mark_of table.words },
}

impl Marked {
    // The mark is never 0, which marks a free place.
    pub(crate) fn of(table: PackedTable) -> Marked
        ensures { result.table ≡ table }
    {
        let [a, b, c, d] = table.words;
        let mark = mixed(mixed(mixed(mixed(0, a), b), c), d) | 1;
        Marked { table, mark }
    }
}
