//! Addition of slices, over any function store.
#![tactic(auto)]

ghost use Rattle.adder.specs.Slices.{SliceAdded, SliceLaws};

use functions::rules::{MAJORITY, PARITY};
use functions::{FunctionStore, StoreFault};

/// The handles of one slice of a sum and of the carry into the next slice.
#[derive(Clone, Copy, PartialEq, Eq)]
pub struct SliceSum {
    pub sum: u32,
    pub carry: u32,
}

/// One slice of p + q, or of p − q where e is 1: makes D, the odd sum of q and e, then the sum of p, D and the carry,
/// then the next carry.
pub fn add_slice<S: FunctionStore>(
    store: &mut S,
    p: u32,
    q: u32,
    e: u32,
    carry: u32,
) -> Result<SliceSum, StoreFault>
    requires { S.ordered store.old }
    ensures order { S.ordered store.new }
    ensures added { SliceAdded (S.meaning store.old) (S.meaning store.new) p q e carry result }
{
    let turned = store.combine(PARITY, q, e, 0)?;
    let sum = store.combine(PARITY, p, turned, carry)?;
    let carry = store.combine(MAJORITY, p, turned, carry)?;
    Ok(SliceSum { sum, carry })
}

/// At every index, a slice of the sum and twice the next carry add up.
pub fn slice_laws()
    ensures { SliceLaws }
{}
