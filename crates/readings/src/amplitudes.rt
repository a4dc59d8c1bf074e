//! Integers, quadruples and amplitudes at an index.
ghost use Rattle.readings.specs.Amplitudes.{IntegerRead, QuadrupleRead, AmplitudeRead};

use crate::sums::SignedSum;
use crate::{SliceHandles, Slices};
use exact::{Amplitude, Quadruple, RootTwoPower};
use functions::{FunctionStore, StoreFault};

/// The integer of a column at an index.
#[tactic(auto, using(crate::proofs::Numbers::reading_refused))]
pub fn integer<S: FunctionStore>(
    store: &S,
    slices: SliceHandles,
    index: u32,
) -> Result<i32, StoreFault>
    requires { S.ordered store.now }
    ensures { IntegerRead (S.meaning store.now) slices.entry.handles.now index result }
{
    let mut bits = SignedSum::new();
    for slice in slices.handles {
        bits.add(store.value(*slice, index)?.into());
    }
    Ok(bits.total() as i32)
}

/// The quadruple of four columns at an index.
#[tactic(auto, using(crate::proofs::Numbers::a_refused, crate::proofs::Numbers::b_refused, crate::proofs::Numbers::c_refused, crate::proofs::Numbers::d_refused))]
pub fn quadruple<S: FunctionStore>(
    store: &S,
    slices: Slices,
    index: u32,
) -> Result<Quadruple, StoreFault>
    requires { S.ordered store.now }
    ensures { QuadrupleRead (S.meaning store.now) slices.entry index result }
{
    let a = integer(store, slices.a, index)?;
    let b = integer(store, slices.b, index)?;
    let c = integer(store, slices.c, index)?;
    let d = integer(store, slices.d, index)?;
    Ok(Quadruple { a, b, c, d })
}

/// The amplitude at an index of a state in four columns with this power.
#[tactic(auto, using(crate::proofs::Numbers::amplitude_refused, crate::proofs::Numbers::amplitude_read))]
pub fn amplitude<S: FunctionStore>(
    store: &S,
    slices: Slices,
    power: RootTwoPower,
    index: u32,
) -> Result<Amplitude, StoreFault>
    requires { S.ordered store.now }
    ensures { AmplitudeRead (S.meaning store.now) slices.entry power index result }
{
    let quadruple = quadruple(store, slices, index)?;
    Ok(Amplitude { quadruple, power })
}
