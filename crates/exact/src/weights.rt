//! The share of a weight, and weights printed.
ghost use Rattle.std.specs.Prelude.{◌≡◌, ◌*◌, ◌^◌, Some};
ghost use Rattle.exact.specs.Shares.{nearest, share};
ghost use Rattle.exact.specs.Squares.{power_of_squares};
ghost use Rattle.exact.specs.Texts.{weight_text};

use crate::{RootTwoPower, TwoPower, Weight};
use std::fmt;

impl RootTwoPower {
    /// The power of 2 that divides the squares of amplitudes of this power.
    //
    // No `From`: a conversion without a name is how one kind of power is taken for the other.
    pub fn of_squares(self) -> TwoPower
        ensures { result ≡ power_of_squares self }
    {
        TwoPower(self.0)
    }
}

impl Weight {
    /// The weight in thousandths, to the nearest and halves up, or none where the root part is not 0. A share is at most
    /// 1000, but a weight of its own may be any, so the type is wide enough for all.
    pub fn share(self) -> Option<u128>
        ensures { result ≡ share self }
    {
        if self.root == 0 {
            Some(thousandths(self.whole, self.power))
        } else {
            None
        }
    }
}

// Half of 2^75 is more than 1000 times any whole part.
const LARGE_POWER: u32 = 75;

fn thousandths(whole: u64, power: TwoPower) -> u128
    ensures { result ≡ nearest (1000 * whole) (2 ^ power.0) }
{
    if power.0 >= LARGE_POWER {
        return 0;
    }
    let unit = 1u128 << power.0;
    (2000 * whole as u128 + unit) / (2 * unit)
}

impl fmt::Display for Weight {
    ghost output = { λ x. Some (weight_text x) };

    fn fmt<W: fmt::Write>(&self, f: &mut fmt::Formatter<W>) -> fmt::Result {
        let Weight { whole, root, power } = *self;
        let power = power.0;
        match self.share() {
            Some(share) => write!(f, "{whole} {root} {power} {share}"),
            None => write!(f, "{whole} {root} {power} -"),
        }
    }
}
