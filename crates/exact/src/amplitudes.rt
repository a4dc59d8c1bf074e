//! Amplitudes divided, compared and printed.
ghost use Rattle.std.specs.Prelude.{◌≡◌, ◌≤◌, Some, Decides};
ghost use Rattle.exact.specs.Quadruples.{division, half_sum};
ghost use Rattle.exact.specs.States.{SameAmplitude};
ghost use Rattle.exact.specs.Texts.{quadruple_text, amplitude_text};

use crate::{Amplitude, Quadruple};
use std::fmt;

impl Quadruple {
    /// The quadruple divided by √2, or none where it is not √2 times another.
    pub fn over_root_two(self) -> Option<Quadruple>
        ensures { result ≡ division self }
    {
        let ac = half_sum(self.a, self.c)?;
        let bd = half_sum(self.b, self.d)?;
        // (b − d)/2 is (b + d)/2 − d, and (c − a)/2 is (a + c)/2 − a.
        Some(Quadruple {
            a: bd - self.d,
            b: ac,
            c: bd,
            d: ac - self.a,
        })
    }
}

// Half of x + y, or none where that is odd.
fn half_sum(x: i32, y: i32) -> Option<i32>
    ensures { result ≡ half_sum x y }
{
    let sum = x as i64 + y as i64;
    if sum % 2 == 0 {
        Some((sum / 2) as i32)
    } else {
        None
    }
}

impl fmt::Display for Quadruple {
    ghost output = { λ x. Some (quadruple_text x) };

    fn fmt<W: fmt::Write>(&self, f: &mut fmt::Formatter<W>) -> fmt::Result {
        let Quadruple { a, b, c, d } = *self;
        write!(f, "{a} {b} {c} {d}")
    }
}

impl Amplitude {
    /// Whether both are the same number, whatever their powers; `==` compares the parts.
    pub fn same_as(self, other: Amplitude) -> bool
        ensures { Decides result (SameAmplitude self other) }
    {
        if self.power.0 <= other.power.0 {
            same_upwards(self, other)
        } else {
            same_upwards(other, self)
        }
    }
}

// The second is divided by √2 until it has the first one's power: so no number grows.
fn same_upwards(low: Amplitude, high: Amplitude) -> bool
    requires { low.power.0 ≤ high.power.0 }
    ensures { Decides result (SameAmplitude low high) }
{
    let mut quadruple = high.quadruple;
    for _power in low.power.0..high.power.0 {
        match quadruple.over_root_two() {
            Some(divided) => quadruple = divided,
            None => return false,
        }
    }
    quadruple == low.quadruple
}

impl fmt::Display for Amplitude {
    ghost output = { λ x. Some (amplitude_text x) };

    fn fmt<W: fmt::Write>(&self, f: &mut fmt::Formatter<W>) -> fmt::Result {
        let power = self.power.0;
        write!(f, "{} {power}", self.quadruple)
    }
}
