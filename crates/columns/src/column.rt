//! One column of slices.
ghost use Rattle.std.specs.Prelude.{◌≡◌, ◌<◌, ◌≤◌, [], ◌∷◌, ◌++◌, length, replicate};
ghost use Rattle.slicing.specs.TwosComplement.{repeated};

use std::marker::Model;

/// The handles of a column's slices, the lowest slice first: at most N. Unused places are 0, so that two columns are equal
/// if their slices are.
// No `ArrayVec`: that is no `Copy`, and a record is copied.
#[derive(Clone, Copy, PartialEq, Eq)]
pub struct Column<const N: usize> {
    slices: [u32; N],
    len: usize,
}

// Clauses see the handles.
impl<const N: usize> Model for Column<N> {
    ghost use Rattle.std.specs.Prelude.{◌≡◌, ℕ, ◌-◌, ◌≤◌, List, ◌++◌, length, take, drop, replicate};
    ghost use Rattle.std.proofs.Common.{arith, length-take-le};
    ghost use Rattle.columns.specs.Places.{all_from_slices};

    ghost Value = { List ℕ };

    ghost view = { λ c. take c.len c.slices };

    ghost invariant = { λ c. (c.len ≤ N) × (length c.slices ≡ N) × (drop c.len c.slices ≡ replicate (N - c.len) 0) };

    ghost inverse = { λ hs. record { slices = hs ++ replicate (N - length hs) 0; len = length hs } };

    ghost inverse_ok = { λ c h. let wide : length (take c.len c.slices) ≡ c.len = length-take-le c.len c.slices (omega (arith, h.0, h.1)) in λ i. record {
      slices = all_from_slices N c.len c.slices wide h.2 i;
      len = wide i;
    } };
}

impl<const N: usize> Column<N> {
    /// A column without slices.
    pub fn new() -> Self
        ensures { result ≡ [] }
    {
        Self::zeros(0)
    }

    /// A column of so many slices, each with handle 0.
    pub fn zeros(len: usize) -> Self
        requires { len ≤ N }
        ensures { result ≡ replicate len 0 }
    {
        Column {
            slices: [0; N],
            len,
        }
    }

    /// The column of these handles.
    pub fn from_slice(handles: &[u32]) -> Self
        requires { length handles.now ≤ N }
        ensures { result ≡ handles.now }
    {
        let mut slices = [0; N];
        slices[..handles.len()].copy_from_slice(handles);
        Column {
            slices,
            len: handles.len(),
        }
    }

    /// The number of slices.
    pub fn len(&self) -> usize
        ensures value { result ≡ length self.now }
        ensures fits { result ≤ N }
    {
        self.len
    }

    /// The handles, the lowest slice first.
    pub fn as_slice(&self) -> &[u32]
        ensures value { result.now ≡ self.now }
        ensures fits { length self.now ≤ N }
    {
        &self.slices[..self.len]
    }

    /// One more slice on top.
    pub fn push(&mut self, handle: u32)
        requires { length self.old < N }
        ensures { self.new ≡ self.old ++ handle ∷ [] }
    {
        self.slices[self.len] = handle;
        self.len += 1;
    }

    /// The column with its top slice once more.
    pub fn repeat_top(&self) -> Self
        requires some { 1 ≤ length self.now }
        requires room { length self.now < N }
        ensures { result ≡ repeated self.now }
    {
        let mut column = *self;
        column.push(self.as_slice()[self.len() - 1]);
        column
    }
}
