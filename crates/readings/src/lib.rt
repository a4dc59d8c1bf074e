//! Amplitudes and weights read from slices, over any function store.
//!
//! A column is handed over as the handles of its slices.
#![tactic(auto)]

mod amplitudes;
mod counting;
mod handles;
mod sums;
mod weights;

pub use amplitudes::{amplitude, integer, quadruple};
pub use counting::products;
pub use handles::{SliceHandles, Slices};
pub use weights::{outcome_half, weight};

/// A column has at most as many slices.
pub const MOST_SLICES: usize = 22;
