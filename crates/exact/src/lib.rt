//! Exact numbers: quadruples, amplitudes, weights and shares, with the laws they obey.
//!
//! ω is exp(iπ/4), so ω⁴ = −1, the imaginary unit is ω², and √2 is ω − ω³.
#![tactic(auto)]

pub mod amplitudes;
pub mod laws;
mod qubits;
pub mod weights;

pub use qubits::QubitCount;

/// How many times an amplitude is divided by √2.
#[derive(Clone, Copy, PartialEq, Eq)]
pub struct RootTwoPower(pub u32);

/// How many times a weight is divided by 2.
#[derive(Clone, Copy, PartialEq, Eq)]
pub struct TwoPower(pub u32);

/// How many bit slices hold an integer in two's complement.
#[derive(Clone, Copy, PartialEq, Eq)]
pub struct SliceCount(pub u32);

/// A qubit by its number. Qubit 0 is the highest bit of a basis index.
#[derive(Clone, Copy, PartialEq, Eq)]
pub struct Qubit(pub u32);

/// The whole numbers of aω³ + bω² + cω + d.
#[derive(Clone, Copy, PartialEq, Eq)]
pub struct Quadruple {
    pub a: i32,
    pub b: i32,
    pub c: i32,
    pub d: i32,
}

/// A quadruple divided by a power of √2.
#[derive(Clone, Copy, PartialEq, Eq)]
pub struct Amplitude {
    pub quadruple: Quadruple,
    pub power: RootTwoPower,
}

/// A sum of squares of amplitudes: the whole part and √2 times the root part, divided by a power of 2.
#[derive(Clone, Copy, PartialEq, Eq)]
pub struct Weight {
    pub whole: u64,
    pub root: i64,
    pub power: TwoPower,
}
