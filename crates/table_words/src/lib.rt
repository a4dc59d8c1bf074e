//! Truth tables of at most 8 qubits packed into words: 64 values to a word.
#![tactic(auto)]

mod combining;
mod packing;
mod patterns;

/// A truth table of at most 8 qubits.
///
/// The value at an index is the bit of that number, counted from the lowest bit of the first word. Bits that are no
/// index's are 0.
#[derive(Clone, Copy, PartialEq, Eq)]
pub struct PackedTable {
    pub words: [u64; 4],
}
