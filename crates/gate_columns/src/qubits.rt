//! The qubits of a gate, and their literals in a store.
use exact::Qubit;

/// The qubits that a gate acts on: its controls first, its target last.
#[derive(Clone, Copy)]
pub enum GateQubits {
    One(Qubit),
    Two(Qubit, Qubit),
    Three(Qubit, Qubit, Qubit),
}

/// A gate's target with the handle of its literal, and the handle of the product of the controls' literals.
#[derive(Clone, Copy)]
pub struct Literals {
    pub target: Qubit,
    pub literal: u32,
    pub controls: u32,
}
