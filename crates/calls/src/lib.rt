//! The calls of a simulator of four registers, its answers and its faults.
#![tactic(auto)]

use exact::{Amplitude, Qubit, Weight};
use gates::Gate;

mod faults;

pub use faults::SimulatorFault;

/// A call. Registers are 0 to 3; in an index qubit 0 is the highest bit.
#[derive(Clone, Copy)]
pub enum Call {
    /// Opens an empty register at a basis index.
    Open {
        register: u32,
        index: u32,
    },
    /// Applies a gate to the first qubits named, as many as it acts on, controls first. The others are not looked at.
    Gate {
        gate: Gate,
        register: u32,
        // A fixed array: a call is handed over without allocation, and the definitions read 0 for a missing qubit.
        qubits: [Qubit; 3],
    },
    /// Fills an empty register from an open one.
    Copy {
        source: u32,
        target: u32,
    },
    /// Empties an open register.
    Close {
        register: u32,
    },
    /// Asks for the amplitude at a basis index.
    Amplitude {
        register: u32,
        index: u32,
    },
    /// Asks for the weight of one outcome of a qubit.
    Weight {
        register: u32,
        qubit: Qubit,
        outcome: bool,
    },
    /// Asks whether two registers are in the same state.
    Same {
        first: u32,
        second: u32,
    },
}

/// What an accepted call answers. The outcome of a call is a `Result<Answer, SimulatorFault>`: a refused one changes nothing.
#[derive(Clone, Copy, PartialEq, Eq)]
pub enum Answer {
    /// The registers are changed as asked.
    Done,
    Amplitude(Amplitude),
    Weight(Weight),
    Same(bool),
}
