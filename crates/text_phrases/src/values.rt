//! What the lines of a circuit text say.
use text_words::StepWord;

/// A register to be opened at a basis index, of which qubit 0 is the highest bit.
#[derive(Clone, Copy)]
pub struct Opening {
    pub register: u32,
    pub index: u32,
}

/// A step, with the numbers after its word in their order; those that it does not have are 0.
#[derive(Clone, Copy)]
pub struct Step {
    pub name: StepWord,
    // Four places: an enum of steps would still have places for one to three qubits of a gate.
    pub numbers: [u32; 4],
}

/// A question about registers.
#[derive(Clone, Copy)]
pub enum Question {
    Amp {
        register: u32,
        index: u32,
    },
    Weight {
        register: u32,
        qubit: u32,
        outcome: bool,
    },
    Same {
        first: u32,
        second: u32,
    },
}
