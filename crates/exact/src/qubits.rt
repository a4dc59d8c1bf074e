//! Numbers of qubits.
ghost use Rattle.std.specs.Prelude.{◌≤◌};

/// How many qubits there are: at most as many as the type says.
#[derive(Clone, Copy)]
pub struct QubitCount<const MOST: u32> {
    pub number: u32,
    ghost within: { number ≤ MOST },
}
