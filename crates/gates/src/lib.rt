//! The gates by name.
#![tactic(auto)]

ghost use Rattle.std.specs.Prelude.{◌≡◌};
ghost use Rattle.gates.specs.Arity.{qubits_of};

/// The ten gates of the simulator. Those whose names begin with C have controls.
#[derive(Clone, Copy)]
pub enum Gate {
    X,
    Z,
    H,
    S,
    T,
    Rx,
    Ry,
    Cx,
    Cz,
    Ccx,
}

impl Gate {
    /// How many qubits the gate acts on, its controls included.
    pub fn arity(self) -> u32
        ensures { result ≡ qubits_of self }
    {
        match self {
            Gate::X | Gate::Z | Gate::H | Gate::S | Gate::T | Gate::Rx | Gate::Ry => 1,
            Gate::Cx | Gate::Cz => 2,
            Gate::Ccx => 3,
        }
    }
}
