//! Why a store refuses.
ghost use Rattle.std.specs.Prelude.{◌≡◌, Some};
ghost use Rattle.functions.specs.Faults.{number_of, value_of, layer_of, refusal_text};

use exact::Qubit;
use std::fmt;

/// The layer that finds a fault.
#[derive(Clone, Copy, PartialEq, Eq)]
pub enum Layer {
    Store,
    Simulator,
    Reader,
}

/// A fault of a function store.
#[derive(Clone, Copy, PartialEq, Eq)]
pub enum StoreFault {
    /// There is no store of this number of qubits; 0, if it is the limit that would be 0.
    NoSuchStore(u32),
    /// The index is not below 2^n.
    IndexOutOfRange(u32),
    /// The qubit is not below n.
    QubitOutOfRange(Qubit),
    /// No function is held under this handle.
    NotHeld(u32),
    /// There is no space under this limit.
    NoSpace(u32),
}

impl StoreFault {
    /// The number of the refusal.
    pub fn number(self) -> u32
        ensures { result ≡ number_of self }
    {
        match self {
            StoreFault::NoSuchStore(_) => 1,
            StoreFault::IndexOutOfRange(_) => 5,
            StoreFault::QubitOutOfRange(_) => 6,
            StoreFault::NotHeld(_) => 8,
            StoreFault::NoSpace(_) => 9,
        }
    }

    /// The offending value: a number of qubits, an index, a qubit, a handle or the limit.
    pub fn value(self) -> u32
        ensures { result ≡ value_of self }
    {
        match self {
            StoreFault::NoSuchStore(value) => value,
            StoreFault::IndexOutOfRange(index) => index,
            StoreFault::QubitOutOfRange(qubit) => qubit.0,
            StoreFault::NotHeld(handle) => handle,
            StoreFault::NoSpace(limit) => limit,
        }
    }

    /// The layer that found the fault.
    pub fn layer(self) -> Layer
        ensures { result ≡ layer_of self }
    {
        Layer::Store
    }
}

impl fmt::Display for StoreFault {
    ghost output = { λ e. Some (refusal_text e) };

    fn fmt<W: fmt::Write>(&self, f: &mut fmt::Formatter<W>) -> fmt::Result {
        let number = self.number();
        let value = self.value();
        write!(f, "refused {number} {value}")
    }
}
