//! Why a simulator refuses.
ghost use Rattle.std.specs.Prelude.{◌≡◌, Some};
ghost use Rattle.calls.specs.Faults.{number_of, value_of, layer_of, refusal_text};
ghost use Rattle.calls.specs.declared.faults.SimulatorFault.TheVariants.{Store};

use exact::{Qubit, RootTwoPower, SliceCount};
use functions::{Layer, StoreFault};
use std::fmt;

/// A fault of a simulator's call.
#[derive(Clone, Copy, PartialEq, Eq)]
pub enum SimulatorFault {
    /// The register is above 3.
    NoSuchRegister(u32),
    /// The register is to be used, and is empty.
    RegisterEmpty(u32),
    /// The register is to be filled, and is open.
    RegisterOpen(u32),
    /// The index is not below 2^n.
    IndexOutOfRange(u32),
    /// The qubit is not below n.
    QubitOutOfRange(Qubit),
    /// The qubit is named twice in one gate.
    QubitTwice(Qubit),
    /// The normal form would have this power, which is above 40.
    PowerTooHigh(RootTwoPower),
    /// The normal form would have this width, which is above 22.
    TooWide(SliceCount),
    /// The store below refuses.
    Store(StoreFault),
}

impl From<StoreFault> for SimulatorFault {
    ghost from_gives = { λ e r. r ≡ Store e };

    fn from(below: StoreFault) -> SimulatorFault {
        SimulatorFault::Store(below)
    }
}

// Like `StoreFault` and `TextFault`, and without a trait for the three: no code takes any of them.
impl SimulatorFault {
    /// The number of the refusal.
    pub fn number(self) -> u32
        ensures { result ≡ number_of self }
    {
        match self {
            SimulatorFault::NoSuchRegister(_) => 2,
            SimulatorFault::RegisterEmpty(_) => 3,
            SimulatorFault::RegisterOpen(_) => 4,
            SimulatorFault::IndexOutOfRange(_) => 5,
            SimulatorFault::QubitOutOfRange(_) => 6,
            SimulatorFault::QubitTwice(_) => 7,
            SimulatorFault::PowerTooHigh(_) => 10,
            SimulatorFault::TooWide(_) => 11,
            SimulatorFault::Store(fault) => fault.number(),
        }
    }

    /// The offending value: a register, an index, a qubit, the power, the width, or the store's.
    pub fn value(self) -> u32
        ensures { result ≡ value_of self }
    {
        match self {
            SimulatorFault::NoSuchRegister(register) => register,
            SimulatorFault::RegisterEmpty(register) => register,
            SimulatorFault::RegisterOpen(register) => register,
            SimulatorFault::IndexOutOfRange(index) => index,
            SimulatorFault::QubitOutOfRange(qubit) => qubit.0,
            SimulatorFault::QubitTwice(qubit) => qubit.0,
            SimulatorFault::PowerTooHigh(power) => power.0,
            SimulatorFault::TooWide(width) => width.0,
            SimulatorFault::Store(fault) => fault.value(),
        }
    }

    /// The layer that found the fault.
    pub fn layer(self) -> Layer
        ensures { result ≡ layer_of self }
    {
        match self {
            SimulatorFault::Store(fault) => fault.layer(),
            _ => Layer::Simulator,
        }
    }
}

impl fmt::Display for SimulatorFault {
    ghost output = { λ e. Some (refusal_text e) };

    fn fmt<W: fmt::Write>(&self, f: &mut fmt::Formatter<W>) -> fmt::Result {
        let number = self.number();
        let value = self.value();
        write!(f, "refused {number} {value}")
    }
}
