//! Function stores: Boolean functions of 1 to 16 qubits, each held under a handle.
#![tactic(auto)]

ghost use Rattle.std.specs.Prelude.{◌≡◌};
ghost use Rattle.functions.specs.Meanings.{Meaning, Laws, qubits_of};
ghost use Rattle.functions.specs.Answers.{Made, Kept, literal_asked, fixed_asked, combine_asked, value_answer, ones_answer};

use exact::Qubit;

mod combination;
mod faults;
pub mod laws;
pub mod rules;

pub use combination::Combination;
pub use faults::{Layer, StoreFault};

/// A store of Boolean functions of n qubits.
///
/// The constants 0 and 1 are always held, as handles 0 and 1. A refused call changes nothing.
pub trait FunctionStore {
    // n, the limit, the rule of parts, and the functions held with their handles
    ghost meaning: { Self → Meaning };

    // being in order: making a store gives it, and every call expects and keeps it. It is a clause of each call and not an
    // invariant of the type, because the interface leaves a store's type open.
    ghost ordered: { Self → Type 0 };

    /// The function that is qubit q's bit.
    fn literal(&mut self, q: Qubit) -> Result<u32, StoreFault>
        requires { ordered self.old }
        ensures order { ordered self.new }
        ensures made { Made (meaning self.old) (meaning self.new) (literal_asked (meaning self.old) q) result };

    /// f with qubit q set to a bit.
    fn fixed(&mut self, f: u32, q: Qubit, bit: bool) -> Result<u32, StoreFault>
        requires { ordered self.old }
        ensures order { ordered self.new }
        ensures made { Made (meaning self.old) (meaning self.new) (fixed_asked (meaning self.old) f q bit) result };

    /// At each index the bit of the rule numbered 4f + 2g + h.
    fn combine(&mut self, rule: u8, f: u32, g: u32, h: u32) -> Result<u32, StoreFault>
        requires { ordered self.old }
        ensures order { ordered self.new }
        ensures made { Made (meaning self.old) (meaning self.new) (combine_asked (meaning self.old) rule f g h) result };

    /// The value of f at an index.
    fn value(&self, f: u32, index: u32) -> Result<bool, StoreFault>
        requires { ordered self.now }
        ensures { result ≡ value_answer (meaning self.now) f index };

    /// The number of indices where f is 1.
    fn ones(&self, f: u32) -> Result<u32, StoreFault>
        requires { ordered self.now }
        ensures { result ≡ ones_answer (meaning self.now) f };

    /// The number of qubits.
    fn qubits(&self) -> u32
        requires { ordered self.now }
        ensures { result ≡ qubits_of (meaning self.now) };

    /// Lets go of every function that is no part of a listed one. The others keep their handles.
    fn keep(&mut self, list: &[u32]) -> Result<(), StoreFault>
        requires { ordered self.old }
        ensures order { ordered self.new }
        ensures kept { Kept (meaning self.old) (meaning self.new) list.now result };

    ghost lawful: { (s : Self) → ordered s → Laws (meaning s) };
}
