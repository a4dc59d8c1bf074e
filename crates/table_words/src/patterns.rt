//! Tables made value by value: literals, and functions with a qubit fixed.
ghost use Rattle.std.specs.Prelude.{◌≡◌, ℕ, ◌+◌, ◌-◌, ◌*◌, ◌/◌, ◌%◌, ◌^◌, ◌<◌, ◌≤◌, Bool};
ghost use Rattle.functions.specs.Tables.{digit, literal, fixed};
ghost use Rattle.table_words.specs.Words.{bit_of, BitsOf, word_bit, unpacked, HasBits, Packs};

use crate::PackedTable;
use exact::{Qubit, QubitCount};
use std::array;

// A Boolean function of the index.
trait Pattern {
    ghost values: { Self → ℕ → Bool };

    ghost ready: { Self → Type 0 };

    fn at(&self, index: u32) -> bool
        requires within { index < 256 }
        requires ready { ready self.now }
        ensures { result ≡ values self.now index };
}

// The bit of the index that is worth 2^shift.
#[derive(Clone, Copy)]
struct IndexBit {
    shift: u32,
}

impl Pattern for IndexBit {
    ghost values = { λ s i. bit_of i s.shift };

    ghost ready = { λ s. s.shift < 8 };

    fn at(&self, index: u32) -> bool {
        (index >> self.shift) % 2 == 1
    }
}

// A table at the index whose bit worth 2^shift is set to a bit.
#[derive(Clone, Copy)]
struct BitSet {
    table: PackedTable,
    shift: u32,
    bit: bool,
}

impl Pattern for BitSet {
    ghost values = { λ s i. word_bit s.table.words (i - i / 2 ^ s.shift % 2 * 2 ^ s.shift + digit s.bit * 2 ^ s.shift) };

    ghost ready = { λ s. s.shift < 8 };

    fn at(&self, index: u32) -> bool {
        let worth = 1u32 << self.shift;
        let cleared = index - (index >> self.shift) % 2 * worth;
        let set = if self.bit { cleared + worth } else { cleared };
        self.table.value(set)
    }
}

// The word of a pattern's values at 64 indices.
fn pattern_word<P: Pattern>(pattern: &P, first: u32) -> u64
    requires within { first + 64 ≤ 256 }
    requires ready { P.ready pattern.now }
    ensures { BitsOf result (λ i. P.values pattern.now (first + i)) }
{
    let mut word = 0u64;
    for i in (0..64).rev() {
        word = 2 * word + u64::from(pattern.at(first + i));
    }
    word
}

// The table of a pattern.
fn packed<P: Pattern>(qubits: QubitCount<8>, pattern: &P) -> PackedTable
    requires { P.ready pattern.now }
    ensures { HasBits qubits.number (P.values pattern.now) result }
{
    let words = array::from_fn(|j| pattern_word(pattern, 64 * j as u32));
    PackedTable::clean(qubits, words)
}

impl PackedTable {
    /// The function that is qubit q's bit.
    pub fn literal(qubits: QubitCount<8>, q: Qubit) -> PackedTable
        requires { q.0 < qubits.number }
        ensures { Packs qubits.number (literal qubits.number q.0) result }
    {
        let bit = IndexBit {
            shift: qubits.number - 1 - q.0,
        };
        packed(qubits, &bit)
    }

    /// f with qubit q set to a bit.
    pub fn fixed(qubits: QubitCount<8>, f: PackedTable, q: Qubit, bit: bool) -> PackedTable
        requires { q.0 < qubits.number }
        ensures { Packs qubits.number (fixed qubits.number (unpacked qubits.number f.words) q.0 bit) result }
    {
        let set = BitSet {
            table: f,
            shift: qubits.number - 1 - q.0,
            bit,
        };
        packed(qubits, &set)
    }
}
