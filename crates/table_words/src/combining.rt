//! Combinations, 64 indices at a time.
ghost use Rattle.std.specs.Prelude.{◌<◌, ◌≤◌, if◌then◌else◌};
ghost use Rattle.functions.specs.Tables.{ruled, combined};
ghost use Rattle.table_words.specs.Words.{bit_of, BitsOf, unpacked, Packs};

use crate::PackedTable;
use exact::QubitCount;
use std::array;

// At each bit: a where s is 1, else b.
fn choice(s: u64, a: u64, b: u64) -> u64
    ensures { BitsOf result (λ i. (if bit_of s i then bit_of a i else bit_of b i)) }
{
    b ^ (s & (a ^ b))
}

// The bit, at every bit.
pub(crate) fn filled(bit: bool) -> u64
    ensures { BitsOf result (λ i. bit) }
{
    if bit { u64::MAX } else { 0 }
}

// Bit k of the rule, at every bit.
fn repeated(rule: u8, k: u32) -> u64
    requires { k < 8 }
    ensures { BitsOf result (λ i. bit_of rule k) }
{
    filled((rule >> k) % 2 == 1)
}

// At each bit: bit 4f + 2g + h of the rule.
fn combined_word(rule: u8, f: u64, g: u64, h: u64) -> u64
    ensures { BitsOf result (λ i. ruled rule (bit_of f i) (bit_of g i) (bit_of h i)) }
{
    let both = choice(h, repeated(rule, 7), repeated(rule, 6));
    let only_f = choice(h, repeated(rule, 5), repeated(rule, 4));
    let only_g = choice(h, repeated(rule, 3), repeated(rule, 2));
    let neither = choice(h, repeated(rule, 1), repeated(rule, 0));
    choice(f, choice(g, both, only_f), choice(g, only_g, neither))
}

impl PackedTable {
    /// At each index the bit of the rule numbered 4f + 2g + h.
    pub fn combined(
        qubits: QubitCount<8>,
        rule: u8,
        f: PackedTable,
        g: PackedTable,
        h: PackedTable,
    ) -> PackedTable
        ensures { Packs qubits.number (combined qubits.number rule (unpacked qubits.number f.words) (unpacked qubits.number g.words) (unpacked qubits.number h.words)) result }
    {
        let words = array::from_fn(|j| combined_word(rule, f.words[j], g.words[j], h.words[j]));
        PackedTable::clean(qubits, words)
    }
}
