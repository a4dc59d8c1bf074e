//! Making a table, and reading its nodes.
ghost use Rattle.std.specs.Prelude.{◌≡◌, ℕ, ◌+◌, ◌*◌, ◌/◌, ◌<◌, ◌≤◌, min, length, vec_len, Decides, slice_index};
ghost use Rattle.diagrams.specs.Diagrams.{Held};
ghost use Rattle.diagrams.specs.Forming.{IsNode};
ghost use Rattle.node_table.specs.Layout.{diagram_of, word, Node};
ghost use Rattle.node_table.specs.Ordering.{InOrder};

use crate::table::{Branch, MARK, NodeTable, first_word};
use exact::QubitCount;

impl NodeTable {
    /// An empty table over the whole nodes of the words, of which it takes 65,536 at most. The words may hold anything.
    pub fn new(mut words: Vec<u32>, qubits: QubitCount<16>) -> NodeTable
        requires { 1 ≤ qubits.number }
        ensures qubits { result.qubits.number ≡ qubits.number }
        ensures limit { result.limit ≡ min (vec_len words / 4) 65536 }
        ensures order { InOrder result }
        ensures empty { (h : ℕ) → (diagram_of result).height h ≡ 0 }
    {
        let limit = (words.len() / 4).min(65536);
        clear(&mut words, 4 * limit);
        NodeTable {
            qubits,
            limit: limit as u32,
            used: 0,
            words,
        }
    }

    /// A table of one qubit that has no place for a node, and leaves the words as they are.
    pub fn none(words: Vec<u32>) -> NodeTable
        ensures qubits { result.qubits.number ≡ 1 }
        ensures limit { result.limit ≡ 0 }
        ensures words { result.words.items ≡ words.items }
        ensures order { InOrder result }
        ensures empty { (h : ℕ) → (diagram_of result).height h ≡ 0 }
    {
        NodeTable {
            qubits: QubitCount { number: 1 },
            limit: 0,
            used: 0,
            words,
        }
    }

    /// The number of qubits of the diagram.
    pub fn qubits(&self) -> u32
        ensures { result ≡ self.now.qubits.number }
    {
        self.qubits.number
    }

    /// The number of places for nodes.
    pub fn limit(&self) -> u32
        ensures { result ≡ self.now.limit }
    {
        self.limit
    }

    /// How far the places are used; what is made later can be undone by this number.
    pub fn used(&self) -> u32
        ensures { result ≡ self.now.used }
    {
        self.used
    }

    /// The height of a handle: 0 at a constant, and where no node is.
    #[tactic(auto, unfolding(crate::specs::Layout::diagram_of))]
    pub fn height(&self, h: u32) -> u32
        ensures { result ≡ (diagram_of self.now).height h }
    {
        if h < 2 || h - 2 >= self.limit {
            return 0;
        }
        self.node(h)[0] % MARK
    }

    /// The half of a node where its qubit is 0.
    // Two functions and not one with a bit: these are the names that diagrams have for the halves.
    #[tactic(auto, using(crate::proofs::Layouts::node_at), unfolding(crate::specs::Layout::diagram_of))]
    pub fn low(&self, h: u32) -> u32
        requires { 0 < (diagram_of self.now).height h }
        ensures { result ≡ (diagram_of self.now).low h }
    {
        self.node(h)[1]
    }

    /// The half of a node where its qubit is 1.
    #[tactic(auto, using(crate::proofs::Layouts::node_at), unfolding(crate::specs::Layout::diagram_of))]
    pub fn high(&self, h: u32) -> u32
        requires { 0 < (diagram_of self.now).height h }
        ensures { result ≡ (diagram_of self.now).high h }
    {
        self.node(h)[2]
    }

    // What makes a node.
    #[tactic(auto, using(crate::proofs::Layouts::node_at), unfolding(crate::specs::Layout::diagram_of))]
    pub(crate) fn branch(&self, h: u32) -> Branch
        requires { Node self.now h }
        ensures { IsNode (diagram_of self.now) h result.height result.low result.high }
    {
        let node = self.node(h);
        Branch {
            height: node[0] % MARK,
            low: node[1],
            high: node[2],
        }
    }

    // The four words of a handle's place.
    pub(crate) fn node(&self, h: u32) -> &[u32]
        requires { (2 ≤ h) × (h < self.now.limit + 2) }
        ensures size { length result.now ≡ 4 }
        ensures words { (k : ℕ) → k < 4 → slice_index result.now k ≡ word self.now h k }
    {
        let at = first_word(h);
        &self.words[at..at + 4]
    }

    /// Whether a handle is held: a constant, or a node.
    pub fn holds(&self, h: u32) -> bool
        ensures { Decides result (Held (diagram_of self.now) h) }
    {
        h < 2 || self.height(h) != 0
    }
}

// Makes the first words 0.
fn clear(words: &mut [u32], count: usize)
    requires { count ≤ length words.old }
    ensures len { length words.new ≡ length words.old }
    ensures zero { (k : ℕ) → k < count → slice_index words.new k ≡ 0 }
{
    words[..count].fill(0);
}
