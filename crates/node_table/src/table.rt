//! A table of nodes in given words.
ghost use Rattle.std.specs.Prelude.{◌≡◌, ◌*◌, ◌-◌, ◌≤◌, vec_len};

use exact::QubitCount;

/// The nodes of a diagram of up to 16 qubits, four words for each node. Handle h of 2 and more is the node at place h - 2, in
/// the words from 4 (h - 2) on:
///
/// - word 0: the height, 0 if the place is free; 32 more if the node was kept; and 64 times the next handle of its chain;
/// - words 1 and 2: the handles of the low and the high half;
/// - word 3 of place b: the first handle of chain b.
///
/// Words past those of the last place are not used.
// Nodes are named by place and are no boxes: the words are handed over, and nothing allocates.
#[derive(Drop)]
pub struct NodeTable {
    pub(crate) qubits: QubitCount<16>,
    pub(crate) limit: u32,
    // Every place before this one has a node, and every node from it on has the mark of a keep.
    pub(crate) used: u32,
    pub(crate) words: Vec<u32>,
    ghost placed: { used ≤ limit },
    ghost small: { limit ≤ 65536 },
    ghost sized: { 4 * limit ≤ vec_len words },
}

/// What makes a node: its height, and the handles of its halves.
#[derive(Clone, Copy, PartialEq)]
pub(crate) struct Branch {
    pub(crate) height: u32,
    pub(crate) low: u32,
    pub(crate) high: u32,
}

// What word 0 has for a mark, and for one step of its link.
pub(crate) const MARK: u32 = 32;

pub(crate) const LINK: u32 = 64;

// Where the words of a handle of 2 and more begin.
pub(crate) fn first_word(h: u32) -> usize
    requires { 2 ≤ h }
    ensures { result ≡ 4 * (h - 2) }
{
    4 * (h as usize - 2)
}
