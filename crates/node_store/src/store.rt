//! The node store.
use node_answers::Remembered;
use node_table::NodeTable;

/// Boolean functions of 1 to 16 qubits as the nodes of one reduced ordered diagram, in words that are handed over, with
/// answers remembered from one keep or refusal to the next.
#[derive(Drop)]
pub struct NodeStore {
    pub(crate) nodes: NodeTable,
    pub(crate) remembered: Remembered,
}
