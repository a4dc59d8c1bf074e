//! The nodes of a reduced ordered decision diagram, in words that are handed over.
#![tactic(auto)]

mod chains;
mod joining;
mod keeping;
mod nodes;
mod table;
mod undoing;

pub use table::NodeTable;
