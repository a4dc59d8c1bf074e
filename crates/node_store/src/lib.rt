//! A function store over a reduced ordered decision diagram.
#![tactic(auto)]

mod calls;
mod forming;
mod making;
mod new;
mod questions;
mod store;
mod walking;

pub use store::NodeStore;
