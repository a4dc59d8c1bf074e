//! Combinations as questions: a rule and three handles, and what can be said of them before any node is looked at.
#![tactic(auto)]

mod asking;
mod operands;
mod rules;

pub use asking::{outright, simplified};
