//! The grammar of circuit text: which texts it has, and what a fault of any other text says.
//!
//! There is no code here. `specs/` has the definitions and `proofs/` the theorems that the form check cites.
#![tactic(auto)]
