//! What places of packed tables hold, and what that means. A crate of definitions and lemmas, without code.
#![tactic(auto)]
