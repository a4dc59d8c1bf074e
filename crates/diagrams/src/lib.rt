//! Reduced ordered decision diagrams: what they stand for, and the laws of their handles, parts and growth.
//!
//! There is nothing to run here: each law is proved as the contract of a function that does nothing.
#![tactic(auto)]

ghost use Rattle.diagrams.specs.Laws.{DiagramLaws, MeaningLaws, FormingLaws};

/// Two held handles with the same function are equal, and what a handle reaches are the parts of its function.
pub fn diagram_laws()
    ensures { DiagramLaws }
{}

/// A reduced diagram within its limit means a store that keeps the laws of every store.
pub fn meaning_laws()
    ensures { MeaningLaws }
{}

/// A function formed by its halves is made as every store makes it, and one that falls short would exceed the limit.
pub fn forming_laws()
    ensures { FormingLaws }
{}
