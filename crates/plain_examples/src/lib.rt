//! Worked examples of the plain machine.
#![tactic(auto)]

ghost use Rattle.plain_examples.specs.Examples.{Examples};

/// The worked examples.
pub fn examples()
    ensures { Examples }
{}
