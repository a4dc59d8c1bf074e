//! The gates' matrices, registers led through gates, and the laws that tie them together.
#![tactic(auto)]

ghost use Rattle.matrices.specs.Laws.{GateLaws, ProductLaws, WeightLaws};
ghost use Rattle.matrices.specs.Examples.{Examples};

/// Every gate's matrix is square, and multiplies the sum of squares of any list by 2 to the power of its factor.
pub fn gate_laws()
    ensures { GateLaws }
{}

/// A register is a column of the product of its gates' matrices, so equal products give equal registers.
pub fn product_laws()
    ensures { ProductLaws }
{}

/// The two outcomes of every qubit of a register add up to 2^k and 0.
pub fn weight_laws()
    ensures { WeightLaws }
{}

/// The worked examples.
pub fn examples()
    ensures { Examples }
{}
