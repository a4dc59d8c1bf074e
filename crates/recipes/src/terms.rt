//! The terms of recipes.
use slicing::Component;

/// A column that is made of the old ones.
#[derive(Clone, Copy)]
pub enum Operand {
    /// The column of zeros.
    Zero,
    /// The old column.
    Old(Component),
    /// The old column with the target set to a bit.
    Fixed(Component, bool),
    /// The old column with the target turned.
    Flipped(Component),
    /// The target chooses the first column, else the second.
    Chosen(Component, Component),
    /// The controls choose the old column with the target turned, else the old column.
    Controlled(Component),
}

/// The first carry of an addition: where it is 1, the second column is subtracted.
#[derive(Clone, Copy)]
pub enum FirstCarry {
    /// The constant 0.
    Nowhere,
    /// The constant 1.
    Everywhere,
    /// The target's literal.
    Target,
    /// The negation of the target's literal.
    NotTarget,
    /// The product of all literals.
    ControlsAndTarget,
}

/// A new column: an operand as it is, or the sum of two.
#[derive(Clone, Copy)]
pub enum Term {
    Just(Operand),
    Add(Operand, Operand, FirstCarry),
}
