//! The operands of a rule.
ghost use Rattle.std.specs.Prelude.{◌≡◌, Bool};
ghost use Rattle.functions.specs.Tables.{ruled};
ghost use Rattle.node_rules.specs.Rules.{bit_of, weight};

use crate::rules;

/// One of the three operands a, b and c of a rule.
#[derive(Clone, Copy, PartialEq, Eq)]
pub enum Operand {
    First,
    Second,
    Third,
}

impl Operand {
    /// The rule that copies the operand.
    pub fn copied(self) -> u8
        ensures { (a b c : Bool) → ruled result a b c ≡ bit_of self a b c }
    {
        match self {
            Operand::First => rules::FIRST,
            Operand::Second => rules::SECOND,
            Operand::Third => rules::THIRD,
        }
    }

    /// What the operand counts in the number 4a + 2b + c.
    pub fn weight(self) -> u32
        ensures { result ≡ weight self }
    {
        match self {
            Operand::First => 4,
            Operand::Second => 2,
            Operand::Third => 1,
        }
    }
}
