//! Rules: bit number 4a + 2b + c is the answer at the operands a, b and c.
ghost use Rattle.std.specs.Prelude.{◌≡◌, Bool, Decides};
ghost use Rattle.functions.specs.Tables.{ruled};
ghost use Rattle.node_rules.specs.Rules.{bit_of, replaced, Ignores};

use crate::operands::Operand;

/// The rules that are constant.
pub const ZERO: u8 = 0b0000_0000;

pub const ONE: u8 = 0b1111_1111;

/// The rules that copy an operand.
pub const FIRST: u8 = 0b1111_0000;

pub const SECOND: u8 = 0b1100_1100;

pub const THIRD: u8 = 0b1010_1010;

/// The rule with an operand set to a bit.
pub fn with(rule: u8, operand: Operand, bit: bool) -> u8
    ensures { (a b c : Bool) → ruled result a b c ≡ replaced rule operand bit a b c }
{
    if bit {
        let half = rule & operand.copied();
        half | half >> operand.weight()
    } else {
        let half = rule & !operand.copied();
        half | half << operand.weight()
    }
}

/// The rule that takes another operand for one.
pub fn merged(rule: u8, operand: Operand, other: Operand) -> u8
    ensures { (a b c : Bool) → ruled result a b c ≡ replaced rule operand (bit_of other a b c) a b c }
{
    let ones = other.copied();
    with(rule, operand, true) & ones | with(rule, operand, false) & !ones
}

/// Whether the answer never depends on an operand.
pub fn ignores(rule: u8, operand: Operand) -> bool
    ensures { Decides result (Ignores rule operand) }
{
    rule == with(rule, operand, false)
}
