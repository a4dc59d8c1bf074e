//! Combinations in their simplest form.
ghost use Rattle.node_rules.specs.Rules.{Ignores};
ghost use Rattle.node_rules.specs.Settling.{SetIfConstant, MergedIfEqual};
ghost use Rattle.node_rules.specs.Combinations.{Taken, Simplified, Outright};

use crate::operands::Operand;
use crate::rules;
use functions::Combination;

/// The same question in its simplest form, so that equal questions become equal: a handle that is a constant, equals an
/// earlier one or does not matter is replaced by 0, and the rule no longer looks at it.
pub fn simplified(asked: Combination) -> Combination
    ensures { Simplified asked result }
{
    let Combination { rule, f, g, h } = asked;
    let rule = merged_if_equal(rule, Operand::Third, h, Operand::Second, g);
    let rule = merged_if_equal(rule, Operand::Third, h, Operand::First, f);
    let rule = merged_if_equal(rule, Operand::Second, g, Operand::First, f);
    let rule = set_if_constant(rule, Operand::First, f);
    let rule = set_if_constant(rule, Operand::Second, g);
    let rule = set_if_constant(rule, Operand::Third, h);
    Combination {
        rule,
        f: unless_ignored(rule, Operand::First, f),
        g: unless_ignored(rule, Operand::Second, g),
        h: unless_ignored(rule, Operand::Third, h),
    }
}

/// The answer, if the rule is constant or copies one of the handles.
pub fn outright(asked: Combination) -> Option<u32>
    ensures { Outright asked result }
{
    match asked.rule {
        rules::ZERO => Some(0),
        rules::ONE => Some(1),
        rules::FIRST => Some(asked.f),
        rules::SECOND => Some(asked.g),
        rules::THIRD => Some(asked.h),
        _ => None,
    }
}

// The rule with an operand set, if its handle is a constant.
fn set_if_constant(rule: u8, operand: Operand, handle: u32) -> u8
    ensures { SetIfConstant rule operand handle result }
{
    if handle < 2 {
        rules::with(rule, operand, handle == 1)
    } else {
        rule
    }
}

// The rule that takes another operand for one, if their handles are equal and no constant.
fn merged_if_equal(rule: u8, operand: Operand, handle: u32, other: Operand, earlier: u32) -> u8
    ensures { MergedIfEqual rule operand handle other earlier result }
{
    if handle == earlier && handle >= 2 {
        rules::merged(rule, operand, other)
    } else {
        rule
    }
}

// A handle that the rule looks at; 0 stands for any other.
fn unless_ignored(rule: u8, operand: Operand, handle: u32) -> u32
    ensures { Taken (Ignores rule operand) handle result }
{
    if rules::ignores(rule, operand) {
        0
    } else {
        handle
    }
}
