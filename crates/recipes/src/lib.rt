//! The recipe of each gate: how its new columns of slices are made of the old ones, as data.
#![tactic(auto)]

ghost use Rattle.std.specs.Prelude.{◌≡◌, true, false};
ghost use Rattle.gates.specs.declared.Gate.TheVariants.{S, T, Rx};
ghost use Rattle.recipes.specs.declared.terms.Operand.TheVariants.{Zero, Old, Fixed, Flipped};
ghost use Rattle.recipes.specs.declared.terms.Term.TheVariants.{Add};
ghost use Rattle.recipes.specs.Recipes.{gate_term, recipe_of, term_of};

pub mod laws;
pub mod terms;

use gates::Gate;
use slicing::Component;
use terms::{FirstCarry, Operand, Term};

/// A gate's four new columns. The target is the gate's last qubit, and controls come before it.
#[derive(Clone, Copy)]
pub struct Recipe {
    pub a: Term,
    pub b: Term,
    pub c: Term,
    pub d: Term,
}

impl Recipe {
    /// The recipe of a gate.
    pub fn of(gate: Gate) -> Recipe
        ensures { result ≡ recipe_of gate }
    {
        Recipe {
            a: term(gate, Component::A),
            b: term(gate, Component::B),
            c: term(gate, Component::C),
            d: term(gate, Component::D),
        }
    }

    /// The new column of a component.
    // Four fields: one generic struct for this, quadruples and columns would rename the fields that all definitions name.
    pub fn term(self, component: Component) -> Term
        ensures { result ≡ term_of self component }
    {
        match component {
            Component::A => self.a,
            Component::B => self.b,
            Component::C => self.c,
            Component::D => self.d,
        }
    }
}

/// The new column of one component, by a gate.
fn term(gate: Gate, k: Component) -> Term
    ensures { result ≡ gate_term gate k }
{
    match gate {
        Gate::X => Term::Just(Operand::Flipped(k)),
        Gate::Z => negated(Operand::Old(k), FirstCarry::Target),
        Gate::H => mixed(k, FirstCarry::Target),
        Gate::S => quarter_turn(k),
        Gate::T => eighth_turn(k),
        Gate::Rx => rotation(k),
        Gate::Ry => mixed(k, FirstCarry::NotTarget),
        Gate::Cx | Gate::Ccx => Term::Just(Operand::Controlled(k)),
        Gate::Cz => negated(Operand::Old(k), FirstCarry::ControlsAndTarget),
    }
}

/// Where the target is 1, times ω².
fn quarter_turn(k: Component) -> Term
    ensures { result ≡ gate_term S k }
{
    match k {
        Component::A => Term::Just(Operand::Chosen(Component::C, k)),
        Component::B => Term::Just(Operand::Chosen(Component::D, k)),
        Component::C => negated(Operand::Chosen(Component::A, k), FirstCarry::Target),
        Component::D => negated(Operand::Chosen(Component::B, k), FirstCarry::Target),
    }
}

/// Where the target is 1, times ω.
fn eighth_turn(k: Component) -> Term
    ensures { result ≡ gate_term T k }
{
    match k {
        Component::A => Term::Just(Operand::Chosen(Component::B, k)),
        Component::B => Term::Just(Operand::Chosen(Component::C, k)),
        Component::C => Term::Just(Operand::Chosen(Component::D, k)),
        Component::D => negated(Operand::Chosen(Component::A, k), FirstCarry::Target),
    }
}

/// The old amplitude, minus ω² times the one with the target turned.
fn rotation(k: Component) -> Term
    ensures { result ≡ gate_term Rx k }
{
    match k {
        Component::A => with_turned(k, Component::C, FirstCarry::Everywhere),
        Component::B => with_turned(k, Component::D, FirstCarry::Everywhere),
        Component::C => with_turned(k, Component::A, FirstCarry::Nowhere),
        Component::D => with_turned(k, Component::B, FirstCarry::Nowhere),
    }
}

/// The column where the target is 0, plus or minus the column where it is 1.
fn mixed(k: Component, minus: FirstCarry) -> Term
    ensures { result ≡ Add (Fixed k false) (Fixed k true) minus }
{
    Term::Add(Operand::Fixed(k, false), Operand::Fixed(k, true), minus)
}

/// A column, and its negative where the first carry is 1.
fn negated(operand: Operand, minus: FirstCarry) -> Term
    ensures { result ≡ Add Zero operand minus }
{
    Term::Add(Operand::Zero, operand, minus)
}

/// A column, plus or minus another one with the target turned.
fn with_turned(k: Component, other: Component, minus: FirstCarry) -> Term
    ensures { result ≡ Add (Old k) (Flipped other) minus }
{
    Term::Add(Operand::Old(k), Operand::Flipped(other), minus)
}
