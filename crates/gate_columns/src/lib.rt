//! The new columns of a gate, made over any function store as the gate's recipe says.
#![tactic(auto)]

ghost use Rattle.std.specs.Prelude.{◌≡◌, length};
ghost use Rattle.recipes.specs.Recipes.{target};
ghost use Rattle.columns.specs.Columns.{Wide, Sliced};
ghost use Rattle.gate_columns.specs.Gates.{listed, ControlsMade, LiteralsMade, FirstCarryMade, OperandMade, TermMade, NewColumnsMade};

use columns::{Column, Columns, add_columns, choose_column, fix_column, flip_column};
use exact::Qubit;
use functions::rules::{CONJUNCTION, PARITY};
use functions::{FunctionStore, StoreFault};
use recipes::Recipe;
use recipes::terms::{FirstCarry, Operand, Term};
use slicing::Component;

mod qubits;

pub use qubits::{GateQubits, Literals};

impl GateQubits {
    /// The target.
    #[tactic(auto, unfolding(recipes::specs::Recipes::target))]
    pub fn target(self) -> Qubit
        ensures { result.0 ≡ target (listed self) }
    {
        match self {
            GateQubits::One(target) => target,
            GateQubits::Two(_, target) => target,
            GateQubits::Three(_, _, target) => target,
        }
    }
}

/// The product of the controls' literals. Without controls it is the constant 1.
fn controls_product<S: FunctionStore>(store: &mut S, qubits: GateQubits) -> Result<u32, StoreFault>
    requires order { S.ordered store.old }
    ensures order { S.ordered store.new }
    ensures made { ControlsMade (S.meaning store.old) (S.meaning store.new) qubits result }
{
    match qubits {
        GateQubits::One(_) => Ok(1),
        GateQubits::Two(control, _) => store.literal(control),
        GateQubits::Three(first, second, _) => {
            let first = store.literal(first)?;
            let second = store.literal(second)?;
            store.combine(CONJUNCTION, first, second, 1)
        }
    }
}

/// The target's literal and the product of the controls' literals.
pub fn literals<S: FunctionStore>(store: &mut S, qubits: GateQubits) -> Result<Literals, StoreFault>
    requires order { S.ordered store.old }
    ensures order { S.ordered store.new }
    ensures made { LiteralsMade (S.meaning store.old) (S.meaning store.new) qubits result }
{
    let target = qubits.target();
    let literal = store.literal(target)?;
    let controls = controls_product(store, qubits)?;
    Ok(Literals {
        target,
        literal,
        controls,
    })
}

/// The first carry of an addition.
// Recipes are data with one interpreter, and no closures: laws say of each recipe that it is its gate's matrix.
pub fn first_carry<S: FunctionStore>(
    store: &mut S,
    literals: Literals,
    carry: FirstCarry,
) -> Result<u32, StoreFault>
    requires order { S.ordered store.old }
    ensures order { S.ordered store.new }
    ensures made { FirstCarryMade (S.meaning store.old) (S.meaning store.new) literals carry result }
{
    match carry {
        FirstCarry::Nowhere => Ok(0),
        FirstCarry::Everywhere => Ok(1),
        FirstCarry::Target => Ok(literals.literal),
        FirstCarry::NotTarget => store.combine(PARITY, literals.literal, 1, 0),
        FirstCarry::ControlsAndTarget => {
            store.combine(CONJUNCTION, literals.controls, literals.literal, 1)
        }
    }
}

/// An operand's column.
pub fn operand<S: FunctionStore>(
    store: &mut S,
    columns: &Columns<24>,
    literals: Literals,
    operand: Operand,
) -> Result<Column<24>, StoreFault>
    requires order { S.ordered store.old }
    ensures order { S.ordered store.new }
    ensures width { Wide (length columns.now.a) result }
    ensures made { OperandMade (S.meaning store.old) (S.meaning store.new) columns.now literals operand result }
{
    match operand {
        Operand::Zero => Ok(Column::zeros(columns.a.len())),
        Operand::Old(k) => Ok(columns.column(k)),
        Operand::Fixed(k, bit) => { fix_column(store, &columns.column(k), literals.target, bit) }
        Operand::Flipped(k) => flip_column(
            store,
            &columns.column(k),
            literals.target,
            literals.literal,
        ),
        Operand::Chosen(k, l) => choose_column(
            store,
            literals.literal,
            &columns.column(k),
            &columns.column(l),
        ),
        Operand::Controlled(k) => {
            let old = columns.column(k);
            let turned = flip_column(store, &old, literals.target, literals.literal)?;
            choose_column(store, literals.controls, &turned, &old)
        }
    }
}

/// A new column.
pub fn term<S: FunctionStore>(
    store: &mut S,
    columns: &Columns<24>,
    literals: Literals,
    term: Term,
) -> Result<Column<24>, StoreFault>
    requires order { S.ordered store.old }
    ensures order { S.ordered store.new }
    ensures width { Wide (length columns.now.a) result }
    ensures made { TermMade (S.meaning store.old) (S.meaning store.new) columns.now literals term result }
{
    match term {
        Term::Just(only) => operand(store, columns, literals, only),
        Term::Add(first, second, carry) => {
            let p = operand(store, columns, literals, first)?;
            let q = operand(store, columns, literals, second)?;
            let e = first_carry(store, literals, carry)?;
            add_columns(store, &p, &q, e)
        }
    }
}

/// All four new columns of a recipe, one after the other.
pub fn new_columns<S: FunctionStore>(
    store: &mut S,
    columns: &Columns<24>,
    literals: Literals,
    recipe: Recipe,
) -> Result<Columns<24>, StoreFault>
    requires order { S.ordered store.old }
    ensures order { S.ordered store.new }
    ensures slices { Sliced (length columns.now.a) result }
    ensures made { NewColumnsMade (S.meaning store.old) (S.meaning store.new) columns.now literals recipe result }
{
    let a = term(store, columns, literals, recipe.term(Component::A))?;
    let b = term(store, columns, literals, recipe.term(Component::B))?;
    let c = term(store, columns, literals, recipe.term(Component::C))?;
    let d = term(store, columns, literals, recipe.term(Component::D))?;
    Ok(Columns { a, b, c, d })
}
