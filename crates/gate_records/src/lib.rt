//! Records of registers opened at an index and led through gates, over any function store.
#![tactic(auto)]

ghost use Rattle.std.specs.Prelude.{◌≡◌, ◌≤◌};
ghost use Rattle.matrices.specs.Gates.{power_of};
ghost use Rattle.gate_records.specs.Moves.{Narrowed, ProductMade, RegisterOpened, GateApplied, SameRecordLaws};

use columns::{Column, Columns};
use exact::{Qubit, RootTwoPower};
use functions::rules::CHOICE;
use functions::{FunctionStore, StoreFault};
use gate_columns::{GateQubits, literals, new_columns};
use gates::Gate;
use recipes::Recipe;
use records::{Excess, Record};
use reductions::reduce;

/// A product so far with a literal, or with its negative.
fn narrow<S: FunctionStore>(
    store: &mut S,
    product: u32,
    literal: u32,
    bit: bool,
) -> Result<u32, StoreFault>
    requires order { S.ordered store.old }
    ensures order { S.ordered store.new }
    ensures narrowed { Narrowed (S.meaning store.old) (S.meaning store.new) product literal bit result }
{
    if bit {
        store.combine(CHOICE, literal, product, 0)
    } else {
        store.combine(CHOICE, literal, 0, product)
    }
}

/// The function that is 1 at one index only: from the last qubit to the first, its literal and the product so far.
fn index_product<S: FunctionStore>(store: &mut S, index: u32) -> Result<u32, StoreFault>
    requires order { S.ordered store.old }
    ensures order { S.ordered store.new }
    ensures made { ProductMade (S.meaning store.old) (S.meaning store.new) index result }
{
    let mut product = 1;
    let mut rest = index;
    for q in (0..store.qubits()).rev() {
        let literal = store.literal(Qubit(q))?;
        product = narrow(store, product, literal, rest % 2 == 1)?;
        rest /= 2;
    }
    Ok(product)
}

/// The record of a register opened at an index: the component d is 1 there, and all else is 0.
pub fn open_at<S: FunctionStore>(store: &mut S, index: u32) -> Result<Record, StoreFault>
    requires order { S.ordered store.old }
    ensures order { S.ordered store.new }
    ensures opened { RegisterOpened (S.meaning store.old) (S.meaning store.new) index result }
{
    let product = index_product(store, index)?;
    let zero = Column::zeros(2);
    Ok(Record {
        power: RootTwoPower(0),
        handles: Columns {
            a: zero,
            b: zero,
            c: zero,
            d: Column::from_slice(&[product, 0]),
        },
    })
}

/// How often a gate divides by √2.
fn gate_power(gate: Gate) -> RootTwoPower
    ensures is { result ≡ power_of gate }
    ensures few { result.0 ≤ 1 }
{
    match gate {
        Gate::H | Gate::Rx | Gate::Ry => RootTwoPower(1),
        Gate::X | Gate::Z | Gate::S | Gate::T | Gate::Cx | Gate::Cz | Gate::Ccx => RootTwoPower(0),
    }
}

/// The record of a register after a gate, in normal form; or which of its power and width no record can hold.
pub fn apply<S: FunctionStore>(
    store: &mut S,
    gate: Gate,
    qubits: GateQubits,
    old: &Record,
) -> Result<Result<Record, Excess>, StoreFault>
    requires order { S.ordered store.old }
    ensures order { S.ordered store.new }
    ensures applied { GateApplied (S.meaning store.old) (S.meaning store.new) gate qubits old.now result }
{
    let literals = literals(store, qubits)?;
    let repeated = old.columns().repeat_tops();
    let columns = new_columns(store, &repeated, literals, Recipe::of(gate))?;
    let power = RootTwoPower(gate_power(gate).0 + old.power.0);
    let normal = reduce(store, columns, power)?;
    Ok(Record::trimmed(&normal.columns, normal.power))
}

/// In a store in order, the records of two states are equal exactly if the states are.
pub fn same_record_laws()
    ensures { SameRecordLaws }
{}
