//! Builds known functions of 16 qubits in a node store, and prints how many nodes and ones each has and how much room it needs.
#![tactic(auto)]

ghost use Rattle.std.specs.Prelude.{◌≤◌, IfOk};
ghost use Rattle.node_store.specs.Orders.{Ordered};

use anyhow::anyhow;
use exact::Qubit;
use functions::{FunctionStore, StoreFault, rules};
use node_store::NodeStore;

fn main(rt: HostRuntime) -> anyhow::Result<()> {
    run(&rt)
}

fn run(rt: &HostRuntime) -> anyhow::Result<()> {
    report(rt, "odd sum", odd_sum)?;
    report(rt, "carry, interleaved", |store| carry(store, 2, 1))?;
    report(rt, "carry, blocked", |store| carry(store, 1, 8))?;
    report(rt, "carry, interleaved, a bit set", carry_with_bit_set)
}

// Nodes and ones of a function, the least limit at which it can be made, and what a store of one node less does.
fn report<F: Fn(&mut NodeStore) -> Result<u32, StoreFault>>(
    rt: &HostRuntime,
    name: &str,
    build: F,
) -> anyhow::Result<()>
    requires callable { (x : _) → Ordered x.now → F.pre build x }
    requires keeps { (x r y : _) → Ordered x.now → F.post build x r y → Ordered y.now }
{
    let mut store = empty(rt, 4096)?;
    let f = build(&mut store).map_err(refusal)?;
    let ones = store.ones(f).map_err(refusal)?;
    store.keep(&[f]).map_err(|_| anyhow!("keep was refused"))?;
    println!(rt; "{name}: {} nodes, {ones} ones", store.held())?;
    let needed = least_limit(rt, &build)?;
    println!(rt; "  needs a limit of {needed}")?;
    let mut store = empty(rt, needed - 1)?;
    let first = store.literal(Qubit(0)).map_err(refusal)?;
    match build(&mut store) {
        Ok(_) => println!(rt; "  made in less")?,
        Err(fault) => println!(rt; "  at {}: {fault}", needed - 1)?,
    }
    let ones = store.ones(first).map_err(refusal)?;
    println!(rt;
        "  then {} held, and the first literal has {ones} ones",
        store.held()
    )?;
    Ok(())
}

// The least limit at which a function can be made; at least 1.
fn least_limit<F: Fn(&mut NodeStore) -> Result<u32, StoreFault>>(
    rt: &HostRuntime,
    build: &F,
) -> anyhow::Result<u32>
    requires { (x : _) → Ordered x.now → F.pre build.now x }
    ensures { IfOk result (λ limit. 1 ≤ limit) }
{
    for limit in 1..4096 {
        let mut store = empty(rt, limit)?;
        if build(&mut store).is_ok() {
            return Ok(limit);
        }
    }
    Err(anyhow!("no limit below 4096 is enough"))
}

// A store of 16 qubits with room for so many nodes.
fn empty(rt: &HostRuntime, limit: u32) -> anyhow::Result<NodeStore>
    ensures { IfOk result Ordered }
{
    let words = vec![in rt.alloc(); 0; 4 * limit as usize]?;
    Ok(NodeStore::new(words, 16))
}

fn refusal(_fault: StoreFault) -> anyhow::Error {
    anyhow!("a call was refused")
}

// Whether an odd number of the qubits is 1.
fn odd_sum(store: &mut NodeStore) -> Result<u32, StoreFault>
    requires { Ordered store.old }
    ensures { Ordered store.new }
{
    let mut sum = 0;
    for q in 0..16 {
        let bit = store.literal(Qubit(q))?;
        sum = store.combine(rules::PARITY, sum, bit, 0)?;
    }
    Ok(sum)
}

// The carry of two 8-bit numbers, where bit i of the first is qubit `stride` i, and that of the second `offset` after it.
fn carry(store: &mut NodeStore, stride: u32, offset: u32) -> Result<u32, StoreFault>
    requires order { Ordered store.old }
    requires few { (stride ≤ 2) × (offset ≤ 8) }
    ensures { Ordered store.new }
{
    let mut carry = 0;
    for i in 0..8 {
        let a = store.literal(Qubit(stride * i))?;
        let b = store.literal(Qubit(stride * i + offset))?;
        carry = store.combine(rules::MAJORITY, a, b, carry)?;
    }
    Ok(carry)
}

// The carry of two numbers whose bits stand in turn, with the second highest bit of the first set to 1.
fn carry_with_bit_set(store: &mut NodeStore) -> Result<u32, StoreFault>
    requires { Ordered store.old }
    ensures { Ordered store.new }
{
    let f = carry(store, 2, 1)?;
    store.fixed(f, Qubit(12), true)
}
