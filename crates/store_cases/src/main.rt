//! Runs the calls that standard input has, one to a line, on a memory over a table store, and prints an answer for each.
//!
//! Handles are kept in numbered cells. Cells 0 and 1 have those of the constants at first.
#![tactic(auto)]

ghost use Rattle.std.specs.Prelude.{IfOk};
ghost use Rattle.memory.specs.Remembering.{OrderedOver};
ghost use Rattle.table_store.specs.Stores.{meaning_of, InOrder};

use functions::FunctionStore;
use memory::Memory;
use std::io::{BufRead, BufReader};
use table_store::TableStore;

mod cells;

use cells::Cells;

fn main(rt: HostRuntime) -> anyhow::Result<()> {
    run(&rt)
}

fn run(rt: &HostRuntime) -> anyhow::Result<()> {
    let mut cells = opened(rt, 0, 0)?;
    for line in BufReader::new(rt.alloc(), rt.stdin())?.lines(rt.alloc()) {
        let line = line?;
        let words: Vec<&str> = line.split(' ').collect(rt.alloc())?;
        step(rt, &mut cells, &words)?;
    }
    Ok(())
}

// A line: a new store, or a call on the one that there is.
fn step(
    rt: &HostRuntime,
    cells: &mut Cells<Memory<TableStore>>,
    words: &[&str],
) -> anyhow::Result<()>
    requires { OrderedOver meaning_of InOrder cells.old.store }
    ensures { OrderedOver meaning_of InOrder cells.new.store }
{
    match words {
        ["store", qubits, words] => {
            *cells = opened(rt, qubits.parse::<u32>()?, words.parse::<usize>()?)?;
            Ok(())
        }
        call => cells.answer(rt, call),
    }
}

// A new store in words that hold something already, with what the check says of it.
fn opened(rt: &HostRuntime, qubits: u32, words: usize) -> anyhow::Result<Cells<Memory<TableStore>>>
    ensures { IfOk result (λ c. OrderedOver meaning_of InOrder c.store) }
{
    match TableStore::check(words, qubits) {
        Ok(()) => println!(rt; "store of {qubits} qubits")?,
        Err(fault) => println!(rt; "{fault}")?,
    }
    let words = vec![in rt.alloc(); u64::MAX; words]?;
    Ok(Cells::over(Memory::new(TableStore::new(words, qubits))))
}
