//! Calls on any function store, with handles in cells.
ghost use Rattle.std.specs.Prelude.{◌≡◌, ◌<◌, IfOk, replicate, slice_set};

use anyhow::anyhow;
use exact::Qubit;
use functions::{FunctionStore, StoreFault};
use std::{fmt, io};

const CELLS: usize = 16;

/// A store, and the handles that calls were answered with.
#[derive(Drop)]
pub struct Cells<S> {
    pub store: S,
    handles: [u32; CELLS],
}

impl<S: FunctionStore> Cells<S> {
    /// The constants in cells 0 and 1, and 0 in the others.
    pub fn over(store: S) -> Cells<S>
        requires { S.ordered store }
        ensures same { result.store ≡ store }
        ensures constants { result.handles ≡ slice_set (replicate CELLS 0) 1 1 }
        ensures order { S.ordered result.store }
    {
        let mut handles = [0; CELLS];
        handles[1] = 1;
        Cells { store, handles }
    }

    /// Makes a call and prints what it answers.
    pub fn answer(&mut self, rt: &HostRuntime, words: &[&str]) -> anyhow::Result<()>
        requires { S.ordered self.old.store }
        ensures { S.ordered self.new.store }
    {
        match words {
            ["literal", cell, q] => {
                let made = self.store.literal(Qubit(q.parse::<u32>()?));
                self.put(rt, cell, made, &[])
            }
            ["fixed", cell, f, q, bit] => {
                let f = self.handle(f)?;
                let made = self.store.fixed(f, Qubit(q.parse::<u32>()?), *bit == "1");
                self.put(rt, cell, made, &[f])
            }
            ["combine", cell, rule, f, g, h] => {
                let f = self.handle(f)?;
                let g = self.handle(g)?;
                let h = self.handle(h)?;
                let made = self.store.combine(rule.parse::<u8>()?, f, g, h);
                self.put(rt, cell, made, &[f, g, h])
            }
            ["keep", cells] => self.keep(rt, cells),
            question => self.ask(rt, question),
        }
    }

    // Answers a question.
    fn ask(&self, rt: &HostRuntime, words: &[&str]) -> anyhow::Result<()>
        requires { S.ordered self.now.store }
    {
        match words {
            ["value", f, index] => {
                let f = self.handle(f)?;
                answered(rt, self.store.value(f, index.parse::<u32>()?), &[f])?;
            }
            ["ones", f] => {
                let f = self.handle(f)?;
                answered(rt, self.store.ones(f), &[f])?;
            }
            ["same", f, g] => {
                let same = self.handle(f)? == self.handle(g)?;
                println!(rt; "{same}")?;
            }
            ["qubits"] => {
                let qubits = self.store.qubits();
                println!(rt; "{qubits}")?;
            }
            _ => return Err(anyhow!("a line is no call")),
        }
        Ok(())
    }

    // Keeps the functions of some cells, which are written with commas between them.
    fn keep(&mut self, rt: &HostRuntime, cells: &str) -> anyhow::Result<()>
        requires { S.ordered self.old.store }
        ensures { S.ordered self.new.store }
    {
        let mut list = Vec::new(rt.alloc());
        for cell in cells.split(',') {
            list.push(self.handle(cell)?)?;
        }
        answered(rt, self.store.keep(&list).map(|()| "kept"), &list)?;
        Ok(())
    }

    // The handle in a cell.
    fn handle(&self, cell: &str) -> anyhow::Result<u32> {
        Ok(self.handles[place(cell)?])
    }

    // Puts a handle into a cell, and shows its function.
    fn put(
        &mut self,
        rt: &HostRuntime,
        cell: &str,
        made: Result<u32, StoreFault>,
        asked: &[u32],
    ) -> anyhow::Result<()>
        requires { S.ordered self.old.store }
        ensures { S.ordered self.new.store }
    {
        let place = place(cell)?;
        match made {
            Ok(handle) => {
                self.handles[place] = handle;
                self.show(rt, handle)
            }
            Err(fault) => Ok(refused(rt, fault, asked)?),
        }
    }

    // Prints the number of ones of a function, and its values at those of six indices that it has.
    fn show(&self, rt: &HostRuntime, f: u32) -> anyhow::Result<()>
        requires { S.ordered self.now.store }
    {
        match self.store.ones(f) {
            Ok(ones) => print!(rt; "{ones}")?,
            Err(fault) => refused(rt, fault, &[f])?,
        }
        for index in [0u32, 1, 2, 5, 100, 255] {
            if let Ok(bit) = self.store.value(f, index) {
                print!(rt; " {bit}")?;
            }
        }
        println!(rt; "")?;
        Ok(())
    }
}

// The place of a cell, by its number.
fn place(cell: &str) -> anyhow::Result<usize>
    ensures { IfOk result (λ place. place < CELLS) }
{
    let place = cell.parse::<usize>()?;
    if place >= CELLS {
        return Err(anyhow!("a cell is past the last"));
    }
    Ok(place)
}

// Prints what a call answered, or its refusal.
fn answered<T: fmt::Display + Drop>(
    rt: &HostRuntime,
    answer: Result<T, StoreFault>,
    asked: &[u32],
) -> io::Result<()> {
    match answer {
        Ok(value) => println!(rt; "{value}"),
        Err(fault) => refused(rt, fault, asked),
    }
}

// A refusal. A handle is told by its place among those of the call, since its number is the store's own.
fn refused(rt: &HostRuntime, fault: StoreFault, asked: &[u32]) -> io::Result<()> {
    if let StoreFault::NotHeld(handle) = fault {
        if let Some(place) = asked.iter().position(|k| *k == handle) {
            let number = fault.number();
            return println!(rt; "refused {number} at {place}");
        }
    }
    println!(rt; "{fault}")
}
