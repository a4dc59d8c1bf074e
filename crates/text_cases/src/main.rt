//! Runs the form check on the texts that `cases.txt` names, and prints each answer with its value.
#![tactic(auto)]

use circuit_text::{Form, check_form};
use std::fs;

fn main(rt: HostRuntime) -> anyhow::Result<()> {
    run(&rt)
}

fn run(rt: &HostRuntime) -> anyhow::Result<()> {
    let names = fs::read_to_string(rt, "cases.txt")?;
    for name in names.lines() {
        case(rt, name)?;
    }
    Ok(())
}

fn case(rt: &HostRuntime, name: &str) -> anyhow::Result<()> {
    let path = format!(in rt.alloc(); "{name}.in")?;
    let text = fs::read(rt, path.as_str())?;
    match check_form(&text) {
        Ok(
            Form {
                qubits,
                opens,
                steps,
                reads,
            },
        ) => {
            println!(rt; "{name}: qubits {qubits} opens {opens} steps {steps} reads {reads}")?;
        }
        Err(fault) => {
            let number = fault.number();
            let value = fault.value();
            let place = fault.place();
            println!(rt; "{name}: refused {number} {value} {place}")?;
        }
    }
    Ok(())
}
