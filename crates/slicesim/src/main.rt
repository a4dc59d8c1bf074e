//! The program: checks the form of a circuit text from standard input or a file.
#![tactic(auto)]

mod explain;
mod input;

use circuit_text::{CircuitText, Form};
use input::Request;
use std::process::ExitCode;
use text_reader::TextFault;

const HELP: &str = "slicesim: an exact simulator for quantum circuits

  slicesim          checks the circuit text on standard input
  slicesim FILE     checks the circuit text in FILE
  slicesim --help, slicesim --version

A circuit text of the right form is answered by its `qubits` line and the
counts of its sections. Any other is answered by `refused NUMBER LINE COLUMN`
on standard output and a sentence on standard error, with exit status 1.";

const VERSION: &str = "slicesim 0.1.0
proved with rattle-kit-13f logic dac8208d650f15bf";

/// Ends with status 1 where a text was refused or something failed, once everything that is to be said has been written.
fn main(rt: HostRuntime) -> ExitCode {
    match run(&rt) {
        Ok(status) => status,
        Err(error) => {
            let _ = eprintln!(rt; "slicesim: {error}");
            ExitCode::FAILURE
        }
    }
}

/// Does what the arguments ask for. A text that is refused has status 1.
fn run(rt: &HostRuntime) -> anyhow::Result<ExitCode> {
    match input::asked(rt)? {
        Request::Help => println!(rt; "{HELP}")?,
        Request::Version => println!(rt; "{VERSION}")?,
        Request::Check(text) => return answer(rt, CircuitText::check(text)),
    }
    Ok(ExitCode::SUCCESS)
}

fn answer(rt: &HostRuntime, checked: Result<CircuitText, TextFault>) -> anyhow::Result<ExitCode> {
    match checked {
        Ok(circuit) => {
            let Form {
                qubits,
                opens,
                steps,
                reads,
            } = circuit.form();
            println!(rt; "qubits {qubits}")?;
            println!(rt; "form opens {opens} steps {steps} reads {reads}")?;
            Ok(ExitCode::SUCCESS)
        }
        Err(fault) => {
            explain::refuse(rt, fault)?;
            Ok(ExitCode::FAILURE)
        }
    }
}
