//! Prints what each line of the circuit text on standard input says, with the places of its words.
#![tactic(auto)]

use anyhow::anyhow;
use circuit_text::{CircuitText, Content, Line};
use std::io;
use std::io::Read;
use text_phrases::Question;
use text_reader::Place;
use text_words::{Section, StepWord};

fn main(rt: HostRuntime) -> anyhow::Result<()> {
    run(&rt)
}

fn run(rt: &HostRuntime) -> anyhow::Result<()> {
    let mut bytes = Vec::new(rt.alloc());
    rt.stdin().read_to_end(&mut bytes)?;
    let Ok(circuit) = CircuitText::check(bytes) else {
        return Err(anyhow!("this is no circuit text"));
    };
    for line in circuit.lines() {
        show(rt, line.content)?;
        places(rt, line)?;
    }
    Ok(())
}

fn show(rt: &HostRuntime, content: Content) -> io::Result<()> {
    match content {
        Content::Section { section, count } => {
            let word = named(section);
            print!(rt; "section {word} {count}")
        }
        Content::Opening(opening) => {
            let register = opening.register;
            let index = opening.index;
            print!(rt; "opening of {register} at {index}")
        }
        Content::Step(step) => {
            let kind = described(step.name);
            let [a, b, c, d] = step.numbers;
            print!(rt; "{kind} {a} {b} {c} {d}")
        }
        Content::Question(question) => asked(rt, question),
    }
}

fn asked(rt: &HostRuntime, question: Question) -> io::Result<()> {
    match question {
        Question::Amp { register, index } => print!(rt; "amplitude of {register} at {index}"),
        Question::Weight {
            register,
            qubit,
            outcome,
        } => { print!(rt; "weight of {register}, qubit {qubit}, outcome {outcome}") }
        Question::Same { first, second } => print!(rt; "whether {first} is {second}"),
    }
}

fn named(section: Section) -> &'static str {
    match section {
        Section::Qubits => "of qubits",
        Section::Opens => "of openings",
        Section::Steps => "of steps",
        Section::Reads => "of questions",
    }
}

fn described(name: StepWord) -> &'static str {
    match name {
        StepWord::Gate(_) => "gate",
        StepWord::Copy => "copy",
        StepWord::Close => "close",
    }
}

/// The bytes of the line and the places of its first three words.
fn places(rt: &HostRuntime, line: Line) -> io::Result<()> {
    print!(rt; " | ")?;
    for byte in line.bytes {
        let shown = *byte as char;
        print!(rt; "{shown}")?;
    }
    print!(rt; " |")?;
    for nth in 0..3 {
        let Place { line, column } = line.place(nth);
        print!(rt; " {line}:{column}")?;
    }
    println!(rt; "")
}
