//! How a refusal is told.
use circuit_text::MAX_BYTES;
use std::io;
use text_reader::{Place, TextFault};

/// Writes the `refused` line on standard output, and a sentence on standard error.
pub(crate) fn refuse(rt: &HostRuntime, fault: TextFault) -> io::Result<()> {
    println!(rt; "{fault}")?;
    let Place { line, column } = fault.place();
    match fault {
        TextFault::TooLong { .. } => eprintln!(rt; "The text has more than {MAX_BYTES} bytes."),
        TextFault::Unexpected { byte, .. } => {
            eprint!(rt; "Line {line}, column {column}: no circuit text goes on with ")?;
            describe(rt, byte)
        }
        TextFault::OutOfRange { count, .. } => {
            eprintln!(rt;
                "Line {line}, column {column}: the count {count} is out of its section's range."
            )
        }
    }
}

/// Ends the sentence with what begins with this byte, or is the end.
fn describe(rt: &HostRuntime, byte: Option<u8>) -> io::Result<()> {
    match byte {
        None | Some(0) => eprintln!(rt; "a zero byte, or the end, there."),
        Some(b'\t') => eprintln!(rt; "a tab there."),
        Some(b'\n') => eprintln!(rt; "a line end there."),
        Some(b'\r') => eprintln!(rt; "a carriage return there."),
        Some(b' ') => eprintln!(rt; "a space there."),
        Some(first @ b'!'..=b'~') => {
            let first = first as char;
            eprintln!(rt; "that word, which begins with `{first}`.")
        }
        Some(other) => eprintln!(rt; "a word that begins with byte {other}."),
    }
}
