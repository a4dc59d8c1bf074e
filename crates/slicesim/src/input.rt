//! What the program is asked to do, and the text that it is given.
use anyhow::anyhow;
use circuit_text::MAX_BYTES;
use std::fs::File;
use std::io::Read;
use std::{env, io};

/// One byte more than a circuit text may have: enough to see that a text is too long.
const MOST_BYTES: u64 = MAX_BYTES as u64 + 1;

#[derive(Drop)]
pub(crate) enum Request {
    Help,
    Version,
    Check(Vec<u8>),
}

/// Reads the arguments and, where a text is to be checked, the text.
pub(crate) fn asked(rt: &HostRuntime) -> anyhow::Result<Request> {
    let mut args = env::args(rt)?.skip(1);
    let Some(first) = args.next() else {
        return Ok(Request::Check(bytes_of(rt, rt.stdin())?));
    };
    if args.next().is_some() {
        return Err(anyhow!("there is more than one argument; --help says how to use slicesim"));
    }
    match first.as_str() {
        "--help" | "-h" => Ok(Request::Help),
        "--version" | "-V" => Ok(Request::Version),
        path => Ok(Request::Check(file(rt, path)?)),
    }
}

fn file(rt: &HostRuntime, path: &str) -> anyhow::Result<Vec<u8>> {
    match File::open(rt, path).and_then(|file| bytes_of(rt, file)) {
        Ok(text) => Ok(text),
        Err(error) => Err(anyhow!(format!(in rt.alloc(); "cannot read {path}: {error}")?)),
    }
}

fn bytes_of<R: Read + Drop>(rt: &HostRuntime, input: R) -> io::Result<Vec<u8>> {
    let mut text = Vec::new(rt.alloc());
    input.take(MOST_BYTES).read_to_end(&mut text)?;
    Ok(text)
}
