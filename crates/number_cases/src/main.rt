//! Runs the arithmetic of `exact` on the cases that standard input has, one to a line, and prints an answer for each.
#![tactic(auto)]

use anyhow::anyhow;
use exact::{Amplitude, Quadruple, RootTwoPower, TwoPower, Weight};
use std::io;
use std::io::{BufRead, BufReader};

fn main(rt: HostRuntime) -> anyhow::Result<()> {
    run(&rt)
}

fn run(rt: &HostRuntime) -> anyhow::Result<()> {
    for line in BufReader::new(rt.alloc(), rt.stdin())?.lines(rt.alloc()) {
        let line = line?;
        let words: Vec<&str> = line.split(' ').collect(rt.alloc())?;
        answer(rt, &words)?;
    }
    Ok(())
}

fn answer(rt: &HostRuntime, words: &[&str]) -> anyhow::Result<()> {
    match words {
        ["divide", a, b, c, d] => divide(rt, quadruple([a, b, c, d])?)?,
        ["same", a, b, c, d, j, e, f, g, h, k] => {
            let same = amplitude([a, b, c, d], j)?.same_as(amplitude([e, f, g, h], k)?);
            println!(rt; "{same}")?;
        }
        ["amplitude", a, b, c, d, k] => rt.println(amplitude([a, b, c, d], k)?)?,
        ["squares", k] => {
            let TwoPower(power) = RootTwoPower(k.parse::<u32>()?).of_squares();
            println!(rt; "{power}")?;
        }
        ["weight", whole, root, k] => rt.println(weight(whole, root, k)?)?,
        _ => return Err(anyhow!("a line is none of the cases")),
    }
    Ok(())
}

fn divide(rt: &HostRuntime, quadruple: Quadruple) -> io::Result<()> {
    match quadruple.over_root_two() {
        Some(divided) => rt.println(divided),
        None => println!(rt; "-"),
    }
}

fn quadruple(parts: [&str; 4]) -> anyhow::Result<Quadruple> {
    let [a, b, c, d] = parts;
    Ok(Quadruple {
        a: a.parse::<i32>()?,
        b: b.parse::<i32>()?,
        c: c.parse::<i32>()?,
        d: d.parse::<i32>()?,
    })
}

fn amplitude(parts: [&str; 4], power: &str) -> anyhow::Result<Amplitude> {
    Ok(Amplitude {
        quadruple: quadruple(parts)?,
        power: RootTwoPower(power.parse::<u32>()?),
    })
}

fn weight(whole: &str, root: &str, power: &str) -> anyhow::Result<Weight> {
    Ok(Weight {
        whole: whole.parse::<u64>()?,
        root: root.parse::<i64>()?,
        power: TwoPower(power.parse::<u32>()?),
    })
}
