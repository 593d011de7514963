//! Shares amounts over weights, line by line from standard input.

#![tactic(auto)]

use sharing_text::{Reply, reply_to};

// Prints the answer to the line of this number, if it has one.
fn answer(rt: &HostRuntime, number: u64, line: &str) -> anyhow::Result<()> {
    let reply = reply_to(rt.alloc(), line.as_bytes())?;
    match reply {
        Reply::Silence => Ok(()),
        Reply::Malformed => Ok(println!(rt; "malformed at line {number}")?),
        reply => Ok(println!(rt; "{reply}")?),
    }
}

fn run(rt: &HostRuntime) -> anyhow::Result<()> {
    for (number, line) in (1u64..).zip(rt.lines(rt.alloc())) {
        answer(rt, number, line?.as_str())?;
    }
    Ok(())
}

fn main(rt: HostRuntime) -> anyhow::Result<()> {
    run(&rt)
}
