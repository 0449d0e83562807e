//! Runs the jobs that standard input lists, and some that are long or have little room, and prints what the user is told of each. What
//! is due stands in the file `stdout`; for the listed jobs it is compared with an implementation of its own by the tests in Rust.
#![tactic(auto)]

mod hex_text;
mod little_room;
mod long;

use hex_text::bytes_of;
use job_text::answering::answer;

fn main(rt: HostRuntime) -> anyhow::Result<()> {
    run(&rt)
}

fn run(rt: &HostRuntime) -> anyhow::Result<()> {
    for line in rt.lines(rt.alloc()) {
        show_line(rt, line?.as_str())?;
    }
    long::show(rt)?;
    little_room::show(rt)
}

/// A line is a name, a colon and a job in hexadecimal; one with no colon is a heading.
fn show_line(rt: &HostRuntime, line: &str) -> anyhow::Result<()> {
    let heap = rt.alloc();
    let Some((name, digits)) = line.split_once(':') else {
        rt.println(line)?;
        return Ok(());
    };
    let job = bytes_of(heap, digits)?;
    let text = answer(heap, job.as_slice())?;
    print!(rt; "{name}: {text}")?;
    Ok(())
}
