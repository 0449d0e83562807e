//! Runs the job on standard input, and prints what became of it.
#![tactic(auto)]

use job_text::answering::answer;
use std::io::Read;

fn main(rt: HostRuntime) -> anyhow::Result<()> {
    run(&rt)
}

/// The job is the first 65,536 bytes at most; what follows them is not read.
fn run(rt: &HostRuntime) -> anyhow::Result<()> {
    let heap = rt.alloc();
    let mut job = Vec::new(heap);
    rt.stdin().take(65_536).read_to_end(&mut job)?;
    rt.print(answer(heap, job.as_slice())?)?;
    Ok(())
}
