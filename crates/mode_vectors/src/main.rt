//! Known values of every mode, sent on the line and received on a plain engine, and the refusals at the bounds.
#![tactic(auto)]

mod bounds;
mod vectors;

fn main(rt: HostRuntime) -> anyhow::Result<()> {
    run(&rt)
}

fn run(rt: &(impl Print + AllocGlobal)) -> anyhow::Result<()> {
    for code in 1..=11u8 {
        vectors::show_code(rt, code)?;
    }
    vectors::show_codebook_example(rt)?;
    bounds::show(rt)
}
