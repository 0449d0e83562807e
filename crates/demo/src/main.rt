//! What the core does, for a person at the bench, up to a settlement file that travels over a bad line.
#![tactic(auto)]

mod blocks;
mod ciphering;
mod line;
mod loading;
mod mode_table;
mod records;
mod settlement;
mod shown;
mod transmission;

fn main(rt: HostRuntime) -> anyhow::Result<()> {
    run(&rt)
}

fn run(rt: &(impl Print + AllocGlobal)) -> anyhow::Result<()> {
    ciphering::show_tables(rt)?;
    println!(rt; "")?;
    mode_table::show(rt)?;
    println!(rt; "")?;
    loading::show_refused_keys(rt)?;
    println!(rt; "")?;
    line::show(rt)?;
    println!(rt; "")?;
    ciphering::show(rt)?;
    println!(rt; "")?;
    settlement::show(rt)
}
