//! Times runs over the line: nanoseconds a unit, in tenths, for some codes. It measures only where it is given a word, since what it then prints is never the same.
#![tactic(auto)]

use cipher::dea::Dea;
use engines::engine::Engine;
use engines::line::Line;
use modes::mode::Mode;
use modes::order::Order;
use refusals::Refusal;
use runs::cartridge::Cartridge;
use runs::run::EncipheringRun;
use runs::run::heading::Sending;
use std::env;
use std::time::{Clock, Duration, Instant};

/// Units of a feed, and feeds of a run.
const UNITS: usize = 4096;

const FEEDS: u64 = 64;

/// How many runs are timed; the quickest counts.
const ROUNDS: u32 = 7;

/// All the feeds of a run, with a drain after each.
fn feed_all<E: Engine>(run: &mut EncipheringRun<E>) -> Result<(), Refusal> {
    let units = [0x0123_4567_89AB_CDEF; UNITS];
    let mut out = [0; UNITS];
    for _ in 0..FEEDS {
        run.feed(&units, &mut out)?;
        run.drain(&mut out)?;
    }
    Ok(())
}

/// A whole run on a new line.
fn whole_run(order: Order) -> Result<(), Refusal> {
    let line = Line::new(
        Dea::new(0x0123_4567_89AB_CDEF),
        Dea::new(0x2345_6789_ABCD_EF01),
        Dea::new(0x4567_89AB_CDEF_0123),
    );
    let mut run = Cartridge::new(line).start(order, Sending);
    let answer = feed_all(&mut run);
    drop(run.close());
    answer
}

fn time_code(rt: &(impl Print + Clock), code: u8) -> anyhow::Result<()> {
    let mode = Mode::try_from(code)?;
    let order = Order::check(code, &[0x5A; 24][..8 * mode.initial_values()])?;
    let mut least = Duration::MAX;
    for _ in 0..ROUNDS {
        let start = Instant::now(rt)?;
        whole_run(order)?;
        least = least.min(start.elapsed(rt)?);
    }
    let tenths = least.as_nanos() / (UNITS as u128 * FEEDS as u128 / 10);
    println!(rt; "{mode} {tenths}")?;
    Ok(())
}

fn main(rt: HostRuntime) -> anyhow::Result<()> {
    if env::args(&rt)?.count() < 2 {
        println!(rt; "measures only where it is given a word")?;
        return Ok(());
    }
    for code in 1..=3 {
        time_code(&rt, code)?;
    }
    Ok(())
}
