//! Calls at the bounds: the last units that a cartridge takes, and an output list with no place.
use cipher::dea::Dea;
use engines::engine::Engine;
use engines::line::Line;
use modes::order::Order;
use refusals::Refusal;
use runs::cartridge::Cartridge;
use runs::run::EncipheringRun;
use runs::run::heading::Sending;
use std::fmt;

/// How many units are fed at once.
const CHUNK: usize = 4096;

/// What a call answers.
#[derive(Clone, Copy)]
struct Answer(Result<usize, Refusal>);

impl fmt::Display for Answer {
    fn fmt<W: fmt::Write>(&self, f: &mut fmt::Formatter<W>) -> fmt::Result {
        match self.0 {
            Ok(count) => write!(f, "{count} handed out"),
            Err(refusal) => write!(f, "refused {} {}", refusal.number(), refusal.detail()),
        }
    }
}

/// A run on a new line, in the codebook mode.
fn open() -> Result<EncipheringRun<Line<Dea, Dea, Dea>>, Refusal> {
    let order = Order::check(1, &[])?;
    let line = Line::new(Dea::new(1), Dea::new(2), Dea::new(3));
    Ok(Cartridge::new(line).start(order, Sending))
}

/// Feeds units, and drains them.
fn feed_and_drain<E: Engine>(run: &mut EncipheringRun<E>, units: &[u64]) -> Result<(), Refusal> {
    let mut out = [0; CHUNK];
    run.feed(units, &mut out)?;
    run.drain(&mut out)?;
    Ok(())
}

/// Takes a cartridge up to one unit below its limit, and then offers more, with room enough.
fn show_near_limit<E: Engine>(rt: &impl Print, run: &mut EncipheringRun<E>) -> anyhow::Result<()> {
    let units = [7; CHUNK];
    for _ in 0..255 {
        feed_and_drain(run, &units)?;
    }
    feed_and_drain(run, &units[1..])?;
    println!(rt; "units taken: {}", run.units_taken())?;
    let mut out = [0; 4];
    println!(rt; "two units more: {}", Answer(run.feed(&[1, 2], &mut out)))?;
    println!(rt; "one unit more: {}", Answer(run.feed(&[1], &mut out)))?;
    println!(rt; "another: {}", Answer(run.feed(&[1], &mut out)))?;
    Ok(())
}

/// Feeds no units, with two inside and no place for output.
fn show_no_place<E: Engine>(rt: &impl Print, run: &mut EncipheringRun<E>) -> anyhow::Result<()> {
    run.feed(&[1, 2], &mut [0; 2])?;
    let answer = Answer(run.feed(&[], &mut []));
    println!(rt; "no units, two inside, no place for output: {answer}")?;
    Ok(())
}

pub fn show(rt: &impl Print) -> anyhow::Result<()> {
    let mut run = open()?;
    let shown = show_near_limit(rt, &mut run);
    let count = run.close().count();
    shown?;
    println!(rt; "count: {count}")?;
    let mut run = open()?;
    let shown = show_no_place(rt, &mut run);
    drop(run.close());
    shown
}
