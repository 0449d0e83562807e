//! Whole runs: a new cartridge, a start, two feeds with a drain after each, and the closing.
ghost use Rattle.std.specs.Prelude.{◌≡◌, ◌+◌, ◌≤◌, length, IfOk};
ghost use Rattle.engines.specs.Cycles.{emptied};
ghost use Rattle.runs.specs.Standing.{SameEngine};
ghost use Rattle.runs.specs.Stands.{of_run};
ghost use Rattle.runs.specs.Whole.{in_two};
ghost use Rattle.runs.specs.Emptying.{FedEmpty, FedTwice};

use super::cartridge::Cartridge;
use super::run::Run;
use super::run::heading::Heading;
use engines::engine::Engine;
use modes::order::Order;
use refusals::Refusal;

// That the engine keeps its functions and depth concerns two values, and no value holds both.
/// Feeds units and drains what is inside after them. Says how many units it handed out, first in the list.
fn feed_and_drain<E: Engine, W>(
    run: &mut Run<E, W>,
    units: &[u64],
    out: &mut [u64],
) -> Result<usize, Refusal>
    ensures emptied { of_run FedEmpty E.Engine.machine run.old run.new units.now out.old out.new result }
    ensures within { IfOk result (λ n. n ≤ length out.old) }
    ensures same { SameEngine (E.Engine.machine run.old.engine) (E.Engine.machine run.new.engine) }
{
    let given = run.feed(units, out)?;
    let drained = run.drain(&mut out[given..])?;
    Ok(given + drained)
}

/// Two feeds with a drain after each, the second behind what the first wrote. Says how many cycles the run took.
fn feed_twice<E: Engine, W>(
    run: &mut Run<E, W>,
    first: &[u64],
    second: &[u64],
    out: &mut [u64],
) -> Result<u64, Refusal>
    ensures { FedTwice (E.Engine.machine run.old.engine) (E.Engine.machine run.new.engine) run.old.frame (run.new.frame.before + run.new.frame.taken) first.now second.now out.old out.new result }
{
    let given = feed_and_drain(run, first, out)?;
    feed_and_drain(run, second, &mut out[given..])?;
    Ok(run.cycles())
}

/// Takes two lists of units through one run on a new cartridge, each with a drain behind it, and closes the run. Gives the cartridge
/// back with the cycles, or with the refusal of the feed that was refused; no feed follows that one. What is handed out stands first
/// in the output list, and its rest is untouched.
pub fn run_in_two<E: Engine, W: Heading + Drop>(
    engine: E,
    order: Order,
    heading: W,
    first: &[u64],
    second: &[u64],
    out: &mut [u64],
) -> (Cartridge<E>, Result<u64, Refusal>)
    ensures answer { result.1 ≡ (in_two (E.Engine.machine engine) order W.Heading.heads first.now second.now out.old).answer }
    ensures count { result.0.count ≡ (in_two (E.Engine.machine engine) order W.Heading.heads first.now second.now out.old).count }
    ensures output { out.new ≡ (in_two (E.Engine.machine engine) order W.Heading.heads first.now second.now out.old).output }
    ensures engine { E.Engine.machine result.0.engine ≡ emptied (E.Engine.machine engine) }
{
    let mut run = Cartridge::new(engine).start(order, heading);
    let answer = feed_twice(&mut run, first, second, out);
    (run.close(), answer)
}
