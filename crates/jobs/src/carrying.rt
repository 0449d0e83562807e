//! The units of a job on their way through a run.
ghost use Rattle.std.specs.Prelude.{◌≡◌};
ghost use Rattle.runs.specs.Standing.{SameEngine};
ghost use Rattle.runs.specs.Stands.{of_run};
ghost use Rattle.jobs.specs.Carrying.{FedOn, DrainedOff, CarriedOut};

use super::passage::Passage;
use super::report::Report;
use engines::engine::{Engine, GREATEST_DEPTH};
use job_format::units::reading::UnitReader;
use job_format::units::writing::UnitWriter;
use refusals::Refusal;
use runs::run::Run;

// Each call says that the engine keeps its functions and depth, and the writer its list and mode, since that concerns two values, and no
// value holds both.

/// Feeds one unit, and writes what comes out. An engine holds fewer units than it is deep, so there is room for all that can come out; and
/// there is room to write it, as the data was checked.
fn feed_unit<E: Engine, W>(
    run: &mut Run<E, W>,
    unit: u64,
    writer: &mut UnitWriter<'_>,
) -> Result<(), Refusal>
    ensures fed { of_run FedOn E.Engine.machine run.old run.new writer.old.mode unit writer.old.end writer.new.end writer.old.out.now writer.new.out.now result }
    ensures same { SameEngine (E.Engine.machine run.old.engine) (E.Engine.machine run.new.engine) }
    ensures reference { writer.new.out.ghost_name ≡ writer.old.out.ghost_name }
    ensures mode { writer.new.mode ≡ writer.old.mode }
{
    let mut results = [0; GREATEST_DEPTH];
    let given = run.feed(&[unit], &mut results)?;
    writer.write(&results[..given])
}

/// Drains the run, and writes what comes out.
fn drain_off<E: Engine, W>(run: &mut Run<E, W>, writer: &mut UnitWriter<'_>) -> Result<(), Refusal>
    ensures drained { of_run DrainedOff E.Engine.machine run.old run.new writer.old.mode writer.old.end writer.new.end writer.old.out.now writer.new.out.now result }
    ensures same { SameEngine (E.Engine.machine run.old.engine) (E.Engine.machine run.new.engine) }
    ensures reference { writer.new.out.ghost_name ≡ writer.old.out.ghost_name }
{
    let mut results = [0; GREATEST_DEPTH];
    let left = run.drain(&mut results)?;
    writer.write(&results[..left])
}

/// Feeds all units one by one, drains once at the end, and tells the numbers of the run.
fn carry<E: Engine, W>(
    run: &mut Run<E, W>,
    passage: Passage<'_>,
    out: &mut [u8],
) -> Result<Report, Refusal>
    ensures { CarriedOut (E.Engine.machine run.old.engine) run.old.frame passage.entry.order.mode passage.entry.«data».now out.old out.new result }
{
    let mode = passage.order.mode();
    let mut writer = UnitWriter::new(mode, out);
    for unit in UnitReader::new(mode, passage.data) {
        feed_unit(run, unit, &mut writer)?;
    }
    drain_off(run, &mut writer)?;
    Ok(Report {
        units: run.units_taken(),
        cycles: run.cycles(),
        bytes: writer.written(),
    })
}

/// The same, and closes the run whatever it answered.
pub(crate) fn carry_out<E: Engine + Drop, W: Drop>(
    mut run: Run<E, W>,
    passage: Passage<'_>,
    out: &mut [u8],
) -> Result<Report, Refusal>
    ensures { CarriedOut (E.Engine.machine run.engine) run.frame passage.entry.order.mode passage.entry.«data».now out.old out.new result }
{
    let answer = carry(&mut run, passage, out);
    drop(run.close());
    answer
}
