//! Running a job.
ghost use Rattle.std.specs.Prelude.{◌≡◌, ◌≤◌, length, IfOk, Ok};
ghost use Rattle.modes.specs.Orders.{opening};
ghost use Rattle.calls.specs.Theorem.{Theorem};
ghost use Rattle.jobs.specs.Asking.{data_limit, task_asked};
ghost use Rattle.jobs.specs.Meaning.{done, done_on, meaning, report_of, reported, output_after, JobsAreRuns, JobsRestore};

use super::carrying::carry_out;
use super::key_set::KeySet;
use super::passage::Passage;
use super::report::Report;
use super::task::Task;
use engines::engine::Engine;
use engines::line::Line;
use engines::plain::Plain;
use job_format::fields::Fields;
use modes::way::Way;
use refusals::Refusal;
use runs::cartridge::Cartridge;
use runs::run::heading::{Receiving, Sending};

// By a rule of the project the theorem stands on the contract of this call.
/// Runs a job: its units are fed in order to one run on a new cartridge, which is drained once, at the end. Writes as many
/// bytes as the data has, first in the output, and leaves its rest; where it is refused it leaves all of it.
#[tactic(auto, using(calls::proofs::Whole::theorem, crate::proofs::AsRuns::jobs_are_runs))]
pub fn run_job(job: &[u8], out: &mut [u8]) -> Result<Report, Refusal>
    ensures answer { result ≡ reported (meaning job.now (length out.old)) }
    ensures output { out.new ≡ output_after (meaning job.now (length out.old)) out.old }
    ensures limit { IfOk result (λ t. t.bytes ≤ data_limit) }
    ensures theorem { Theorem }
    ensures runs { JobsAreRuns }
    ensures restoring { JobsRestore }
{
    let fields = Fields::read(job)?;
    let task = Task::check(fields, out.len())?;
    task.run(out)
}

impl Task<'_> {
    /// One key runs on the plain engine over single DEA, three run on the line.
    fn run(self, out: &mut [u8]) -> Result<Report, Refusal>
        requires { length self.passage.«data».now ≤ length out.old }
        ensures answer { result ≡ Ok (report_of (done (task_asked self.entry))) }
        ensures output { out.new ≡ output_after (Ok (done (task_asked self.entry))) out.old }
    {
        let Task { keys, passage } = self;
        match keys {
            KeySet::Single(key) => {
                let engine = Plain::new(key.into_cipher());
                run_on(engine, passage, out)
            }
            KeySet::Bundle(bundle) => {
                let (first, second, third) = bundle.into_ciphers();
                let engine = Line::new(first, second, third);
                run_on(engine, passage, out)
            }
        }
    }
}

/// One run over the engine, in a new cartridge.
fn run_on<E: Engine + Drop>(
    engine: E,
    passage: Passage<'_>,
    out: &mut [u8],
) -> Result<Report, Refusal>
    requires { length passage.«data».now ≤ length out.old }
    ensures answer { result ≡ Ok (report_of (done_on (E.Engine.machine engine) (opening passage.entry.order) passage.entry.way passage.entry.«data».now)) }
    ensures output { out.new ≡ output_after (Ok (done_on (E.Engine.machine engine) (opening passage.entry.order) passage.entry.way passage.entry.«data».now)) out.old }
{
    let cartridge = Cartridge::new(engine);
    let order = passage.order;
    // two arms, since the type of a run says which way it goes
    match passage.way {
        Way::Enciphering => carry_out(cartridge.start(order, Sending), passage, out),
        Way::Deciphering => carry_out(cartridge.start(order, Receiving), passage, out),
    }
}
