//! Running a job, and telling what became of it.
ghost use Rattle.std.specs.Prelude.{◌≡◌, IfOk, string_bytes};
ghost use Rattle.calls.specs.Theorem.{Theorem};
ghost use Rattle.jobs.specs.Asking.{data_limit};
ghost use Rattle.jobs.specs.Meaning.{meaning, JobsAreRuns, JobsRestore};
ghost use Rattle.job_text.specs.Texts.{answer_text};

use super::lines::{refusal_line, report_lines};
use jobs::DATA_LIMIT;
use jobs::running::run_job;
use std::alloc::{AllocError, Global};

// By a rule of the project the theorem stands on the contract of this call.
/// The text that tells what became of a job: units, cycles and results, or why it is refused; an error only for want of memory. Its
/// contract also carries the theorem over all lists of calls, that a job is one run, and that a job that goes back restores the data.
#[tactic(auto, using(calls::proofs::Whole::theorem, jobs::proofs::AsRuns::jobs_are_runs))]
pub fn answer(heap: Global, job: &[u8]) -> Result<String, AllocError>
    ensures text { IfOk result (λ s. string_bytes s ≡ answer_text (meaning job.now data_limit)) }
    ensures theorem { Theorem }
    ensures runs { JobsAreRuns }
    ensures restoring { JobsRestore }
{
    let mut room = vec![in heap; 0; DATA_LIMIT]?;
    let out = room.as_mut_slice();
    match run_job(job, out) {
        Ok(report) => report_lines(heap, report, &out[..report.bytes]),
        Err(refusal) => refusal_line(heap, refusal),
    }
}
