//! The one function for programs in C, as Rattle has it. The crate `jobs_c` exports it.
ghost use Rattle.std.specs.Prelude.{◌≡◌, length};
ghost use Rattle.jobs.specs.Meaning.{meaning, reported, output_after, signed};

use super::running::run_job;

/// Runs a job. Answers how many bytes it wrote to the output, or minus the number of the refusal.
#[tactic(auto, using(std::proofs::lemmas::Int::to_z_pos))]
pub fn tdea_run(job: &[u8], out: &mut [u8]) -> i64
    ensures answer { result ≡ signed (reported (meaning job.now (length out.old))) }
    ensures output { out.new ≡ output_after (meaning job.now (length out.old)) out.old }
{
    // One number tells a length or a refusal, since programs in C read it.
    match run_job(job, out) {
        Ok(report) => report.bytes as i64,
        Err(refusal) => -i64::from(refusal.number()),
    }
}
