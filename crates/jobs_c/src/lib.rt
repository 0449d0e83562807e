//! The library for C. It has nothing but the function that runs a job, under the name that a linker finds.
#![tactic(auto)]

ghost use Rattle.std.specs.Prelude.{◌≡◌, length};
ghost use Rattle.jobs.specs.Meaning.{meaning, reported, output_after, signed};

use jobs::export;

// The function of `jobs` again: a linker finds only an exported name. It answers one signed number, since programs in C read it.
/// Runs a job. Answers how many bytes it wrote to the output, or minus the number of the refusal.
#[unsafe(no_mangle)]
pub extern "C" fn tdea_run(job: &[u8], out: &mut [u8]) -> i64
    ensures answer { result ≡ signed (reported (meaning job.now (length out.old))) }
    ensures output { out.new ≡ output_after (meaning job.now (length out.old)) out.old }
{
    export::tdea_run(job, out)
}
