//! The lines that tell what became of a job.
ghost use Rattle.std.specs.Prelude.{◌≡◌, IfOk, string_bytes};
ghost use Rattle.job_text.specs.Texts.{lines_of_report, line_of_refusal};

use super::hexadecimal::hexadecimal;
use jobs::report::Report;
use refusals::Refusal;
use std::alloc::{AllocError, Global};

/// How many units the run took, in how many cycles, and the bytes of its results, on three lines; an error only for want of memory.
pub fn report_lines(heap: Global, report: Report, bytes: &[u8]) -> Result<String, AllocError>
    ensures { IfOk result (λ s. string_bytes s ≡ lines_of_report report.units report.cycles bytes.now) }
{
    let Report { units, cycles, .. } = report;
    let digits = hexadecimal(heap, bytes)?;
    format!(in heap; "UNITS {units}\nCYCLES {cycles}\n{digits}\n")
}

/// A refusal with its number and its detail, on one line; an error only for want of memory.
pub fn refusal_line(heap: Global, refusal: Refusal) -> Result<String, AllocError>
    ensures { IfOk result (λ s. string_bytes s ≡ line_of_refusal refusal) }
{
    let number = refusal.number();
    let detail = refusal.detail();
    format!(in heap; "REFUSED {number} {detail}\n")
}
