//! Jobs with as much data as a job takes, and with a byte more. Of what the user is told, the first two lines are printed.
use crate::hex_text::bytes_of;
use job_text::answering::answer;

const FEEDBACK: &str =
    "010018 0123456789ABCDEF 23456789ABCDEF01 456789ABCDEF0123 020001 05 030001 01 040008 1234567890ABCDEF 058000";

const CODEBOOK: &str =
    "010018 0123456789ABCDEF 23456789ABCDEF01 456789ABCDEF0123 020001 01 030001 01 040000 058000";

const TOO_LONG: &str = "010008 133457799BBCDFF1 020001 01 030001 01 040000 058001";

pub fn show(rt: &HostRuntime) -> anyhow::Result<()> {
    rt.println("Long jobs")?;
    show_padded(rt, "code 5, 32,768 bytes", FEEDBACK, 32_768)?;
    show_padded(rt, "code 1, 32,768 bytes", CODEBOOK, 32_768)?;
    show_padded(rt, "32,769 bytes", TOO_LONG, 32_769)
}

/// The job is the bytes that the digits give, with so many zeros behind them.
fn show_padded(rt: &HostRuntime, name: &str, digits: &str, zeros: usize) -> anyhow::Result<()> {
    let heap = rt.alloc();
    let mut job = bytes_of(heap, digits)?;
    job.resize(job.len().saturating_add(zeros), 0)?;
    let text = answer(heap, job.as_slice())?;
    print!(rt; "{name}: ")?;
    for line in text.as_str().lines().take(2) {
        rt.println(line)?;
    }
    Ok(())
}
