//! Jobs with less room for their results than their data has bytes. No text tells of this refusal, since a text has room for every job.
use crate::hex_text::bytes_of;
use jobs::running::run_job;

const ONE_BLOCK: &str =
    "010008 133457799BBCDFF1 020001 01 030001 01 040000 050008 0123456789ABCDEF";

const NO_BIT: &str =
    "010018 0123456789ABCDEF 23456789ABCDEF01 456789ABCDEF0123 020001 06 030001 01 040008 1234567890ABCDEF 050002 0002";

pub fn show(rt: &HostRuntime) -> anyhow::Result<()> {
    rt.println("Little room")?;
    show_in(rt, "seven bytes for eight", ONE_BLOCK, 7)?;
    show_in(rt, "none for a unit that is no bit", NO_BIT, 0)
}

/// What the job answers in so much room, and whether the output list is as it was.
fn show_in(rt: &HostRuntime, name: &str, digits: &str, room: usize) -> anyhow::Result<()> {
    let heap = rt.alloc();
    let job = bytes_of(heap, digits)?;
    let mut out = vec![in heap; 0xA5u8; room]?;
    match run_job(job.as_slice(), out.as_mut_slice()) {
        Ok(_) => println!(rt; "{name}: run")?,
        Err(refusal) => {
            let number = refusal.number();
            let detail = refusal.detail();
            let same = out.as_slice().iter().all(|byte| *byte == 0xA5);
            println!(rt; "{name}: REFUSED {number} {detail}, output unchanged: {same}")?;
        }
    }
    Ok(())
}
