//! Jobs: what the bytes of one ask for, and running it on an engine of its own.
#![tactic(auto)]

mod carrying;
pub mod export;
mod key_set;
mod passage;
pub mod report;
pub mod running;
mod task;

/// The most bytes of data that a job has.
pub const DATA_LIMIT: usize = 32_768;
