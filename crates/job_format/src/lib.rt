//! The format of a job: five tagged fields over the caller's bytes, and units that lie in bytes.
#![tactic(auto)]

pub mod fields;
pub mod reader;
pub mod tag;
pub mod units;
