//! What the user is told of a job, as text.
#![tactic(auto)]

pub mod answering;
pub mod hexadecimal;
pub mod lines;
