//! What a job that was run answers.

/// How many units the run took, in how many cycles, and how many bytes were written.
#[derive(Clone, Copy, PartialEq, Eq, Debug)]
pub struct Report {
    pub units: usize,
    pub cycles: u64,
    pub bytes: usize,
}
