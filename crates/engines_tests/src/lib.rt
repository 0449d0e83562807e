//! What tests of engines want: ciphers too simple to be of any other use, an engine around another, and a generator of
//! numbers that look random.
#![tactic(auto)]

pub mod chosen;
pub mod counted;
pub mod lines;
pub mod numbers;
#[cfg(test)]
mod tests;
pub mod toys;
