//! Cartridges and the runs on them, over any engine.
#![tactic(auto)]

pub mod cartridge;
pub mod ends;
mod frame;
pub mod run;
#[cfg(test)]
mod tests;
pub mod whole;
