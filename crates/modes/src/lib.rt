//! The seven modes of operation over any block cipher: their figures, their equations and what they promise a receiver.
#![tactic(auto)]

pub mod family;
pub mod mode;
pub mod order;
pub mod reach;
mod row;
pub mod values;
pub mod way;
pub mod worked;
