//! Engines: what one means, the plain engine over any cipher, the line of three functional blocks, and what can be done
//! with any engine.
#![tactic(auto)]

pub mod clocking;
pub mod engine;
pub mod line;
pub mod plain;
pub mod table;
pub mod work;
