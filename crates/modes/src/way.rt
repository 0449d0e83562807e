//! The two ways to go through a mode.

/// From plain units to ciphered ones, or back.
#[derive(Clone, Copy, PartialEq, Eq, Debug)]
pub enum Way {
    Enciphering,
    Deciphering,
}
