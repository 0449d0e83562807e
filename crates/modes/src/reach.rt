//! How far an altered ciphered unit reaches.

/// The plain units behind an altered ciphered unit that it can make wrong: with unit d altered, units
/// d + `first` to d + `last`, as far as there are any.
#[derive(Clone, Copy, PartialEq, Eq, Debug)]
pub struct Reach {
    pub first: usize,
    pub last: usize,
}
