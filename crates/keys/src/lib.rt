//! Keys: loaded from lent bytes, which are zero afterwards, and turned into ciphers.
#![tactic(auto)]

pub mod building;
mod guard;
pub mod loading;
mod parity;
#[cfg(test)]
mod tests;

ghost use Rattle.std.specs.Prelude.{◌≡◌, ◌≢◌};
ghost use Rattle.keys.specs.Parity.{OddBytes};

/// One loaded key: every byte of its word has an odd count of ones.
///
/// There is no way to one but by loading, and no way to keep a copy.
#[derive(Drop)]
pub struct SingleKey {
    word: u64,
    ghost odd: { OddBytes word },
}

/// Three loaded keys that are not all the same.
#[derive(Drop)]
pub struct KeyBundle {
    first: SingleKey,
    second: SingleKey,
    third: SingleKey,
    ghost differ: { first.word ≡ second.word → second.word ≢ third.word },
}
