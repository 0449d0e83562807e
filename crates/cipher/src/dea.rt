//! The DEA under one key.
pub mod blocks;
pub mod known;
mod permutations;
mod rounds;
mod schedule;
mod substitution;
mod tables;
#[cfg(test)]
mod tests;
mod words;

ghost use Rattle.std.specs.Prelude.{◌≡◌};
ghost use Rattle.cipher.specs.Combined.{combined};

/// Single DEA: its round keys, and the S boxes and P as one table, computed when the cipher is built.
#[derive(Drop)]
pub struct Dea {
    round_keys: [u64; 16],
    // one list of 512, as its definition has it: eight arrays of 64 would be flattened in every clause
    substitution: [u32; 512],
    ghost substitutes: { substitution ≡ combined },
}
