//! Building single DEA, and a block under it.
ghost use Rattle.std.specs.Prelude.{◌≡◌};
ghost use Rattle.cipher.specs.Dea.{dea as dea_of, dea_inverse};
ghost use Rattle.cipher.specs.Functions.{forward_of, inverse_of};
ghost use Rattle.cipher.specs.KeySchedule.{round_keys_of};
ghost use Rattle.cipher.specs.Feistel.{under_undo};

use super::Dea;
use super::permutations::{enter, leave};
use super::schedule::schedule;
use super::substitution::combine;
use crate::{Block, Cipher};

impl Dea {
    /// Single DEA under a key of 64 bits; the lowest bit of each byte has no effect.
    pub fn new(key: u64) -> Dea
        ensures keys { result.round_keys ≡ round_keys_of key }
        ensures forward { forward_of result ≡ dea_of key }
        ensures inverse { inverse_of result ≡ dea_inverse key }
    {
        Dea {
            round_keys: schedule(key),
            substitution: combine(),
        }
    }
}

impl Cipher for Dea {
    ghost forward = { forward_of };

    ghost inverse = { inverse_of };

    ghost undo = { λ d. under_undo d.round_keys };

    fn forward(&self, block: Block) -> Block {
        let keys = self.round_keys.iter();
        leave(keys.fold(enter(block), |halves, key| self.round(*key, halves)))
    }

    // The same but for the order: one function over any iterator of keys would have to ask that it ends, which is no plainer.
    fn inverse(&self, block: Block) -> Block {
        let keys = self.round_keys.iter().rev();
        leave(keys.fold(enter(block), |halves, key| self.round(*key, halves)))
    }
}
