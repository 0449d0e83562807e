//! Three ciphers in a row, the middle one inverse.
ghost use Rattle.std.specs.Prelude.{◌≡◌};
ghost use Rattle.cipher.specs.Triples.{in_row};
ghost use Rattle.cipher.specs.InRow.{undo_in_row, undo_swapped};

use super::{Block, Cipher};

#[derive(Drop)]
pub struct Triple<A, B, C> {
    first: A,
    second: B,
    third: C,
}

impl<A, B, C> Triple<A, B, C> {
    pub fn new(first: A, second: B, third: C) -> Self
        ensures { result ≡ record { first = first; second = second; third = third } }
    {
        Triple {
            first,
            second,
            third,
        }
    }
}

impl<A: Cipher, B: Cipher, C: Cipher> Cipher for Triple<A, B, C> {
    ghost forward = { λ t. in_row (A.Cipher.forward t.first) (B.Cipher.inverse t.second) (C.Cipher.forward t.third) };

    ghost inverse = { λ t. in_row (C.Cipher.inverse t.third) (B.Cipher.forward t.second) (A.Cipher.inverse t.first) };

    ghost undo = { λ t. undo_in_row (A.Cipher.undo t.first) (undo_swapped (B.Cipher.undo t.second)) (C.Cipher.undo t.third) };

    fn forward(&self, block: Block) -> Block {
        self.third
            .forward(self.second.inverse(self.first.forward(block)))
    }

    fn inverse(&self, block: Block) -> Block {
        self.first
            .inverse(self.second.forward(self.third.inverse(block)))
    }
}
