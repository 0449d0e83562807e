//! Three ciphers whose functions differ and do not commute.
ghost use Rattle.engines_tests.specs.Toys.{added, crossed, rotated, rotated_back, taken_off};
ghost use Rattle.std.proofs.Common.{rules, mod-lt, pow_pos};
ghost use Rattle.std.specs.Prelude.{ℕ, ◌%◌, ◌^◌, ◌<◌, bit_xor};
ghost use Rattle.std.proofs.lemmas.Nat.{xor_lt};
ghost use Rattle.engines_tests.specs.Crossing.{crossed_twice};

use cipher::{Block, Cipher};

/// Turns the block by one byte to the left.
#[derive(Clone, Copy)]
pub struct Rotated;

/// Adds a number, and drops the carry.
#[derive(Clone, Copy)]
pub struct Added {
    pub number: u64,
}

/// Exclusive or with a mask.
#[derive(Clone, Copy)]
pub struct Crossed {
    pub mask: u64,
}

impl Cipher for Rotated {
    ghost forward = { λ _. rotated };

    ghost inverse = { λ _. rotated_back };

    ghost undo = { Prim.search rules };

    fn forward(&self, block: Block) -> Block {
        block.rotate_left(8)
    }

    fn inverse(&self, block: Block) -> Block {
        block.rotate_right(8)
    }
}

impl Cipher for Added {
    ghost forward = { λ c. added c.number };

    ghost inverse = { λ c. taken_off c.number };

    ghost undo = { Prim.search rules };

    fn forward(&self, block: Block) -> Block {
        block.wrapping_add(self.number)
    }

    fn inverse(&self, block: Block) -> Block {
        block.wrapping_sub(self.number)
    }
}

impl Cipher for Crossed {
    ghost forward = { λ c. crossed c.mask };

    ghost inverse = { λ c. crossed c.mask };

    ghost undo = { λ c.
        let k = c.mask % 2 ^ 64 in
        let fits : (b : ℕ) → b < 2 ^ 64 → bit_xor b k < 2 ^ 64 = λ b h. xor_lt 64 b k h (mod-lt c.mask (pow_pos 64)) in
        record { back = λ b h. crossed_twice b k; forth = λ b h. crossed_twice b k; forward_is_block = fits; inverse_is_block = fits } };

    fn forward(&self, block: Block) -> Block {
        block ^ self.mask
    }

    fn inverse(&self, block: Block) -> Block {
        block ^ self.mask
    }
}
