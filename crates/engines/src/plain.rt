//! The plain engine: a cipher that answers in the cycle that it is asked in.
ghost use Rattle.std.specs.Prelude.{◌≡◌};
ghost use Rattle.engines.specs.Machines.{resting};
ghost use Rattle.engines.specs.PlainEngines.{plain_machine};
ghost use Rattle.std.proofs.Common.{rules};

use super::engine::Engine;
use super::work::{Direction, Work};
use cipher::{Block, Cipher};

// A proof reads this name, and not the trait's constant.
const PLAIN_DEPTH: usize = 1;

/// An engine of depth 1 over any cipher.
#[derive(Drop)]
pub struct Plain<C> {
    cipher: C,
}

impl<C: Cipher> Plain<C> {
    pub fn new(cipher: C) -> Self
        ensures { plain_machine C.Cipher result ≡ resting (C.Cipher.forward cipher) (C.Cipher.inverse cipher) 1 }
    {
        Plain { cipher }
    }
}

impl<C: Cipher> Engine for Plain<C> {
    const DEPTH: usize = PLAIN_DEPTH;

    ghost machine = { plain_machine C.Cipher };

    ghost undo = { Prim.search rules };

    ghost places = { Prim.search rules };

    ghost shallow = { Prim.search rules };

    fn depth_of(&self) -> usize {
        PLAIN_DEPTH
    }

    fn clock(&mut self, input: Option<Work>) -> Option<Block> {
        let work = input?;
        Some(match work.direction {
            Direction::Forward => self.cipher.forward(work.block),
            Direction::Inverse => self.cipher.inverse(work.block),
        })
    }
}
