//! An engine that is one of two, chosen as it is made.
ghost use Rattle.engines_tests.specs.Chosen.{machine_of};
ghost use Rattle.std.proofs.Common.{rules};

use cipher::Block;
use engines::engine::{Engine, GREATEST_DEPTH};
use engines::work::Work;

/// Means what the engine means that it is, and is as deep: engines of one type need not have one depth.
#[derive(Drop)]
pub enum Chosen<A, B> {
    One(A),
    Other(B),
}

impl<A: Engine, B: Engine> Engine for Chosen<A, B> {
    // No engine is deeper. How deep one of this type is, `depth_of` tells.
    const DEPTH: usize = GREATEST_DEPTH;

    ghost machine = { machine_of A.Engine.machine B.Engine.machine };

    ghost undo = { Prim.search rules };

    ghost places = { Prim.search rules };

    ghost shallow = { Prim.search rules };

    fn depth_of(&self) -> usize {
        match self {
            Chosen::One(engine) => engine.depth_of(),
            Chosen::Other(engine) => engine.depth_of(),
        }
    }

    fn clock(&mut self, input: Option<Work>) -> Option<Block> {
        match self {
            Chosen::One(engine) => engine.clock(input),
            Chosen::Other(engine) => engine.clock(input),
        }
    }
}
