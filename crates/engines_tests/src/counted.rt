//! An engine around another that counts its cycles.
ghost use Rattle.std.specs.Prelude.{◌≡◌, ◌+◌, ◌%◌, ◌^◌};
ghost use Rattle.engines.specs.Machines.{answered, turned};
ghost use Rattle.std.proofs.Common.{rules};

use cipher::Block;
use engines::engine::Engine;
use engines::work::Work;

/// Means what the inner engine means.
#[derive(Drop)]
pub struct Counted<E> {
    inner: E,
    cycles: u64,
}

impl<E> Counted<E> {
    pub fn new(inner: E) -> Self
        ensures { result ≡ record { inner = inner; cycles = 0 } }
    {
        Counted { inner, cycles: 0 }
    }

    /// How many cycles it was clocked.
    pub fn cycles(&self) -> u64
        ensures { result ≡ self.now.cycles }
    {
        self.cycles
    }
}

impl<E: Engine> Engine for Counted<E> {
    const DEPTH: usize = E::DEPTH;

    ghost machine = { λ e. E.Engine.machine e.inner };

    ghost undo = { Prim.search rules };

    ghost places = { Prim.search rules };

    ghost shallow = { Prim.search rules };

    fn depth_of(&self) -> usize {
        self.inner.depth_of()
    }

    fn clock(&mut self, input: Option<Work>) -> Option<Block>
        ensures answer { result ≡ answered (E.Engine.machine self.old.inner) input }
        ensures after { E.Engine.machine self.new.inner ≡ turned (E.Engine.machine self.old.inner) input }
        ensures counted { self.new.cycles ≡ (self.old.cycles + 1) % 2 ^ 64 }
    {
        self.cycles = self.cycles.wrapping_add(1);
        self.inner.clock(input)
    }
}
