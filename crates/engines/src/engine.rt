//! What an engine means. Whatever shows this is an engine, and nothing more is known of one.
ghost use Rattle.std.specs.Prelude.{◌≡◌, ◌+◌, ◌≤◌, length};
ghost use Rattle.cipher.specs.Undoing.{Undo};
ghost use Rattle.engines.specs.Machines.{Machine, answered, turned};
ghost use Rattle.engines.specs.Depths.{the_greatest_depth};

use super::work::Work;
use cipher::Block;

/// No engine is deeper.
pub const GREATEST_DEPTH: usize = 8;

// A constant has no contract, so a function stands beside it.
/// `GREATEST_DEPTH`, as proofs know it.
pub fn greatest_depth() -> usize
    ensures { result ≡ the_greatest_depth }
{
    GREATEST_DEPTH
}

/// An engine works blocks in cycles. It means two functions on blocks that undo each other, and a row of places, one fewer
/// than its depth, each empty or holding a block due. It never refuses, and its functions and depth never change.
pub trait Engine: Sized {
    /// In how many cycles a block passes through, the one that it enters in included.
    const DEPTH: usize;

    ghost machine: { Self → Machine };

    // The constant cannot carry the meaning: a law that ties the two would ask of every engine that its depth be one for its type.
    /// The depth, tied to the meaning. Code over any engine asks here.
    fn depth_of(&self) -> usize
        ensures { result ≡ (machine self.now).depth };

    /// One cycle: takes nothing or one block with its direction, and answers what stands at the front.
    fn clock(&mut self, input: Option<Work>) -> Option<Block>
        ensures answer { result ≡ answered (machine self.old) input }
        ensures after { machine self.new ≡ turned (machine self.old) input };

    ghost undo: { (e : Self) → Undo (machine e).forward (machine e).inverse };

    ghost places: { (e : Self) → length (machine e).row + 1 ≡ (machine e).depth };

    ghost shallow: { (e : Self) → (machine e).depth ≤ the_greatest_depth };
}
