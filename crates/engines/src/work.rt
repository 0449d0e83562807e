//! What goes into an engine.
use cipher::Block;

/// Which of a cipher's two functions is wanted of a block.
#[derive(Clone, Copy, Debug, PartialEq, Eq)]
pub enum Direction {
    Forward,
    Inverse,
}

/// A block with its direction.
#[derive(Clone, Copy, Debug, PartialEq, Eq)]
pub struct Work {
    pub block: Block,
    pub direction: Direction,
}
