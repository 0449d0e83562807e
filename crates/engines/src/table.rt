//! The functional blocks of a line, in one table.
ghost use Rattle.std.specs.Prelude.{◌≡◌, ◌<◌, [], ◌∷◌, slice_set};
ghost use Rattle.engines.specs.declared.table.BlockState.TheVariants.{Idle};
ghost use Rattle.engines.specs.Tables.{block_in, held, holding, place, state};

use super::work::Work;
use cipher::Block;

/// One of the three functional blocks.
#[derive(Clone, Copy, Debug, PartialEq, Eq)]
pub enum Stage {
    First,
    Second,
    Third,
}

impl Stage {
    // Where it stands in the table.
    fn place(self) -> usize
        ensures place { result ≡ place self }
        ensures within { result < 3 }
    {
        self as usize
    }
}

/// A functional block is idle or holds one block, as its own work left it, with its direction.
// No Option<Work>: a rule of the project fixes this form, a state of its own that is matched together with the cycle's event and
// changed in place.
#[derive(Clone, Copy, Debug, PartialEq, Eq)]
pub enum BlockState {
    Idle,
    Holding(Work),
}

impl BlockState {
    /// One cycle: the block takes up what comes in and hands on what it held. With nothing coming in it falls idle.
    pub fn turn(&mut self, event: Option<Work>) -> Option<Work>
        ensures handed { result ≡ held self.old }
        ensures after { self.new ≡ holding event }
    {
        match (*self, event) {
            (BlockState::Idle, None) => None,
            (BlockState::Idle, Some(work)) => {
                *self = BlockState::Holding(work);
                None
            }
            (BlockState::Holding(old), None) => {
                *self = BlockState::Idle;
                Some(old)
            }
            (BlockState::Holding(old), Some(next)) => {
                *self = BlockState::Holding(next);
                Some(old)
            }
        }
    }

    /// The block that it holds.
    pub fn block(self) -> Option<Block>
        ensures { result ≡ block_in self }
    {
        match self {
            BlockState::Idle => None,
            BlockState::Holding(work) => Some(work.block),
        }
    }
}

// Three functional blocks, of which one at a time is lent to be clocked.
#[derive(Clone, Copy)]
pub(crate) struct Table {
    blocks: [BlockState; 3],
}

impl Table {
    // All idle.
    pub(crate) fn new() -> Self
        ensures { result ≡ record { blocks = Idle ∷ Idle ∷ Idle ∷ [] } }
    {
        Table {
            blocks: [BlockState::Idle; 3],
        }
    }

    // What one of them holds.
    pub(crate) fn state(&self, stage: Stage) -> BlockState
        ensures { result ≡ state self.now.blocks stage }
    {
        self.blocks[stage.place()]
    }

    // One of them takes its turn, and its neighbours stay as they are.
    pub(crate) fn turn(&mut self, stage: Stage, event: Option<Work>) -> Option<Work>
        ensures handed { result ≡ held (state self.old.blocks stage) }
        ensures after { self.new ≡ record { blocks = slice_set self.old.blocks (place stage) (holding event) } }
    {
        let block = &mut self.blocks[stage.place()];
        block.turn(event)
    }
}
