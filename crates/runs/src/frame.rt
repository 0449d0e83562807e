//! What a run remembers besides its engine.
mod course;
pub(crate) mod steps;

ghost use Rattle.std.specs.Prelude.{◌+◌, ◌≤◌};
ghost use Rattle.calls.specs.Limits.{unit_limit};

use arrayvec::ArrayVec;
use cipher::Block;
use engines::engine::GREATEST_DEPTH;
use modes::mode::Mode;
use modes::way::Way;

/// At most as many numbers as the deepest engine has cycles, the oldest first.
pub(crate) type Queue = ArrayVec<u64, GREATEST_DEPTH>;

/// Pending: what the result of each unit inside the engine is joined with as it comes out. Chain: the ciphered units or output
/// blocks that coming units are joined with.
#[derive(Drop)]
pub(crate) struct Frame {
    pub(crate) mode: Mode,
    pub(crate) way: Way,
    pub(crate) pending: Queue,
    pub(crate) chain: Queue,
    pub(crate) register: Block,
    // the cartridge's count at the start of the run, and the units taken since
    pub(crate) before: usize,
    pub(crate) taken: usize,
    pub(crate) cycles: u64,
    ghost within: { before + taken ≤ unit_limit },
}
