//! What a family of modes makes of a unit on its way in, and of a result on its way out.
ghost use Rattle.std.specs.Prelude.{◌≡◌};
ghost use Rattle.runs.specs.Steps.{input_by, mask_by, direction_by, register_by, fed_back_by};

use cipher::Block;
use engines::work::Direction;
use modes::family::Family;
use modes::way::Way;

// The family is matched on, and is no trait with an impl for each: a code names a mode as the program runs, and the matches stand line by
// line as in the specification.
/// A family of modes, and the way through it.
#[derive(Clone, Copy)]
pub(super) struct Course {
    pub(super) family: Family,
    pub(super) way: Way,
}

impl Course {
    /// What goes into the engine for a unit, where the chain has `link` for it.
    pub(super) fn input(self, unit: u64, link: u64, register: Block) -> Block
        ensures { result ≡ input_by self.family self.way unit link register }
    {
        match (self.family, self.way) {
            (Family::Chaining, Way::Enciphering) => unit ^ link,
            (Family::CipherFeedback, _) => register,
            (Family::OutputFeedback, _) => link,
            _ => unit,
        }
    }

    /// What the result is joined with as it comes out.
    pub(super) fn mask(self, unit: u64, link: u64) -> u64
        ensures { result ≡ mask_by self.family self.way unit link }
    {
        match (self.family, self.way) {
            (Family::Chaining, Way::Deciphering) => link,
            (Family::CipherFeedback, _) | (Family::OutputFeedback, _) => unit,
            _ => 0,
        }
    }

    pub(super) fn direction(self) -> Direction
        ensures { result ≡ direction_by self.family self.way }
    {
        match (self.family, self.way) {
            (Family::Codebook, Way::Deciphering) | (Family::Chaining, Way::Deciphering) =>
                Direction::Inverse,
            _ => Direction::Forward,
        }
    }

    /// Only cipher feedback keeps a register.
    pub(super) fn register_after(self, old: Block, new: Block) -> Block
        ensures { result ≡ register_by self.family old new }
    {
        match self.family {
            Family::CipherFeedback => new,
            _ => old,
        }
    }

    /// What goes back into the chain as a result comes out.
    pub(super) fn fed_back(self, block: Block, unit: u64) -> u64
        ensures { result ≡ fed_back_by self.family block unit }
    {
        match self.family {
            Family::OutputFeedback => block,
            _ => unit,
        }
    }
}
