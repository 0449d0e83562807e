//! The initial values of a run, read from bytes.
ghost use Rattle.std.specs.Prelude.{◌≡◌, length};
ghost use Rattle.modes.specs.Values.{listed, values_in};

use cipher::Block;
use cipher::bytes::block_at;

// No arrays in the variants, which a method could give as a slice: to a specification an array is a list of any length, so `One`
// and `Three` could list the same values, and two orders that say the same would differ.
/// As many initial values as a mode has: none, one or three.
#[derive(Clone, Copy)]
pub enum InitialValues {
    Empty,
    One(Block),
    Three(Block, Block, Block),
}

impl InitialValues {
    /// How many there are.
    pub(crate) fn count(self) -> usize
        ensures { result ≡ length (listed self) }
    {
        match self {
            Self::Empty => 0,
            Self::One(_) => 1,
            Self::Three(_, _, _) => 3,
        }
    }

    /// The values that lie in some bytes, eight bytes each, highest byte first; none where the bytes are too few or too many.
    pub(crate) fn read(bytes: &[u8]) -> Option<Self>
        ensures { result ≡ values_in bytes.now }
    {
        match bytes.len() {
            0 => Some(Self::Empty),
            8 => Some(Self::One(block_at(bytes, 0)?)),
            24 => {
                let first = block_at(bytes, 0)?;
                let second = block_at(bytes, 8)?;
                let third = block_at(bytes, 16)?;
                Some(Self::Three(first, second, third))
            }
            _ => None,
        }
    }
}
