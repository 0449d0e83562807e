//! Bytes as blocks, and back.
use arrayvec::ArrayVec;
use cipher::Block;
use std::alloc::{AllocError, Global};

/// As many blocks as the settlement file has; nothing here has more.
pub const UNITS: usize = 36;

// None of these vectors allocates, so that the program cannot run out of memory.
pub type Blocks = ArrayVec<Block, UNITS>;

/// The blocks in some bytes, eight bytes each.
pub fn blocks_of(heap: Global, bytes: &[u8]) -> Result<Blocks, AllocError> {
    let (eights, _) = bytes.as_chunks();
    eights
        .iter()
        .map(|eight| Block::from_be_bytes(*eight))
        .collect(heap)
}

/// The bytes of some blocks, six at most.
pub fn bytes_of(heap: Global, blocks: &[Block]) -> Result<ArrayVec<u8, 48>, AllocError> {
    blocks
        .iter()
        .flat_map(|block| block.to_be_bytes())
        .collect(heap)
}
