//! Blocks in bytes, the highest byte first.
ghost use Rattle.std.specs.Prelude.{◌≡◌, ◌+◌, length, if◌then◌else◌, Some, None, nat_le};
ghost use Rattle.cipher.specs.Bytes.{block_at};

use super::Block;

/// The block whose eight bytes stand from `at` on; `None` where fewer are left.
pub fn block_at(bytes: &[u8], at: usize) -> Option<Block>
    ensures { result ≡ (if nat_le (at + 8) (length bytes.now) then Some (block_at bytes.now at) else None) }
{
    let word = bytes.get(at..)?.first_chunk::<8>()?;
    Some(u64::from_be_bytes(*word))
}
