//! Units in bytes: eight bytes a unit where it is as wide as a block, the highest first, else one byte.
pub mod reading;
pub mod writing;

ghost use Rattle.std.specs.Prelude.{◌≡◌, ◌≤◌};
ghost use Rattle.modes.specs.Table.{row};
ghost use Rattle.job_format.specs.UnitBytes.{unit_size, units_in, place, UnitsInBytes};

use cipher::bytes::block_at;
use modes::mode::Mode;
pub use reading::first_too_wide;
pub use writing::write_units;

/// How many bytes a unit takes. Units that were written are read, and bytes that are whole units are written as they were read.
#[tactic(auto, using(crate::proofs::WrittenAndRead::units_in_bytes))]
pub fn unit_size(mode: Mode) -> usize
    ensures value { result ≡ unit_size (row mode).width }
    ensures some { 1 ≤ result }
    ensures most { result ≤ 8 }
    ensures law { UnitsInBytes }
{
    if mode.width() < 64 { 1 } else { 8 }
}

// An iterator's `nth` answers the same, but goes through all units before.
/// The unit at an index, from 0, of those that lie in some bytes; none behind the last whole one.
pub fn unit_at(mode: Mode, bytes: &[u8], index: usize) -> Option<u64>
    ensures { result ≡ place (units_in (row mode).width bytes.now) index }
{
    if index >= bytes.len() / unit_size(mode) {
        None
    } else if mode.width() < 64 {
        Some(u64::from(bytes[index]))
    } else {
        block_at(bytes, 8 * index)
    }
}
