//! Reading units one after the other.
ghost use Rattle.std.specs.Prelude.{◌≡◌};
ghost use Rattle.std.specs.Iterator.{YieldsFirst, item_count};
ghost use Rattle.modes.specs.Table.{row};
ghost use Rattle.modes.specs.Widths.{first_wide};
ghost use Rattle.job_format.specs.UnitBytes.{units_in};
ghost use Rattle.job_format.specs.UnitsLeft.{units_left};

use modes::mode::Mode;

/// The whole units that lie in some bytes, in order.
#[derive(Drop)]
pub struct UnitReader<'a> {
    mode: Mode,
    bytes: &'a [u8],
}

impl<'a> UnitReader<'a> {
    /// A reader at the first unit.
    pub fn new(mode: Mode, bytes: &'a [u8]) -> UnitReader<'a>
        ensures { units_left result ≡ units_in (row mode).width bytes.now }
    {
        UnitReader { mode, bytes }
    }
}

impl Iterator for UnitReader<'_> {
    type Item = u64;

    ghost next_gives = { YieldsFirst units_left };

    ghost remaining = { item_count units_left };

    fn next(&mut self) -> Option<u64> {
        if self.mode.width() < 64 {
            let (byte, rest) = self.bytes.split_first()?;
            self.bytes = rest;
            Some(u64::from(*byte))
        } else {
            let (word, rest) = self.bytes.split_first_chunk::<8>()?;
            self.bytes = rest;
            Some(u64::from_be_bytes(*word))
        }
    }
}

// A run's feed searches its list so too. One function over both iterators would have to ask that they end, and by a rule of the project no
// public function asks anything.
/// The index of the first of the units in some bytes that is too wide for the mode.
pub fn first_too_wide(mode: Mode, bytes: &[u8]) -> Option<usize>
    ensures { result ≡ first_wide (row mode).width 0 (units_in (row mode).width bytes.now) }
{
    UnitReader::new(mode, bytes).position(|unit| !mode.admits(unit))
}
