//! Writing units one behind the other.
ghost use Rattle.std.specs.Prelude.{◌≡◌, ◌+◌, ◌-◌, ◌^◌, ◌≤◌, min, length, is_err, true, IfErr};
ghost use Rattle.refusals.specs.declared.Refusal.TheVariants.{OutputLength};
ghost use Rattle.modes.specs.Table.{row};
ghost use Rattle.job_format.specs.UnitBytes.{bytes_of, units_written, written_end};
ghost use Rattle.job_format.specs.EndAfter.{end_after};

use super::unit_size;
use modes::mode::Mode;
use refusals::Refusal;

// The caller's bytes with an offset, and no vector: the library has no heap.
/// Bytes that take units, from the first byte on, and the offset behind those that were written.
#[derive(Drop)]
pub struct UnitWriter<'a> {
    mode: Mode,
    out: &'a mut [u8],
    end: usize,
    ghost within: { end ≤ length out.now },
}

impl<'a> UnitWriter<'a> {
    /// A writer at the first byte.
    pub fn new(mode: Mode, out: &'a mut [u8]) -> UnitWriter<'a>
        ensures reference { result.out.ghost_name ≡ out.entry.ghost_name }
        ensures mode { result.mode ≡ mode }
        ensures output { result.out.now ≡ out.old }
        ensures end { result.end ≡ 0 }
    {
        UnitWriter { mode, out, end: 0 }
    }

    /// How many bytes were written.
    pub fn written(&self) -> usize
        ensures { result ≡ self.now.end }
    {
        self.end
    }

    /// Writes units behind those before them; where there is not enough room for all, writes none.
    pub fn write(&mut self, units: &[u64]) -> Result<(), Refusal>
        ensures reference { self.new.out.ghost_name ≡ self.old.out.ghost_name }
        ensures mode { self.new.mode ≡ self.old.mode }
        ensures value { end_after result self.new.end ≡ written_end (row self.old.mode).width units.now self.old.out.now self.old.end }
        ensures output { self.new.out.now ≡ units_written (row self.old.mode).width units.now self.old.out.now self.old.end }
        ensures still { is_err result ≡ true → self.new.end ≡ self.old.end }
        ensures refused { IfErr result (λ e. e ≡ OutputLength (min (self.old.end + length (bytes_of (row self.old.mode).width units.now)) (2 ^ 64 - 1))) }
    {
        let size = unit_size(self.mode);
        if (self.out.len() - self.end) / size < units.len() {
            let wanted = self.end.saturating_add(size.saturating_mul(units.len()));
            return Err(Refusal::OutputLength(wanted));
        }
        // Tried over `chunks_exact_mut`: what is written through its chunks stays unknown, and the proof did not close.
        for unit in units {
            let next = self.end + size;
            self.out[self.end..next].copy_from_slice(&unit.to_be_bytes()[8 - size..]);
            self.end = next;
        }
        Ok(())
    }
}

/// Writes units one behind the other from an offset on, and answers the offset behind them; where there is not enough room for
/// all, writes none.
pub fn write_units(mode: Mode, units: &[u64], out: &mut [u8], at: usize) -> Option<usize>
    ensures value { result ≡ written_end (row mode).width units.now out.old at }
    ensures output { out.new ≡ units_written (row mode).width units.now out.old at }
{
    if at > out.len() {
        return None;
    }
    let mut writer = UnitWriter { mode, out, end: at };
    writer.write(units).ok()?;
    Some(writer.written())
}
