//! Feeding a run.
ghost use Rattle.std.specs.Prelude.{◌≡◌, ◌+◌, ◌≤◌, length, IfOk, OnErr};
ghost use Rattle.modes.specs.Table.{row};
ghost use Rattle.modes.specs.Widths.{first_wide};
ghost use Rattle.runs.specs.Views.{MayTake, HasRoom};
ghost use Rattle.runs.specs.Stands.{of_run};
ghost use Rattle.runs.specs.Handing.{Fed, feed_refusal, refusal_in, Pumps, Onward, Same};

use super::Run;
use calls::UNIT_LIMIT;
use engines::engine::Engine;
use modes::mode::Mode;
use refusals::Refusal;

// A job's bytes are searched so too. One function for both would be generic over iterators and ask its callers that they end, and by a
// rule of the project no public function asks anything.
/// The index of the first unit that is too wide for the mode.
fn first_too_wide(mode: Mode, units: &[u64]) -> Option<usize>
    ensures { result ≡ first_wide (row mode).width 0 units.now }
{
    units.iter().position(|unit| !mode.admits(*unit))
}

impl<E: Engine, W> Run<E, W> {
    // What was written is added up, since there is no heap for a list. Room and limit depend on the units too, so that no type holds them.
    /// Each unit enters in its cycle, and what comes out is written.
    fn pump(&mut self, units: &[u64], out: &mut [u64]) -> usize
        requires room { HasRoom self.old.frame (length units.now) out.old }
        requires limit { MayTake self.old.frame (length units.now) }
        ensures pumped { of_run Pumps E.Engine.machine self.old self.new units.now (length units.now) result out.old out.new }
        ensures onward { of_run Onward E.Engine.machine self.old self.new 0 result (length units.now) }
        ensures idle { length units.now ≡ 0 → (result ≡ 0) × (self.new ≡ self.old) × (out.new ≡ out.old) }
    {
        let mut given = 0;
        for unit in units {
            given += self.wait(&mut out[given..]);
            given += self.pass(Some(*unit), &mut out[given..]);
        }
        given
    }

    /// Feeds units to the run, and hands out what comes out until the last of them enters: so many units, first in the list.
    /// Refused, and then nothing is altered: an output list shorter than the units in the engine and those offered; a unit that
    /// is too wide for the mode; more units than the cartridge still takes.
    pub fn feed(&mut self, units: &[u64], out: &mut [u64]) -> Result<usize, Refusal>
        ensures answered { of_run Fed E.Engine.machine self.old self.new units.now out.old out.new result }
        ensures refusal { refusal_in result ≡ feed_refusal self.old.frame units.now (length out.old) }
        ensures within { IfOk result (λ n. n ≤ length out.old) }
        ensures unaltered { OnErr result ((self.new ≡ self.old) × (out.new ≡ out.old)) }
        ensures idle { length units.now ≡ 0 → (self.new ≡ self.old) × (out.new ≡ out.old) }
        ensures same { of_run Same E.Engine.machine self.old self.new }
    {
        let wanted = self.frame.pending.len() + units.len();
        if out.len() < wanted {
            return Err(Refusal::OutputLength(wanted));
        }
        if let Some(index) = first_too_wide(self.frame.mode, units) {
            return Err(Refusal::UnitWidth(index));
        }
        let left = UNIT_LIMIT - (self.frame.before + self.frame.taken);
        if left < units.len() {
            return Err(Refusal::UnitLimit(left));
        }
        Ok(self.pump(units, out))
    }
}
