//! Cycles one after the other, and the units that come out in them.
ghost use Rattle.std.specs.Prelude.{◌≡◌, ◌-◌, ◌≤◌, length};
ghost use Rattle.runs.specs.Steps.{one_if};
ghost use Rattle.runs.specs.Views.{MayTake, HasRoom};
ghost use Rattle.runs.specs.Stands.{of_run};
ghost use Rattle.runs.specs.Handing.{written, Behind, Passes, Idles, Waits, Onward};

use super::Run;
use engines::engine::Engine;

// Writes a unit that came out first in the list, and says how many that is. A match, since `map_or` would write to the list from
// within a closure, which is no plainer.
fn put(out: &mut [u64], unit: Option<u64>) -> usize
    requires { one_if unit ≤ length out.old }
    ensures after { out.new ≡ written out.old 0 unit }
    ensures count { result ≡ one_if unit }
{
    match unit {
        Some(x) => {
            out[0] = x;
            1
        }
        None => 0,
    }
}

// Each of these is given what is left of the caller's output list, since there is no heap for one of its own, and says how many units it
// wrote there. What it may take and has room for depends on an argument too, so that no type can hold it.
impl<E: Engine, W> Run<E, W> {
    /// One cycle, with a unit or none, and what comes out.
    pub(crate) fn pass(&mut self, unit: Option<u64>, out: &mut [u64]) -> usize
        requires limit { MayTake self.old.frame (one_if unit) }
        requires room { HasRoom self.old.frame (one_if unit) out.old }
        ensures passed { Behind (of_run Passes E.Engine.machine self.old self.new unit) result out.old out.new }
        ensures onward { of_run Onward E.Engine.machine self.old self.new 0 result (one_if unit) }
    {
        let unit = self.cycle(unit);
        put(out, unit)
    }

    /// Empty cycles until all that was inside is out, one fewer than the engine is deep.
    pub(crate) fn empty(&mut self, out: &mut [u64]) -> usize
        requires { HasRoom self.old.frame 0 out.old }
        ensures emptied { of_run Idles E.Engine.machine self.old self.new ((E.Engine.machine self.old.engine).depth - 1) 0 result out.old out.new }
        ensures onward { of_run Onward E.Engine.machine self.old self.new 0 result 0 }
    {
        let mut given = 0;
        for _ in 1..self.engine.depth_of() {
            given += self.pass(None, &mut out[given..]);
        }
        given
    }

    /// Empty cycles until the result at the next unit's distance is out, which takes fewer than the engine is deep.
    pub(crate) fn wait(&mut self, out: &mut [u64]) -> usize
        requires { HasRoom self.old.frame 0 out.old }
        ensures waited { Behind (of_run Waits E.Engine.machine self.old self.new) result out.old out.new }
        ensures onward { of_run Onward E.Engine.machine self.old self.new 0 result 0 }
    {
        let Some(distance) = self.frame.mode.distance(self.frame.way) else {
            return 0;
        };
        let mut given = 0;
        for _ in 1..self.engine.depth_of() {
            if self.frame.pending.len() < distance {
                return given;
            }
            given += self.pass(None, &mut out[given..]);
        }
        given
    }
}
