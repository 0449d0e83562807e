//! One cycle of a run.
ghost use Rattle.std.specs.Prelude.{◌≡◌, ◌+◌, ◌≤◌, length};
ghost use Rattle.runs.specs.Steps.{one_if};
ghost use Rattle.runs.specs.Views.{view, Kept, MayTake};
ghost use Rattle.runs.specs.Standing.{SameEngine, Cycled};

use super::Run;
use engines::engine::Engine;

impl<E: Engine, W> Run<E, W> {
    // What it may take depends on the unit too, and what is kept concerns two frames and two engines: no type holds either.
    /// One cycle: a unit or none goes in, a unit or none comes out.
    pub(crate) fn cycle(&mut self, unit: Option<u64>) -> Option<u64>
        requires { MayTake self.old.frame (one_if unit) }
        ensures cycled { Cycled (E.Engine.machine self.old.engine) (E.Engine.machine self.new.engine) self.old.frame.mode self.old.frame.way (view self.old.frame) (view self.new.frame) unit result }
        ensures same { SameEngine (E.Engine.machine self.old.engine) (E.Engine.machine self.new.engine) × Kept self.old.frame self.new.frame }
        ensures most { length self.new.frame.pending.items + one_if result ≤ length self.old.frame.pending.items + one_if unit }
        ensures count { self.new.frame.taken ≡ self.old.frame.taken + one_if unit }
    {
        let input = self.frame.admit(unit);
        let answer = self.engine.clock(input);
        self.frame.count_cycle();
        self.frame.release(answer)
    }
}
