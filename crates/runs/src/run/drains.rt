//! Draining a run.
ghost use Rattle.std.specs.Prelude.{◌≡◌, ◌≤◌, length, IfOk, OnErr};
ghost use Rattle.runs.specs.Stands.{of_run};
ghost use Rattle.runs.specs.Handing.{Drained, drain_refusal, refusal_in, Same};

use super::Run;
use engines::engine::Engine;
use refusals::Refusal;

impl<E: Engine, W> Run<E, W> {
    /// Hands out what the engine holds: so many units, first in the list. The run may go on. Refused, and then nothing is
    /// altered: an output list shorter than that.
    pub fn drain(&mut self, out: &mut [u64]) -> Result<usize, Refusal>
        ensures answered { of_run Drained E.Engine.machine self.old self.new out.old out.new result }
        ensures refusal { refusal_in result ≡ drain_refusal self.old.frame (length out.old) }
        ensures within { IfOk result (λ n. n ≤ length out.old) }
        ensures unaltered { OnErr result ((self.new ≡ self.old) × (out.new ≡ out.old)) }
        ensures idle { length self.old.frame.pending.items ≡ 0 → (self.new ≡ self.old) × (out.new ≡ out.old) }
        ensures same { of_run Same E.Engine.machine self.old self.new }
    {
        let inside = self.frame.pending.len();
        if out.len() < inside {
            return Err(Refusal::OutputLength(inside));
        }
        if inside == 0 {
            return Ok(0);
        }
        Ok(self.empty(out))
    }
}
