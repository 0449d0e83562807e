//! What a run tells.
ghost use Rattle.std.specs.Prelude.{◌≡◌, ◌-◌, length};
ghost use Rattle.runs.specs.Standing.{blocks};
ghost use Rattle.runs.specs.Stands.{Tells};

use super::Run;
use engines::engine::Engine;

impl<E: Engine, W> Run<E, W> {
    /// How many units the run took.
    pub fn units_taken(&self) -> usize
        ensures value { result ≡ self.now.frame.taken }
        ensures due { Tells (E.Engine.machine self.now.engine) self.now.frame (λ told. told.taken) result }
    {
        self.frame.taken
    }

    /// How many of them it handed out.
    pub fn units_handed_out(&self) -> usize
        ensures value { result ≡ self.now.frame.taken - length self.now.frame.pending.items }
        ensures due { Tells (E.Engine.machine self.now.engine) self.now.frame (λ told. told.handed_out) result }
    {
        self.units_taken().saturating_sub(self.units_inside())
    }

    /// How many are in the engine: the blocks in its row.
    pub fn units_inside(&self) -> usize
        ensures value { result ≡ length self.now.frame.pending.items }
        ensures due { Tells (E.Engine.machine self.now.engine) self.now.frame (λ told. told.inside) result }
        ensures row { Tells (E.Engine.machine self.now.engine) self.now.frame (λ _. blocks (E.Engine.machine self.now.engine).row) result }
    {
        self.frame.pending.len()
    }

    /// How many cycles the run took.
    pub fn cycles(&self) -> u64
        ensures value { result ≡ self.now.frame.cycles }
        ensures due { Tells (E.Engine.machine self.now.engine) self.now.frame (λ told. told.cycles) result }
    {
        self.frame.cycles
    }
}
