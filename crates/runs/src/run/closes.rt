//! Closing a run.
ghost use Rattle.std.specs.Prelude.{◌≡◌, ◌+◌};
ghost use Rattle.calls.specs.Theorem.{Theorem};
ghost use Rattle.runs.specs.Stands.{Closed};

use super::super::cartridge::Cartridge;
use super::Run;
use engines::engine::Engine;

impl<E: Engine, W: Drop> Run<E, W> {
    // By a rule of the project the theorem stands on the contract of this call.
    /// Gives the cartridge back. Units still in the engine are lost.
    pub fn close(self) -> Cartridge<E>
        ensures closed { Closed (E.Engine.machine self.engine) (E.Engine.machine result.engine) self.frame result.count }
        ensures theorem { Theorem }
        ensures engine { result.engine ≡ self.engine }
        ensures count { result.count ≡ self.frame.before + self.frame.taken }
    {
        let Run {
            heading,
            engine,
            frame,
        } = self;
        drop(heading);
        Cartridge {
            engine,
            count: frame.before + frame.taken,
        }
    }
}
