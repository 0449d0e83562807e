//! The two ends of a line: a sending run and a receiving one.
ghost use Rattle.std.specs.Prelude.{◌≡◌, ◌-◌};
ghost use Rattle.runs.specs.Stands.{told_by};
ghost use Rattle.runs.specs.Ends.{Between};

use super::run::{DecipheringRun, EncipheringRun};
use engines::engine::Engine;

/// How many more units the sender handed out than the receiver took; none where it took more.
pub fn units_on_the_way<S: Engine, R: Engine>(
    sender: &EncipheringRun<S>,
    receiver: &DecipheringRun<R>,
) -> usize
    ensures value { result ≡ (told_by (S.Engine.machine sender.now.engine) sender.now.frame).handed_out - (told_by (R.Engine.machine receiver.now.engine) receiver.now.frame).taken }
    ensures between { Between (S.Engine.machine sender.now.engine) (R.Engine.machine receiver.now.engine) sender.now.frame receiver.now.frame }
{
    sender
        .units_handed_out()
        .saturating_sub(receiver.units_taken())
}
