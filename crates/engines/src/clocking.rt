//! What can be done with any engine.
ghost use Rattle.std.specs.Prelude.{◌≡◌, length, take};
ghost use Rattle.engines.specs.Cycles.{due, emptied, InTime, later, written_over};

use super::engine::{Engine, GREATEST_DEPTH};
use super::work::Work;
use cipher::Block;

/// Clocks an engine once for each input, and writes down the answer of each cycle. Answers past the end of the list are lost.
pub fn clock_each<E: Engine>(engine: &mut E, inputs: &[Option<Work>], answers: &mut [Option<Block>])
    ensures written { answers.new ≡ written_over (take (length inputs.now) (due (E.Engine.machine engine.old) inputs.now)) answers.old }
    ensures timely { InTime (E.Engine.machine engine.old) inputs.now answers.new }
    ensures after { E.Engine.machine engine.new ≡ later (E.Engine.machine engine.old) inputs.now }
{
    for (cycle, input) in inputs.iter().enumerate() {
        let answer = engine.clock(*input);
        // By index: after the loan of `get_mut`, or of an iterator that is asked for one place after the other, std says nothing of the
        // list. Both were tried, and the proof did not close.
        if cycle < answers.len() {
            answers[cycle] = answer;
        }
    }
}

/// Clocks an engine empty: one empty cycle for each place of its row, which come out in order.
pub fn flush<E: Engine>(engine: &mut E, answers: &mut [Option<Block>])
    ensures written { answers.new ≡ written_over (E.Engine.machine engine.old).row answers.old }
    ensures after { E.Engine.machine engine.new ≡ emptied (E.Engine.machine engine.old) }
{
    let nothing = [None; GREATEST_DEPTH];
    let places = &nothing[..engine.depth_of() - 1];
    clock_each(engine, places, answers);
}

/// Clocks an engine empty, and throws away what comes out.
pub fn clear<E: Engine>(engine: &mut E)
    ensures { E.Engine.machine engine.new ≡ emptied (E.Engine.machine engine.old) }
{
    flush(engine, &mut []);
}
