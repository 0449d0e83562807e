//! Making a cartridge, and taking it into a run.
ghost use Rattle.std.specs.Prelude.{◌≡◌, ◌≤◌};
ghost use Rattle.modes.specs.Values.{listed};
ghost use Rattle.engines.specs.Cycles.{emptied};
ghost use Rattle.calls.specs.Limits.{unit_limit};
ghost use Rattle.calls.specs.Calls.{new as first};
ghost use Rattle.runs.specs.Stands.{Rests, Started, Fresh};

use super::super::frame::{Frame, Queue};
use super::super::run::Run;
use super::super::run::heading::Heading;
use super::Cartridge;
use engines::clocking::clear;
use engines::engine::Engine;
use modes::order::Order;
use modes::values::InitialValues;

// The chain with which a run begins. It is pushed to, since `try_extend_from_slice` answers an error, which cannot come here, and a word
// about it would be longer.
fn first_links(values: InitialValues) -> Queue
    ensures { result.items ≡ listed values }
{
    let mut chain = Queue::new();
    match values {
        InitialValues::Empty => {}
        InitialValues::One(a) => chain.push(a),
        InitialValues::Three(a, b, c) => {
            chain.push(a);
            chain.push(b);
            chain.push(c);
        }
    }
    chain
}

impl<E: Engine> Cartridge<E> {
    /// A cartridge that took no unit yet.
    pub fn new(engine: E) -> Cartridge<E>
        ensures rests { Rests (E.Engine.machine result.engine) result.count first }
        ensures engine { result.engine ≡ engine }
        ensures count { result.count ≡ 0 }
    {
        Cartridge { engine, count: 0 }
    }

    /// How many units its runs took.
    pub fn count(&self) -> usize
        ensures value { result ≡ self.now.count }
        ensures within { result ≤ unit_limit }
    {
        self.count
    }

    /// Takes the cartridge into a run. The engine is clocked empty, what comes out is thrown away, and none of these cycles counts.
    pub fn start<W: Heading>(self, order: Order, heading: W) -> Run<E, W>
        ensures started { Started (E.Engine.machine self.engine) (E.Engine.machine result.engine) self.count order W.Heading.heads result.frame }
        ensures fresh { Fresh result.frame order W.Heading.heads self.count }
        ensures engine { E.Engine.machine result.engine ≡ emptied (E.Engine.machine self.engine) }
    {
        let Cartridge { mut engine, count } = self;
        clear(&mut engine);
        Run {
            engine,
            frame: Frame {
                mode: order.mode(),
                way: heading.way_of(),
                pending: Queue::new(),
                chain: first_links(order.initial_values()),
                register: 0,
                before: count,
                taken: 0,
                cycles: 0,
            },
            heading,
        }
    }
}
