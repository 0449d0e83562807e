//! A settlement file on its way: enciphered on the line, damaged, and received on an engine of another depth.
ghost use Rattle.std.specs.Prelude.{◌<◌};

use crate::blocks::{Blocks, UNITS};
use crate::loading::{load_line, load_plain};
use arrayvec::ArrayVec;
use engines::engine::Engine;
use modes::mode::Mode;
use modes::order::Order;
use modes::way::Way;
use runs::cartridge::Cartridge;
use runs::ends::units_on_the_way;
use runs::run::heading::{Receiving, Sending};
use runs::run::{DecipheringRun, EncipheringRun, Run};
use std::alloc::{AllocError, Global};
use std::fmt;

/// What a run tells, with what the formula for its cycles asks.
#[derive(Clone, Copy)]
pub struct Accounts {
    depth: usize,
    distance: Option<usize>,
    taken: usize,
    handed_out: usize,
    inside: usize,
    cycles: u64,
}

impl Accounts {
    fn of<E: Engine, W>(run: &Run<E, W>, depth: usize, distance: Option<usize>) -> Accounts {
        Accounts {
            depth,
            distance,
            taken: run.units_taken(),
            handed_out: run.units_handed_out(),
            inside: run.units_inside(),
            cycles: run.cycles(),
        }
    }

    /// The cycles that the formula gives for the units taken, once they are drained.
    fn cycles_by_formula(&self) -> usize {
        let waited = self.distance.map_or(0, |distance| {
            let waits = self.taken.saturating_sub(1).checked_div(distance);
            let each = self.depth.saturating_sub(distance);
            waits.unwrap_or(0).saturating_mul(each)
        });
        self.taken
            .saturating_add(waited)
            .saturating_add(self.depth.saturating_sub(1))
    }
}

impl fmt::Display for Accounts {
    fn fmt<W: fmt::Write>(&self, f: &mut fmt::Formatter<W>) -> fmt::Result {
        write!(
            f,
            "depth {}: taken {}, handed out {}, inside {}, cycles {}, by the formula {}",
            self.depth,
            self.taken,
            self.handed_out,
            self.inside,
            self.cycles,
            self.cycles_by_formula()
        )
    }
}

/// What the leased line does: it flips a bit of one unit and loses another. Places count from 0.
#[derive(Clone, Copy)]
pub struct Damage {
    pub flipped: usize,
    pub lost: usize,
}

impl Damage {
    /// The units that arrive of those that are sent.
    fn travel(&self, heap: Global, sent: &[u64]) -> Result<Blocks, AllocError> {
        sent.iter()
            .enumerate()
            .filter(|(place, _)| *place != self.lost)
            .map(|(place, unit)| {
                if place == self.flipped {
                    *unit ^ 0x20
                } else {
                    *unit
                }
            })
            .collect(heap)
    }

    /// What was received for each sent unit; none for the lost one.
    pub fn arrivals(
        &self,
        heap: Global,
        received: &[u64],
    ) -> Result<ArrayVec<Option<u64>, UNITS>, AllocError> {
        let before = received.iter().take(self.lost);
        let after = received.iter().skip(self.lost);
        before
            .map(|unit| Some(*unit))
            .chain([None])
            .chain(after.map(|unit| Some(*unit)))
            .collect(heap)
    }
}

/// All that happened.
#[derive(Drop)]
pub struct Transmission {
    pub sent: Blocks,
    pub received: Blocks,
    pub on_the_way: usize,
    pub sender: Accounts,
    pub receiver: Accounts,
}

/// Both ends of the line, with their runs open at once.
struct Ends<S, R> {
    sending: EncipheringRun<S>,
    receiving: DecipheringRun<R>,
    // of the two engines, since a run gives its engine out nowhere
    depths: [usize; 2],
    mode: Mode,
}

impl<S: Engine + Drop, R: Engine + Drop> Ends<S, R> {
    fn open(sender: S, receiver: R, order: Order) -> Self {
        Ends {
            depths: [sender.depth_of(), receiver.depth_of()],
            sending: Cartridge::new(sender).start(order, Sending),
            receiving: Cartridge::new(receiver).start(order, Receiving),
            mode: order.mode(),
        }
    }

    /// The file goes in by nine units at a time. What arrives is fed as it comes.
    fn transmit(
        &mut self,
        heap: Global,
        file: &[u64],
        damage: Damage,
    ) -> anyhow::Result<Transmission> {
        let sent = pass(&mut self.sending, file, 9)?;
        let arriving = damage.travel(heap, &sent)?;
        let received = pass(&mut self.receiving, &arriving, 1)?;
        let [sender, receiver] = self.depths;
        Ok(Transmission {
            sent,
            received,
            on_the_way: units_on_the_way(&self.sending, &self.receiving),
            sender: Accounts::of(&self.sending, sender, self.mode.distance(Way::Enciphering)),
            receiver: Accounts::of(
                &self.receiving,
                receiver,
                self.mode.distance(Way::Deciphering),
            ),
        })
    }

    fn close(self) {
        let Ends {
            sending,
            receiving,
            depths: _,
            mode: _,
        } = self;
        drop(sending.close());
        drop(receiving.close());
    }
}

/// Feeds units, so many at a time, and drains the run. Answers what is handed out.
fn pass<E: Engine, W>(run: &mut Run<E, W>, units: &[u64], at_once: usize) -> anyhow::Result<Blocks>
    requires { 0 < at_once }
{
    let mut handed_out = Blocks::new();
    let mut out = [0; UNITS];
    for part in units.chunks(at_once) {
        let count = run.feed(part, &mut out)?;
        handed_out.try_extend_from_slice(&out[..count])?;
    }
    let count = run.drain(&mut out)?;
    handed_out.try_extend_from_slice(&out[..count])?;
    Ok(handed_out)
}

/// The file under the example's keys: sent on the line, received on a plain engine over the triple.
pub fn run(
    rt: &(impl Print + AllocGlobal),
    order: Order,
    file: &[u64],
    damage: Damage,
) -> anyhow::Result<Transmission> {
    let mut ends = Ends::open(load_line(rt)?, load_plain(rt)?, order);
    let transmission = ends.transmit(rt.alloc(), file, damage);
    ends.close();
    transmission
}
