//! Lists of calls, as they are drawn.
use crate::digest::Digest;
use crate::drawing::{draw_order, draw_room, draw_units, draw_way, fresh_output, pick};
use engines::engine::Engine;
use engines_tests::numbers::Numbers;
use modes::mode::Mode;
use modes::order::Order;
use modes::way::Way;
use refusals::Refusal;
use runs::cartridge::Cartridge;
use runs::run::Run;
use runs::run::heading::{Receiving, Sending};
use std::fmt;

/// What happened on one cartridge.
#[derive(Clone, Copy, Default)]
pub struct Tally {
    calls: u64,
    refused: u64,
    units: u64,
    cycles: u64,
    digest: Digest,
}

impl Tally {
    fn note(&mut self, answer: Result<usize, Refusal>) {
        self.calls = self.calls.saturating_add(1);
        match answer {
            Ok(handed_out) => self.digest.add(handed_out as u64),
            Err(refusal) => {
                self.refused = self.refused.saturating_add(1);
                self.digest.add(1000 + u64::from(refusal.number()));
                self.digest.add(refusal.detail());
            }
        }
    }

    fn note_numbers<E: Engine, W>(&mut self, run: &Run<E, W>) {
        self.digest.add(run.units_taken() as u64);
        self.digest.add(run.units_handed_out() as u64);
        self.digest.add(run.units_inside() as u64);
        self.digest.add(run.cycles());
    }
}

impl fmt::Display for Tally {
    fn fmt<W: fmt::Write>(&self, f: &mut fmt::Formatter<W>) -> fmt::Result {
        write!(
            f,
            "calls {}, refused {}, units {}, cycles {}, digest {}",
            self.calls, self.refused, self.units, self.cycles, self.digest
        )
    }
}

/// Makes the calls that it draws, and tallies what happens.
#[derive(Drop)]
struct Driver<'a> {
    numbers: &'a mut Numbers,
    tally: Tally,
}

impl Driver<'_> {
    /// One feed or drain.
    fn call<E: Engine, W>(&mut self, run: &mut Run<E, W>, mode: Mode) {
        let mut out = fresh_output();
        let answer = if pick(self.numbers, 4) == 3 {
            let room = draw_room(self.numbers, 4);
            run.drain(&mut out[..room])
        } else {
            let mut units = [0; 8];
            let count = pick(self.numbers, 8) as usize;
            let room = draw_room(self.numbers, 16);
            let offered = &mut units[..count];
            draw_units(self.numbers, mode, offered);
            run.feed(offered, &mut out[..room])
        };
        self.tally.note(answer);
        self.tally.digest.add_all(&out);
        self.tally.note_numbers(run);
    }

    /// A run of so many calls, and its closing.
    fn run_through<E: Engine, W: Drop>(&mut self, mut run: Run<E, W>, mode: Mode) -> Cartridge<E> {
        let calls = 1 + pick(self.numbers, 8);
        for _ in 0..calls {
            self.call(&mut run, mode);
        }
        self.tally.cycles = self.tally.cycles.saturating_add(run.cycles());
        run.close()
    }

    /// A run either way.
    fn open_and_run<E: Engine>(&mut self, cartridge: Cartridge<E>, order: Order) -> Cartridge<E> {
        let mode = order.mode();
        match draw_way(self.numbers) {
            Way::Enciphering => self.run_through(cartridge.start(order, Sending), mode),
            Way::Deciphering => self.run_through(cartridge.start(order, Receiving), mode),
        }
    }
}

/// One to three runs on a new cartridge.
pub fn drive<E: Engine + Drop>(engine: E, numbers: &mut Numbers) -> Result<Tally, Refusal> {
    let mut cartridge = Cartridge::new(engine);
    let runs = 1 + pick(numbers, 3);
    let mut driver = Driver {
        numbers,
        tally: Tally::default(),
    };
    for _ in 0..runs {
        let order = draw_order(driver.numbers)?;
        cartridge = driver.open_and_run(cartridge, order);
        driver.tally.digest.add(cartridge.count() as u64);
    }
    driver.tally.units = cartridge.count() as u64;
    Ok(driver.tally)
}
