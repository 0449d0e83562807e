//! How often an engine is clocked. An engine's meaning cannot tell, so this is run, not proved.
ghost use Rattle.std.proofs.Common.{rules};

use super::cartridge::Cartridge;
use super::run::Run;
use super::run::heading::{Heading, Receiving, Sending};
use cipher::Block;
use cipher::dea::Dea;
use engines::engine::Engine;
use engines::line::Line;
use engines::plain::Plain;
use engines::work::Work;
use modes::mode::Mode;
use modes::order::Order;
use refusals::Refusal;

// The crate engines_tests has the like of this engine and of `next` below, but by a rule of the project no crate of the product rests
// on one of tests, and no call gives a cartridge's engine out.
/// An engine around another that counts its cycles.
#[derive(Drop)]
struct Counting<E> {
    inner: E,
    clocks: u64,
}

impl<E: Engine> Engine for Counting<E> {
    const DEPTH: usize = E::DEPTH;

    ghost machine = { λ e. E.Engine.machine e.inner };

    ghost undo = { Prim.search rules };

    ghost places = { Prim.search rules };

    ghost shallow = { Prim.search rules };

    fn depth_of(&self) -> usize {
        self.inner.depth_of()
    }

    fn clock(&mut self, input: Option<Work>) -> Option<Block> {
        self.clocks = self.clocks.saturating_add(1);
        self.inner.clock(input)
    }
}

fn next(number: u64) -> u64 {
    number
        .wrapping_mul(6_364_136_223_846_793_005)
        .wrapping_add(1_442_695_040_888_963_407)
}

/// Calls as the number says, refused ones among them; answers the cycles told.
fn calls<E: Engine, W>(run: &mut Run<E, W>, mode: Mode, seed: u64) -> u64 {
    let mut number = seed;
    for _ in 0..9 {
        let mut out = [0; 12];
        number = next(number);
        let count = (number >> 60) as usize % 8;
        let room = (number >> 40) as usize % 13;
        let unit = mode.leftmost(number);
        if number >> 62 == 3 {
            let _ = run.drain(&mut out[0..room]);
        } else {
            let _ = run.feed(&[unit; 8][0..count], &mut out[0..room]);
        }
    }
    run.cycles()
}

/// A run of those calls. Gives the cartridge back with the cycles told.
fn run_through<E: Engine, W: Heading + Drop>(
    cartridge: Cartridge<E>,
    order: Order,
    heading: W,
    seed: u64,
) -> (Cartridge<E>, u64) {
    let mut run = cartridge.start(order, heading);
    let cycles = calls(&mut run, order.mode(), seed);
    (run.close(), cycles)
}

/// Runs in the modes in turn on one cartridge, some enciphering and some deciphering. Answers how often the engine was clocked, and how
/// often it should have been.
fn clocks_and_cycles<E: Engine + Drop>(engine: E, idle: u64) -> Result<(u64, u64), Refusal> {
    let mut cartridge = Cartridge::new(Counting {
        inner: engine,
        clocks: 0,
    });
    let mut due: u64 = 0;
    for (round, code) in (0..220u64).zip((1..=11u8).cycle()) {
        let mode = Mode::try_from(code)?;
        let order = Order::check(code, &[0x5A; 24][0..8 * mode.initial_values()])?;
        let (back, cycles) = if next(round) >> 63 == 0 {
            run_through(cartridge, order, Sending, round)
        } else {
            run_through(cartridge, order, Receiving, round)
        };
        cartridge = back;
        due = due.saturating_add(idle).saturating_add(cycles);
    }
    Ok((cartridge.engine.clocks, due))
}

#[test]
fn an_engine_is_clocked_for_the_cycles_told_and_for_each_start(
    rt: HostRuntime,
) -> Result<(), Refusal> {
    let (clocks, due) = clocks_and_cycles(Plain::new(Dea::new(0x0123_4567_89AB_CDEF)), 0)?;
    assert_eq!(rt; clocks, due);
    assert!(rt; clocks > 1000);
    let line = Line::new(Dea::new(1), Dea::new(2), Dea::new(3));
    let (clocks, due) = clocks_and_cycles(line, 2)?;
    assert_eq!(rt; clocks, due);
    assert!(rt; clocks > 1000);
    Ok(())
}
