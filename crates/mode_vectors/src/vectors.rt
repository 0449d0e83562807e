//! A text through each mode.
use arrayvec::ArrayVec;
use cipher::dea::Dea;
use cipher::triple::Triple;
use engines::engine::{Engine, GREATEST_DEPTH};
use engines::line::Line;
use engines::plain::Plain;
use modes::mode::Mode;
use modes::order::Order;
use runs::cartridge::Cartridge;
use runs::run::EncipheringRun;
use runs::run::heading::{Receiving, Sending};
use std::alloc::{AllocError, Global};
use std::fmt;

// Other programs write these keys and values out too, as words or as bytes: a crate and conversions to share them would be no plainer.
/// The three keys.
const KEYS: [u64; 3] = [
    0x0123_4567_89AB_CDEF,
    0x2345_6789_ABCD_EF01,
    0x4567_89AB_CDEF_0123,
];

/// The keys of the published example of the codebook mode.
const TWO_KEYS: [u64; 3] = [
    0x0123_4567_89AB_CDEF,
    0xFEDC_BA98_7654_3210,
    0x0123_4567_89AB_CDEF,
];

/// The initial values, eight bytes each.
#[rattlefmt::skip]
const VALUES: [u8; 24] = [
    0x12, 0x34, 0x56, 0x78, 0x90, 0xAB, 0xCD, 0xEF,
    0x67, 0x89, 0xAB, 0xCD, 0xE6, 0x01, 0x23, 0x44,
    0xBC, 0xDF, 0x01, 0x23, 0x3B, 0x56, 0x78, 0x99,
];

const TEXT: [u8; 56] = *b"Now is the time for all good men to come to the aid of t";

/// The most units of a vector.
const UNITS: usize = 16;

// Nothing here needs memory beside the stack, and so nothing can run out of it.
type Units = ArrayVec<u64, UNITS>;

/// The text as units of the mode: seven blocks, the first twelve bytes, or the first sixteen bits.
fn units_of(heap: Global, width: usize) -> Result<Units, AllocError> {
    match width {
        64 => TEXT
            .as_chunks()
            .0
            .iter()
            .map(|eight| u64::from_be_bytes(*eight))
            .collect(heap),
        8 => TEXT
            .iter()
            .take(12)
            .map(|byte| u64::from(*byte))
            .collect(heap),
        _ => TEXT
            .iter()
            .flat_map(|byte| (0..8).rev().map(move |i| u64::from(*byte >> i & 1)))
            .take(16)
            .collect(heap),
    }
}

// The demo has such a function with more units at a time: a crate that shares these few lines would be no plainer.
/// Feeds units one by one, and drains the run. Answers what is handed out.
fn feed_each<E: Engine>(run: &mut EncipheringRun<E>, units: &[u64]) -> anyhow::Result<Units> {
    let mut handed_out = Units::new();
    let mut out = [0; GREATEST_DEPTH];
    for unit in units {
        let count = run.feed(&[*unit], &mut out)?;
        handed_out.try_extend_from_slice(&out[..count])?;
    }
    let count = run.drain(&mut out)?;
    handed_out.try_extend_from_slice(&out[..count])?;
    Ok(handed_out)
}

/// Units in hexadecimal, with as many digits as their width has.
#[derive(Clone, Copy)]
struct Hexadecimal<'a> {
    units: &'a [u64],
    width: usize,
}

impl fmt::Display for Hexadecimal<'_> {
    fn fmt<W: fmt::Write>(&self, f: &mut fmt::Formatter<W>) -> fmt::Result {
        let digits = self.width.div_ceil(4);
        for unit in self.units {
            write!(f, " {unit:0digits$X}")?;
        }
        Ok(())
    }
}

/// Units that go through a mode under three keys.
#[derive(Drop)]
struct Vector {
    keys: [u64; 3],
    order: Order,
    units: Units,
}

impl Vector {
    /// The units sent on a new line.
    fn send(&self) -> anyhow::Result<Units> {
        let [first, second, third] = self.keys.map(Dea::new);
        let line = Line::new(first, second, third);
        let mut run = Cartridge::new(line).start(self.order, Sending);
        let sent = feed_each(&mut run, &self.units);
        drop(run.close());
        sent
    }

    /// What was sent, received on a new plain engine over the triple, in one feed.
    fn receive(&self, sent: &[u64]) -> anyhow::Result<Units> {
        let mut received = Units::from([0; UNITS]);
        let [first, second, third] = self.keys.map(Dea::new);
        let plain = Plain::new(Triple::new(first, second, third));
        let mut run = Cartridge::new(plain).start(self.order, Receiving);
        let answer = run.feed(sent, &mut received);
        drop(run.close());
        received.truncate(answer?);
        Ok(received)
    }

    fn show(&self, rt: &impl Print) -> anyhow::Result<()> {
        let mode = self.order.mode();
        let sent = self.send()?;
        let received = self.receive(&sent)?;
        println!(rt;
            "{} {}:{}, received again: {}",
            mode.code(),
            mode,
            Hexadecimal {
                units: &sent,
                width: mode.width()
            },
            received == self.units
        )?;
        Ok(())
    }
}

/// The text through one mode.
pub fn show_code(rt: &(impl Print + AllocGlobal), code: u8) -> anyhow::Result<()> {
    let mode = Mode::try_from(code)?;
    let vector = Vector {
        keys: KEYS,
        order: Order::check(code, &VALUES[..8 * mode.initial_values()])?,
        units: units_of(rt.alloc(), mode.width())?,
    };
    vector.show(rt)
}

/// The published example of the codebook mode under two keys.
pub fn show_codebook_example(rt: &(impl Print + AllocGlobal)) -> anyhow::Result<()> {
    let mut units = units_of(rt.alloc(), 64)?;
    units.truncate(4);
    let vector = Vector {
        keys: TWO_KEYS,
        order: Order::check(1, &[])?,
        units,
    };
    vector.show(rt)
}
