//! What the measurements compare: a line that is clocked, and three calls of single DEA in its place.
ghost use Rattle.std.specs.Prelude.{◌≡◌, length, replicate};
ghost use Rattle.test_exports.specs.Speeds.{gathered, called, line_gathered, calls_gathered};

use cipher::dea::Dea;
use cipher::{Block, Cipher};
use engines::engine::Engine;
use engines::line::Line;
use engines::work::{Direction, Work};
use keys::KeyBundle;

/// Clocks an engine with the numbers from 0 on, and gathers what comes out.
fn gather<E: Engine>(engine: &mut E, cycles: u64) -> Block
    ensures { result ≡ gathered cycles 0 (E.Engine.machine engine.old) 0 }
{
    let mut all = 0;
    for number in 0..cycles {
        let work = Work {
            block: number,
            direction: Direction::Forward,
        };
        all ^= engine.clock(Some(work)).unwrap_or(0);
    }
    all
}

/// The same numbers through three ciphers, one after the other.
fn call(first: &Dea, second: &Dea, third: &Dea, times: u64) -> Block
    ensures { result ≡ called times 0 first.now second.now third.now 0 }
{
    let mut all = 0;
    for number in 0..times {
        all ^= third.forward(second.inverse(first.forward(number)));
    }
    all
}

// The two calls below share their outer lines. One function that is given what to do with the ciphers would be no plainer: its
// clause would be longer than those lines. That the key bytes are zero then concerns the caller's bytes, which no type holds.
/// Clocks a line under the bundle so often, and answers what came out, gathered by exclusive or; 0 where the bundle is refused.
#[unsafe(no_mangle)]
pub extern "C" fn hervodig_line(keys: &mut [u8], cycles: u64) -> Block
    ensures value { result ≡ line_gathered keys.old cycles }
    ensures zeroed { keys.new ≡ replicate (length keys.old) 0 }
{
    KeyBundle::load(keys).map_or(0, |bundle| {
        let (first, second, third) = bundle.into_ciphers();
        gather(&mut Line::new(first, second, third), cycles)
    })
}

/// Calls three ciphers under the bundle so often, and answers the results likewise.
#[unsafe(no_mangle)]
pub extern "C" fn hervodig_three_calls(keys: &mut [u8], times: u64) -> Block
    ensures value { result ≡ calls_gathered keys.old times }
    ensures zeroed { keys.new ≡ replicate (length keys.old) 0 }
{
    KeyBundle::load(keys).map_or(0, |bundle| {
        let (first, second, third) = bundle.into_ciphers();
        call(&first, &second, &third, times)
    })
}
