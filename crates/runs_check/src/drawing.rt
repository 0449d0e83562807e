//! What is drawn for the calls.
ghost use Rattle.std.specs.Prelude.{◌<◌, ◌≤◌};

use engines_tests::numbers::Numbers;
use modes::mode::Mode;
use modes::order::Order;
use modes::way::Way;
use refusals::Refusal;
use std::array;

/// Places in every output list.
pub const PLACES: usize = 16;

/// A number below `n`, or 0 where `n` is 0.
pub fn pick(numbers: &mut Numbers, n: u64) -> u64
    ensures { 0 < n → result < n }
{
    let drawn = numbers.draw() >> 33;
    drawn.checked_rem(n).unwrap_or(0)
}

/// An opening that is taken.
pub fn draw_order(numbers: &mut Numbers) -> Result<Order, Refusal> {
    let code = (1 + pick(numbers, 11)) as u8;
    let values: [[u8; 8]; 3] = array::from_fn(|_| numbers.draw().to_be_bytes());
    let mode = Mode::try_from(code)?;
    Order::check(code, values[..mode.initial_values()].as_flattened())
}

pub fn draw_way(numbers: &mut Numbers) -> Way {
    if pick(numbers, 2) == 0 {
        Way::Enciphering
    } else {
        Way::Deciphering
    }
}

/// A unit, seldom one that may be too wide.
fn draw_unit(numbers: &mut Numbers, mode: Mode) -> u64 {
    let drawn = numbers.draw();
    if pick(numbers, 32) == 0 {
        drawn
    } else {
        mode.leftmost(drawn)
    }
}

/// Fills a list with units.
pub fn draw_units(numbers: &mut Numbers, mode: Mode, units: &mut [u64]) {
    units.fill_with(|| draw_unit(numbers, mode));
}

/// How long an output list is: mostly long enough.
pub fn draw_room(numbers: &mut Numbers, seldom: u64) -> usize
    ensures { result ≤ PLACES }
{
    if pick(numbers, 4) == 0 {
        PLACES.min(pick(numbers, seldom) as usize)
    } else {
        PLACES
    }
}

/// An output list in which every place is known.
pub fn fresh_output() -> [u64; PLACES] {
    array::from_fn(|i| 0xA5A5_A5A5_A5A5_A5A5 ^ i as u64)
}
