//! Holds the line's answers to the triple's, over cycles with gaps and both directions as they are drawn.
#![tactic(auto)]

mod tally;

use cipher::triple::Triple;
use engines::line::Line;
use engines::plain::Plain;
use engines_tests::numbers::Numbers;
use engines_tests::toys::{Added, Crossed, Rotated};
use std::io;
use tally::compared;

fn main(rt: HostRuntime) -> io::Result<()> {
    let added = Added {
        number: 0x0123_4567_89AB_CDEF,
    };
    let crossed = Crossed {
        mask: 0xFEDC_BA98_7654_3210,
    };
    let mut line = Line::new(Rotated, added, crossed);
    let mut triple = Plain::new(Triple::new(Rotated, added, crossed));
    let tally = compared(&mut line, &mut triple, Numbers::new(1), 1000);
    println!(rt; "{tally}")
}
