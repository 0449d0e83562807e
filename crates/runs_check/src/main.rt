//! Drives random lists of calls on cartridges, all modes, both ways, plain engine and line, and prints a digest of every answer, list
//! and number. What it must print comes from a model that is written apart from this code.
#![tactic(auto)]

mod digest;
mod drawing;
mod driving;

use cipher::dea::Dea;
use driving::drive;
use engines::line::Line;
use engines::plain::Plain;
use engines_tests::numbers::Numbers;
use refusals::Refusal;
use std::{array, io};

/// How many cartridges there are, each with its list of calls.
const LISTS: u32 = 400;

// Only a drawn opening could be refused, and each is drawn to be taken.
fn opening_refused(_: Refusal) -> io::Error {
    io::Error::other("a drawn opening is refused")
}

fn main(rt: HostRuntime) -> io::Result<()> {
    let mut numbers = Numbers::new(2026);
    for list in 0..LISTS {
        let tally = if list % 2 == 0 {
            drive(Plain::new(Dea::new(numbers.draw())), &mut numbers)
        } else {
            let [first, second, third]: [Dea; 3] = array::from_fn(|_| Dea::new(numbers.draw()));
            drive(Line::new(first, second, third), &mut numbers)
        }
        .map_err(opening_refused)?;
        println!(&rt; "list {list}: {tally}")?;
    }
    Ok(())
}
