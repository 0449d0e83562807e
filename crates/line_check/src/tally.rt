//! The comparison, cycle by cycle.
use cipher::triple::Triple;
use cipher::{Block, Cipher};
use engines::engine::Engine;
use engines::line::Line;
use engines::plain::Plain;
use engines::table::{BlockState, Stage};
use engines::work::{Direction, Work};
use engines_tests::numbers::Numbers;
use std::fmt;

/// How many there were of each kind. Counts wrap, so that no bound is asked.
#[derive(Clone, Copy, Default)]
pub struct Tally {
    pub forward: u32,
    pub inverse: u32,
    pub gaps: u32,
    pub mixed: u32,
    pub equal: u32,
    pub wrong: u32,
}

impl Tally {
    fn count_input(&mut self, input: Option<Work>) {
        let count = match input.map(|work| work.direction) {
            None => &mut self.gaps,
            Some(Direction::Forward) => &mut self.forward,
            Some(Direction::Inverse) => &mut self.inverse,
        };
        *count = count.wrapping_add(1);
    }

    fn count_answer(&mut self, answer: Option<Block>, wanted: Option<Block>) {
        if answer != wanted {
            self.wrong = self.wrong.wrapping_add(1);
        } else if answer.is_some() {
            self.equal = self.equal.wrapping_add(1);
        }
    }

    fn count_mixed(&mut self, first: BlockState, second: BlockState) {
        if let (BlockState::Holding(one), BlockState::Holding(other)) = (first, second)
            && one.direction != other.direction
        {
            self.mixed = self.mixed.wrapping_add(1);
        }
    }
}

impl fmt::Display for Tally {
    fn fmt<W: fmt::Write>(&self, f: &mut fmt::Formatter<W>) -> fmt::Result {
        writeln!(
            f,
            "blocks in: {} forward, {} inverse, {} gaps",
            self.forward, self.inverse, self.gaps
        )?;
        writeln!(f, "cycles with both directions in the line: {}", self.mixed)?;
        write!(
            f,
            "answers as the triple's: {}, others: {}",
            self.equal, self.wrong
        )
    }
}

/// Clocks a new line for so many cycles. Each answer is held to what the triple itself answered two cycles before.
pub fn compared<A: Cipher, B: Cipher, C: Cipher>(
    line: &mut Line<A, B, C>,
    triple: &mut Plain<Triple<A, B, C>>,
    mut numbers: Numbers,
    cycles: u32,
) -> Tally {
    let mut tally = Tally::default();
    let mut before = None;
    let mut last = None;
    for _ in 0..cycles {
        let input = numbers.input();
        let answer = line.clock(input);
        tally.count_input(input);
        tally.count_answer(answer, before);
        tally.count_mixed(line.state(Stage::First), line.state(Stage::Second));
        before = last;
        last = triple.clock(input);
    }
    tally
}
