//! The line, cycle by cycle.
use crate::loading::{load_line, load_plain};
use cipher::Block;
use engines::engine::Engine;
use engines::table::{BlockState, Stage};
use engines::work::{Direction, Work};
use std::fmt;

// Two blocks in a row, a gap, one of each direction in a row, and empty cycles until all are out.
const INPUTS: [Option<Work>; 8] = [
    Some(Work {
        block: 0x0123_4567_89AB_CDEF,
        direction: Direction::Forward,
    }),
    Some(Work {
        block: 0x5468_6520_7175_6663,
        direction: Direction::Forward,
    }),
    None,
    Some(Work {
        block: 0x85E8_1354_0F0A_B405,
        direction: Direction::Inverse,
    }),
    Some(Work {
        block: 0,
        direction: Direction::Forward,
    }),
    None,
    None,
    None,
];

// What goes into the line in a cycle.
#[derive(Clone, Copy)]
struct Input(Option<Work>);

impl fmt::Display for Input {
    fn fmt<W: fmt::Write>(&self, f: &mut fmt::Formatter<W>) -> fmt::Result {
        let Some(Work { block, direction }) = self.0 else {
            return write!(f, "nothing                 ");
        };
        match direction {
            Direction::Forward => write!(f, "forward {block:016X}"),
            Direction::Inverse => write!(f, "inverse {block:016X}"),
        }
    }
}

// What stands in a functional block.
#[derive(Clone, Copy)]
struct State(BlockState);

impl fmt::Display for State {
    fn fmt<W: fmt::Write>(&self, f: &mut fmt::Formatter<W>) -> fmt::Result {
        match self.0.block() {
            Some(block) => write!(f, "{block:016X}"),
            None => write!(f, "idle            "),
        }
    }
}

// What comes out, beside what the triple gives.
#[derive(Clone, Copy)]
struct Output {
    answer: Option<Block>,
    wanted: Option<Block>,
}

impl fmt::Display for Output {
    fn fmt<W: fmt::Write>(&self, f: &mut fmt::Formatter<W>) -> fmt::Result {
        if self.answer != self.wanted {
            return write!(f, "NOT what the triple gives");
        }
        match self.answer {
            Some(block) => write!(f, "{block:016X}, as the triple"),
            None => write!(f, "nothing"),
        }
    }
}

/// The line of the example's three keys at work. For each cycle: what goes in, what then stands in each functional block, what comes
/// out, and whether that is what the triple itself answered two cycles before.
pub fn show(rt: &impl Print) -> anyhow::Result<()> {
    let mut line = load_line(rt)?;
    let mut triple = load_plain(rt)?;
    let answers = INPUTS.map(|input| triple.clock(input));
    // what is due of the line comes two cycles after the triple's answer
    let wanted = [None; 2].into_iter().chain(answers);
    println!(rt;
        "    in                        first             second            third             out"
    )?;
    for ((cycle, input), wanted) in INPUTS.iter().enumerate().zip(wanted) {
        let answer = line.clock(*input);
        println!(rt;
            "{:>2}  {}  {}  {}  {}  {}",
            cycle + 1,
            Input(*input),
            State(line.state(Stage::First)),
            State(line.state(Stage::Second)),
            State(line.state(Stage::Third)),
            Output { answer, wanted }
        )?;
    }
    Ok(())
}
