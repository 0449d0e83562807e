//! The line: three functional blocks that work three blocks at once.
ghost use Rattle.std.specs.Prelude.{◌≡◌, [], ◌∷◌};
ghost use Rattle.cipher.specs.Triples.{in_row};
ghost use Rattle.engines.specs.declared.table.BlockState.TheVariants.{Idle};
ghost use Rattle.engines.specs.Machines.{answered, resting, turned};
ghost use Rattle.engines.specs.Tables.{held, state};
ghost use Rattle.engines.specs.Lines.{advanced, line_machine, stage_function, turned_at};
ghost use Rattle.cipher.specs.InRow.{undo_in_row, undo_swapped};
ghost use Rattle.std.proofs.Common.{rules};

use super::engine::Engine;
use super::table::{BlockState, Stage, Table};
use super::work::{Direction, Work};
use cipher::{Block, Cipher};

// A proof reads this name, and not the trait's constant.
const LINE_DEPTH: usize = 3;

/// An engine of depth 3 over any three ciphers: the triple's functions, with a block in each functional block at once.
#[derive(Drop)]
pub struct Line<A, B, C> {
    first: A,
    second: B,
    third: C,
    table: Table,
}

impl<A: Cipher, B: Cipher, C: Cipher> Line<A, B, C> {
    // Three ciphers, and not the triple of them: its parts are private to its crate, and the table works them one by one.
    /// A line with all its functional blocks idle.
    pub fn new(first: A, second: B, third: C) -> Self
        ensures means { line_machine A.Cipher B.Cipher C.Cipher result ≡ resting (in_row (A.Cipher.forward first) (B.Cipher.inverse second) (C.Cipher.forward third)) (in_row (C.Cipher.inverse third) (B.Cipher.forward second) (A.Cipher.inverse first)) 3 }
        ensures idle { result.table.blocks ≡ Idle ∷ Idle ∷ Idle ∷ [] }
    {
        Line {
            first,
            second,
            third,
            table: Table::new(),
        }
    }

    /// What stands in one of the functional blocks.
    pub fn state(&self, stage: Stage) -> BlockState
        ensures { result ≡ state self.now.table.blocks stage }
    {
        self.table.state(stage)
    }

    // The work of a functional block. The inverse goes through the ciphers the other way round.
    // A match, and no table of functions: the ciphers are of three types, and the six arms stand line by line as in the specification.
    fn worked(&self, stage: Stage, work: Work) -> Block
        ensures { result ≡ stage_function A.Cipher B.Cipher C.Cipher self.now stage work.direction work.block }
    {
        match (stage, work.direction) {
            (Stage::First, Direction::Forward) => self.first.forward(work.block),
            (Stage::Second, Direction::Forward) => self.second.inverse(work.block),
            (Stage::Third, Direction::Forward) => self.third.forward(work.block),
            (Stage::First, Direction::Inverse) => self.third.inverse(work.block),
            (Stage::Second, Direction::Inverse) => self.second.forward(work.block),
            (Stage::Third, Direction::Inverse) => self.first.inverse(work.block),
        }
    }

    // One functional block works what comes in, and hands on what it held.
    fn turn(&mut self, stage: Stage, event: Option<Work>) -> Option<Work>
        ensures handed { result ≡ held (state self.old.table.blocks stage) }
        ensures after { self.new ≡ turned_at A.Cipher B.Cipher C.Cipher self.old stage event }
    {
        let taken = event.map(|work| Work {
            block: self.worked(stage, work),
            direction: work.direction,
        });
        self.table.turn(stage, taken)
    }

    // One cycle: each functional block takes up what the one before it held.
    fn advance(&mut self, input: Option<Work>)
        ensures { self.new ≡ advanced A.Cipher B.Cipher C.Cipher self.old input }
    {
        let from_first = self.turn(Stage::First, input);
        let from_second = self.turn(Stage::Second, from_first);
        let _ = self.turn(Stage::Third, from_second);
    }
}

impl<A: Cipher, B: Cipher, C: Cipher> Engine for Line<A, B, C> {
    const DEPTH: usize = LINE_DEPTH;

    ghost machine = { line_machine A.Cipher B.Cipher C.Cipher };

    ghost undo = { λ l. undo_in_row (A.Cipher.undo l.first) (undo_swapped (B.Cipher.undo l.second)) (C.Cipher.undo l.third) };

    ghost places = { Prim.search rules };

    ghost shallow = { Prim.search rules };

    fn depth_of(&self) -> usize {
        LINE_DEPTH
    }

    /// Besides what any engine promises: each functional block holds its own work on what the one before it held.
    fn clock(&mut self, input: Option<Work>) -> Option<Block>
        ensures answer { result ≡ answered (line_machine A.Cipher B.Cipher C.Cipher self.old) input }
        ensures after { line_machine A.Cipher B.Cipher C.Cipher self.new ≡ turned (line_machine A.Cipher B.Cipher C.Cipher self.old) input }
        ensures held { self.new ≡ advanced A.Cipher B.Cipher C.Cipher self.old input }
    {
        self.advance(input);
        self.table.state(Stage::Third).block()
    }
}
