//! One unit's way into the engine and out of it.
ghost use Rattle.std.specs.Prelude.{◌≡◌, ◌+◌, ◌<◌, ◌≤◌, length, drop, Some, slice_get};
ghost use Rattle.engines.specs.Depths.{the_greatest_depth};
ghost use Rattle.modes.specs.Table.{row};
ghost use Rattle.runs.specs.Steps.{link_of, shift_from, pushed, counted, one_if};
ghost use Rattle.runs.specs.Views.{view, Kept, MayTake, Admitted, Released};

use super::course::Course;
use super::{Frame, Queue};
use cipher::Block;
use engines::work::Work;

// Takes the oldest number out. The newest is handed from place to place up to the front, so that nothing is moved as a block: the
// library for C needs no function for that. By index: a fold that puts each number in the place of the next would be no plainer. Out of
// line: inside its callers it left the word of one key more on the stack of that library.
#[inline(never)]
fn take_oldest(queue: &mut Queue) -> Option<u64>
    ensures value { result ≡ slice_get queue.old.items 0 }
    ensures rest { queue.new.items ≡ drop 1 queue.old.items }
{
    let mut number = queue.pop()?;
    for i in (0..queue.len()).rev() {
        let older = queue[i];
        queue[i] = number;
        number = older;
    }
    Some(number)
}

// Takes the oldest number out of the chain, and puts one in at its end, where there is room then. A chain of none stays so.
fn pass(chain: &mut Queue, number: u64)
    ensures { length chain.old.items < the_greatest_depth → chain.new.items ≡ pushed chain.old.items number }
{
    if take_oldest(chain).is_some() {
        let _ = chain.try_push(number);
    }
}

// Each call says that it keeps the mode, the way and the first count, since that concerns two frames, and no value holds both.
// What one may take depends on the unit too, so that no type holds it.
impl Frame {
    fn course(&self) -> Course
        ensures { result ≡ record { family = (row self.now.mode).family; way = self.now.way } }
    {
        Course {
            family: self.mode.family(),
            way: self.way,
        }
    }

    /// What the chain has for the next unit.
    fn link(&self) -> u64
        ensures { result ≡ link_of self.now.mode self.now.way (view self.now) }
    {
        let place = if self.mode.distance(self.way).is_some() {
            self.pending.len()
        } else {
            0
        };
        self.chain.get(place).copied().unwrap_or(0)
    }

    /// The register for the next unit, where the chain has `link` for it.
    fn shifted(&self, link: u64) -> Block
        ensures { result ≡ shift_from self.now.mode self.now.way (view self.now) link }
    {
        if self.taken < self.mode.initial_values() {
            link
        } else {
            self.mode.shifted(self.register, link)
        }
    }

    /// Takes a unit or none in, and says what goes into the engine.
    pub(crate) fn admit(&mut self, unit: Option<u64>) -> Option<Work>
        requires { MayTake self.old (one_if unit) }
        ensures after { Admitted self.old.mode self.old.way (view self.old) (view self.new) unit result }
        ensures same { Kept self.old self.new }
        ensures most { length self.new.pending.items ≤ length self.old.pending.items + one_if unit }
        ensures count { self.new.taken ≡ self.old.taken + one_if unit }
    {
        let unit = unit?;
        let course = self.course();
        let link = self.link();
        let register = self.shifted(link);
        // there is room: an engine holds fewer blocks than it is deep
        let _ = self.pending.try_push(course.mask(unit, link));
        if self.mode.distance(self.way).is_none() {
            pass(&mut self.chain, unit);
        }
        self.register = course.register_after(self.register, register);
        self.taken += 1;
        Some(Work {
            block: course.input(unit, link, register),
            direction: course.direction(),
        })
    }

    /// Makes the unit that is handed out from what came out of the engine; none where no unit is waited for.
    pub(crate) fn release(&mut self, answer: Option<Block>) -> Option<u64>
        ensures after { Released self.old.mode self.old.way (view self.old) (view self.new) answer result }
        ensures same { Kept self.old self.new }
        ensures most { length self.new.pending.items + one_if result ≤ length self.old.pending.items }
        ensures count { self.new.taken ≡ self.old.taken }
    {
        let block = answer?;
        let mask = take_oldest(&mut self.pending)?;
        let unit = self.mode.leftmost(block) ^ mask;
        if self.mode.distance(self.way).is_some() {
            let link = self.course().fed_back(block, unit);
            pass(&mut self.chain, link);
        }
        Some(unit)
    }

    /// Counts a cycle.
    pub(crate) fn count_cycle(&mut self)
        ensures after { view self.new ≡ counted (view self.old) }
        ensures same { Kept self.old self.new }
    {
        self.cycles = self.cycles.wrapping_add(1);
    }
}
