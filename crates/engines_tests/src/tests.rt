use crate::chosen::Chosen;
use crate::counted::Counted;
use crate::toys::{Added, Crossed, Rotated};
use cipher::triple::Triple;
use cipher::{Block, Cipher};
use engines::clocking::flush;
use engines::engine::Engine;
use engines::line::Line;
use engines::plain::Plain;
use engines::table::{BlockState, Stage};
use engines::work::Direction::{self, Forward, Inverse};
use engines::work::Work;

const ADDED: Added = Added {
    number: 0x0123_4567_89AB_CDEF,
};

const CROSSED: Crossed = Crossed {
    mask: 0xFEDC_BA98_0000_0001,
};

fn given(direction: Direction, block: Block) -> Option<Work> {
    Some(Work { block, direction })
}

#[test]
fn plain_engine_answers_in_the_same_cycle(rt: HostRuntime) {
    let mut engine = Plain::new(ADDED);
    assert_eq!(rt;
        engine.clock(given(Forward, 1)),
        Some(0x0123_4567_89AB_CDF0)
    );
    assert_eq!(rt; engine.clock(None), None);
    assert_eq!(rt;
        engine.clock(given(Inverse, 0x0123_4567_89AB_CDF0)),
        Some(1)
    );
}

#[test]
fn line_is_emptied_in_two_cycles(rt: HostRuntime) {
    let triple = Triple::new(Rotated, ADDED, CROSSED);
    let mut engine = Counted::new(Line::new(Rotated, ADDED, CROSSED));
    assert_eq!(rt; engine.clock(given(Forward, 7)), None);
    assert_eq!(rt; engine.clock(given(Inverse, 9)), None);
    let mut answers = [Some(5); 3];
    flush(&mut engine, &mut answers);
    assert_eq!(rt; answers[0], Some(triple.forward(7)));
    assert_eq!(rt; answers[1], Some(triple.inverse(9)));
    assert_eq!(rt; answers[2], Some(5));
    assert_eq!(rt; engine.cycles(), 4);
}

#[test]
fn what_finds_no_place_is_lost(rt: HostRuntime) {
    let mut engine = Line::new(Rotated, ADDED, CROSSED);
    assert_eq!(rt; engine.clock(given(Forward, 7)), None);
    let mut answers = [Some(5)];
    flush(&mut engine, &mut answers);
    assert_eq!(rt; answers[0], None);
    assert_eq!(rt; engine.clock(None), None);
}

#[test]
fn line_tells_what_stands_in_its_functional_blocks(rt: HostRuntime) {
    let mut line = Line::new(Rotated, ADDED, CROSSED);
    assert_eq!(rt; line.clock(given(Forward, 7)), None);
    let worked = Work {
        block: 0x0700,
        direction: Forward,
    };
    assert_eq!(rt; line.state(Stage::First), BlockState::Holding(worked));
    assert_eq!(rt; line.state(Stage::Second), BlockState::Idle);
}

#[test]
fn chosen_engine_is_emptied_at_the_depth_of_the_one_that_it_is(rt: HostRuntime) {
    type Either = Chosen<Plain<Added>, Line<Rotated, Added, Crossed>>;
    let mut plain: Either = Chosen::One(Plain::new(ADDED));
    let mut line: Either = Chosen::Other(Line::new(Rotated, ADDED, CROSSED));
    assert_eq!(rt; (plain.depth_of(), line.depth_of()), (1, 3));
    assert_eq!(rt; plain.clock(given(Forward, 1)), Some(0x0123_4567_89AB_CDF0));
    assert_eq!(rt; line.clock(given(Forward, 7)), None);
    let mut answers = [Some(5); 3];
    flush(&mut plain, &mut answers);
    assert_eq!(rt; answers[0], Some(5));
    flush(&mut line, &mut answers);
    let triple = Triple::new(Rotated, ADDED, CROSSED);
    assert_eq!(rt; answers[0], None);
    assert_eq!(rt; answers[1], Some(triple.forward(7)));
    assert_eq!(rt; answers[2], Some(5));
}
