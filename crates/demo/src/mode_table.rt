//! The table of the modes from the code's own functions, and openings that are taken and refused.
use modes::mode::Mode;
use modes::order::Order;
use modes::reach::Reach;
use modes::values::InitialValues;
use modes::way::Way;
use modes::worked::worked_values;
use refusals::Refusal;
use std::{fmt, io};

/// Three initial values, eight bytes each.
#[rattlefmt::skip]
pub const VALUES: [u8; 24] = [
    0x12, 0x34, 0x56, 0x78, 0x90, 0xAB, 0xCD, 0xEF,
    0x67, 0x89, 0xAB, 0xCD, 0xE6, 0x01, 0x23, 0x44,
    0xBC, 0xDF, 0x01, 0x23, 0x3B, 0x56, 0x78, 0x99,
];

// A figure of the table that some modes do not have.
#[derive(Clone, Copy)]
struct Figure(Option<usize>);

impl fmt::Display for Figure {
    fn fmt<W: fmt::Write>(&self, f: &mut fmt::Formatter<W>) -> fmt::Result {
        match self.0 {
            Some(number) => write!(f, "{number}"),
            None => write!(f, "none"),
        }
    }
}

// The reach of unit d.
#[derive(Clone, Copy)]
struct ReachOfD(Option<Reach>);

impl fmt::Display for ReachOfD {
    fn fmt<W: fmt::Write>(&self, f: &mut fmt::Formatter<W>) -> fmt::Result {
        match self.0 {
            None => write!(f, "none"),
            Some(Reach { first, last }) if first == last => write!(f, "d+{first}"),
            Some(Reach { first, last }) => write!(f, "d+{first} to d+{last}"),
        }
    }
}

// What answers an opening.
#[derive(Clone, Copy)]
struct Opening(Result<Order, Refusal>);

impl fmt::Display for Opening {
    fn fmt<W: fmt::Write>(&self, f: &mut fmt::Formatter<W>) -> fmt::Result {
        match self.0 {
            Ok(order) => {
                let mode = order.mode();
                match order.initial_values() {
                    InitialValues::Empty => write!(f, "{mode}"),
                    InitialValues::One(a) => write!(f, "{mode} {a:016X}"),
                    InitialValues::Three(a, b, c) => {
                        write!(f, "{mode} {a:016X} {b:016X} {c:016X}")
                    }
                }
            }
            Err(refusal) => write!(
                f,
                "refused {} {}: {refusal}",
                refusal.number(),
                refusal.detail()
            ),
        }
    }
}

// One line of the table.
fn show_mode(rt: &impl Print, mode: Mode) -> io::Result<()> {
    println!(rt;
        "{:2} {:6} width {:2}, initial values {}, distance {} / {}, memory {}, reach {}",
        mode.code(),
        mode,
        mode.width(),
        mode.initial_values(),
        Figure(mode.distance(Way::Enciphering)),
        Figure(mode.distance(Way::Deciphering)),
        Figure(mode.memory()),
        ReachOfD(mode.reach())
    )
}

// An opening, and the order or the refusal that answers it.
fn show_opening(rt: &impl Print, code: u8, bytes: &[u8]) -> io::Result<()> {
    println!(rt;
        "code {code:2}, {:2} bytes: {}",
        bytes.len(),
        Opening(Order::check(code, bytes))
    )
}

pub fn show(rt: &impl Print) -> io::Result<()> {
    println!(rt; "the modes:")?;
    for mode in (0..=12).filter_map(|code| Mode::try_from(code).ok()) {
        show_mode(rt, mode)?;
    }
    println!(rt; "")?;
    println!(rt; "openings:")?;
    show_opening(rt, 1, &[])?;
    show_opening(rt, 5, &VALUES[..8])?;
    show_opening(rt, 11, &VALUES)?;
    show_opening(rt, 0, &[])?;
    show_opening(rt, 12, &VALUES)?;
    show_opening(rt, 1, &VALUES[..8])?;
    show_opening(rt, 3, &VALUES[..8])?;
    show_opening(rt, 10, &VALUES[..7])?;
    println!(rt; "")?;
    println!(rt;
        "{} worked values of the shift and the schedule are proved",
        worked_values()
    )
}
