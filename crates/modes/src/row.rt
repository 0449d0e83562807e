//! A row of the table of the modes, and the figures that follow from it.
ghost use Rattle.std.specs.Prelude.{◌≡◌, ◌<◌, ◌≤◌};
ghost use Rattle.modes.specs.Table.{Figures, distance, memory, reach};

use super::family::Family;
use super::reach::Reach;
use super::way::Way;
use std::marker::Model;

// What the table says of a mode: the rest of its figures follows from this.
#[derive(Drop)]
pub(crate) struct Row {
    pub(crate) code: u8,
    pub(crate) family: Family,
    // bits in a unit
    pub(crate) width: usize,
    // how many initial values, and so the distance of the equations
    pub(crate) values: usize,
}

impl Model for Row {
    ghost Value = { Figures };

    ghost view = { λ r. record { code = r.code; family = r.family; width = r.width; values = r.values } };

    ghost invariant = { λ r. (0 < r.width) × (r.width ≤ 64) × (r.values ≤ 3) };
}

impl Row {
    // The figures in their order: with named fields a row would take six lines, and the table could not be read as one.
    pub(crate) fn new(code: u8, family: Family, width: usize, values: usize) -> Self
        requires { (0 < width) × (width ≤ 64) × (values ≤ 3) }
        ensures { result ≡ record { code = code; family = family; width = width; values = values } }
    {
        Row {
            code,
            family,
            width,
            values,
        }
    }

    // How far back the result lies that a unit waits for.
    pub(crate) fn distance(&self, way: Way) -> Option<usize>
        ensures { result ≡ distance self.now.family way self.now.values }
    {
        match (self.family, way) {
            (Family::Codebook, _) => None,
            (Family::OutputFeedback, _) | (_, Way::Enciphering) => Some(self.values),
            (_, Way::Deciphering) => None,
        }
    }

    // How many ciphered units before its own a plain unit rests on.
    pub(crate) fn memory(&self) -> Option<usize>
        ensures { result ≡ memory self.now.family self.now.width self.now.values }
    {
        match self.family {
            Family::Codebook => Some(0),
            Family::Chaining => Some(self.values),
            Family::CipherFeedback => Some(64 / self.width + self.values - 1),
            Family::OutputFeedback => None,
        }
    }

    // Which plain units behind it a ciphered unit is used for.
    pub(crate) fn reach(&self) -> Option<Reach>
        ensures { result ≡ reach self.now.family self.now.width self.now.values }
    {
        match self.family {
            Family::Chaining => Some(Reach {
                first: self.values,
                last: self.values,
            }),
            Family::CipherFeedback => Some(Reach {
                first: self.values,
                last: self.values + 64 / self.width - 1,
            }),
            _ => None,
        }
    }
}
