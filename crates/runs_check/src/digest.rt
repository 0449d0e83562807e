//! A digest of numbers, in which every number counts.
use std::fmt;

#[derive(Clone, Copy)]
pub struct Digest(u64);

impl Default for Digest {
    fn default() -> Digest {
        Digest(0xCBF2_9CE4_8422_2325)
    }
}

impl Digest {
    pub fn add(&mut self, number: u64) {
        let mixed = (self.0 ^ number).wrapping_mul(0x0100_0000_01B3);
        self.0 = mixed ^ (mixed >> 29);
    }

    pub fn add_all(&mut self, numbers: &[u64]) {
        for number in numbers {
            self.add(*number);
        }
    }
}

impl fmt::Display for Digest {
    fn fmt<W: fmt::Write>(&self, f: &mut fmt::Formatter<W>) -> fmt::Result {
        write!(f, "{:016X}", self.0)
    }
}
