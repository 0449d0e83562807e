//! The key schedule.
ghost use Rattle.std.specs.Prelude.{◌≡◌, ◌≤◌};
ghost use Rattle.cipher.specs.KeySchedule.{pc1, rotated, step as stepped, pc2, round_keys_of};

use super::tables::{PC1, PC2, ROTATIONS};
use super::words::select;
use std::marker::Model;

/// C or D: 28 bits of a key.
#[derive(Clone, Copy, Drop)]
struct Half(u32);

impl Model for Half {
    ghost use Rattle.std.specs.Prelude.{ℕ, ◌^◌, ◌<◌};

    ghost Value = { ℕ };

    ghost view = { λ half. half.0 };

    ghost invariant = { λ half. half.0 < 2 ^ 28 };

    ghost inverse = { λ value. record { 0 = value } };
}

// How far to rotate is read from a table of bytes, so that each step asks that it is at most two places: a type for it would be no plainer.
impl Half {
    fn rotate(self, places: u32) -> Half
        requires { places ≤ 2 }
        ensures { result ≡ rotated places self }
    {
        Half(((self.0 << places) & 0xfff_ffff) | (self.0 >> (28 - places)))
    }
}

/// The halves (C, D) of a key.
fn first_halves(key: u64) -> (Half, Half)
    ensures { result ≡ pc1 key }
{
    let x = select(64, &PC1, key);
    (Half((x >> 28) as u32), Half((x & 0xfff_ffff) as u32))
}

/// One step, from the halves (C, D) to the next.
fn step(places: u32, halves: (Half, Half)) -> (Half, Half)
    requires { places ≤ 2 }
    ensures { result ≡ stepped places halves }
{
    (halves.0.rotate(places), halves.1.rotate(places))
}

/// The round key of the halves (C, D).
fn round_key(halves: (Half, Half)) -> u64
    ensures { result ≡ pc2 halves }
{
    select(56, &PC2, (halves.0.0 as u64) << 28 | halves.1.0 as u64)
}

pub(super) fn schedule(key: u64) -> [u64; 16]
    ensures { result ≡ round_keys_of key }
{
    let mut halves = first_halves(key);
    ROTATIONS.map(
        |places|
            requires { places ≤ 2 }
        {
            halves = step(u32::from(places), halves);
            round_key(halves)
        },
    )
}
