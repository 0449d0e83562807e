//! The initial permutation and its inverse, five exchanges each, and the halves between them.
ghost use Rattle.std.specs.Prelude.{◌≡◌};
ghost use Rattle.cipher.specs.Rounds.{ip, ip_inverse, halves as halves_of, crossed};

use super::words::exchange;

/// The exchanges that make the initial permutation, each as its distance and mask.
const EXCHANGES: [(u32, u64); 5] = [
    (36, 0x0f0f_0f0f),
    (48, 0xffff),
    (30, 0xcccc_cccc),
    (24, 0xff00_ff00),
    (33, 0x5555_5555),
];

fn permute(block: u64) -> u64
    ensures { result ≡ ip block }
{
    let exchanges = EXCHANGES.iter();
    exchanges.fold(block, |x, (distance, mask)| exchange(x, *distance, *mask))
}

// The same but for the order: one function over any iterator of exchanges would have to ask that it ends, which is no plainer.
fn permute_back(block: u64) -> u64
    ensures { result ≡ ip_inverse block }
{
    let exchanges = EXCHANGES.iter().rev();
    exchanges.fold(block, |x, (distance, mask)| exchange(x, *distance, *mask))
}

/// The halves (L, R) that the first round takes.
pub(super) fn enter(block: u64) -> (u32, u32)
    ensures { result ≡ halves_of (ip block) }
{
    let x = permute(block);
    ((x >> 32) as u32, (x & 0xffff_ffff) as u32)
}

/// The block of the halves (L, R) that the last round answers: R goes before L.
pub(super) fn leave(halves: (u32, u32)) -> u64
    ensures { result ≡ ip_inverse (crossed halves) }
{
    permute_back((halves.1 as u64) << 32 | halves.0 as u64)
}
