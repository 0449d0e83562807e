//! A round: from one pair of halves to the next.
ghost use Rattle.std.specs.Prelude.{◌≡◌};
ghost use Rattle.cipher.specs.Rounds.{f, round as rounded};
ghost use Rattle.cipher.specs.Combined.{window as window_of};

use super::Dea;

/// The 32 bits with the last in front and the first behind: what E gives a box is six neighbours of these 34.
fn window(right: u32) -> u64
    ensures { result ≡ window_of right }
{
    let x = right as u64;
    ((x & 1) << 33) ^ (x << 1) ^ (x >> 31)
}

impl Dea {
    /// f(R, K).
    fn mix(&self, right: u32, key: u64) -> u32
        ensures { result ≡ f right key }
    {
        let bits = window(right);
        let mut mixed: u32 = 0;
        for (i, answers) in self.substitution.chunks_exact(64).enumerate() {
            let six = ((bits >> (28 - 4 * i)) ^ (key >> (42 - 6 * i))) & 63;
            mixed ^= answers[six as usize];
        }
        mixed
    }

    /// One round takes the halves (L, R) and answers the next.
    pub(super) fn round(&self, key: u64, halves: (u32, u32)) -> (u32, u32)
        ensures { result ≡ rounded key halves }
    {
        (halves.1, halves.0 ^ self.mix(halves.1, key))
    }
}
