//! Bits of a word that change places.
ghost use Rattle.std.specs.Prelude.{◌≡◌, ◌<◌, ◌≤◌, true, length};
ghost use Rattle.cipher.specs.Words.{select as selected, places};
ghost use Rattle.cipher.specs.Exchanges.{exchanged};

/// The bits of a word of `width` bits at the places that the table names, as one word.
pub(super) fn select(width: u32, table: &[u8], word: u64) -> u64
    requires width { width ≤ 64 }
    requires size { length table.now ≤ 64 }
    requires places { places width table.now ≡ true }
    ensures { result ≡ selected width table.now word }
{
    let mut bits: u64 = 0;
    for place in table {
        bits = (bits << 1) | ((word >> (width - *place as u32)) & 1);
    }
    bits
}

/// The bits that the mask names change places with those `distance` above them.
pub(super) fn exchange(word: u64, distance: u32, mask: u64) -> u64
    requires { distance < 64 }
    ensures { result ≡ exchanged distance mask word }
{
    let differing = ((word >> distance) ^ word) & mask;
    word ^ differing ^ (differing << distance)
}
