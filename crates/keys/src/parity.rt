//! Odd parity, byte by byte.
ghost use Rattle.std.specs.Prelude.{◌≡◌};
ghost use Rattle.keys.specs.Parity.{first_even};

/// The index of the first byte with an even count of ones.
pub(crate) fn first_even_byte(bytes: &[u8]) -> Option<usize>
    ensures { result ≡ first_even 0 bytes.now }
{
    bytes.iter().position(|byte| byte.count_ones() % 2 == 0)
}
