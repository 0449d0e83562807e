//! Worked values of the definitions, proved.
ghost use Rattle.std.specs.Prelude.{◌≡◌, length};
ghost use Rattle.cipher.specs.WorkedValues.{Hold};
ghost use Rattle.modes.specs.Worked.{worked};

/// How many worked values the table of them has. Each is what the definitions compute.
pub fn worked_values() -> usize
    ensures value { result ≡ length worked }
    ensures hold { Hold worked }
{
    5
}
