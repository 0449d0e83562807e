//! Lists of calls on a cartridge, what each call is due, and what holds of every list whose answers were due.
#![tactic(auto)]

ghost use Rattle.std.specs.Prelude.{◌≡◌};
ghost use Rattle.calls.specs.Limits.{unit_limit};
ghost use Rattle.calls.specs.Theorem.{Theorem};

/// The most units that one cartridge takes.
pub const UNIT_LIMIT: usize = 1_048_576;

// A constant has no contract that could name the theorem, so a function stands beside it.
/// The same, as proofs know it. Its contract also names the theorem over all lists of calls, by which no count passes it.
pub fn limit() -> usize
    ensures value { result ≡ unit_limit }
    ensures theorem { Theorem }
{
    UNIT_LIMIT
}
