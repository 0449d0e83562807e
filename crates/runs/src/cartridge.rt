//! Cartridges: an engine, and how many units it took.
pub mod starts;

ghost use Rattle.std.specs.Prelude.{◌≤◌};
ghost use Rattle.calls.specs.Limits.{unit_limit};

/// An engine with a count of the units that all its runs took. No call gives the engine out.
#[derive(Drop)]
pub struct Cartridge<E> {
    pub(crate) engine: E,
    pub(crate) count: usize,
    ghost within: { count ≤ unit_limit },
}
