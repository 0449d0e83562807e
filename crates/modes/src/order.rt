//! What a run is opened with.
pub mod checking;

ghost use Rattle.std.specs.Prelude.{◌≡◌, true};
ghost use Rattle.modes.specs.Values.{suits};

use super::mode::Mode;
use super::values::InitialValues;

/// A mode with the initial values that it asks for. Only checking an opening makes one, and one order may serve many runs.
#[derive(Clone, Copy)]
pub struct Order {
    mode: Mode,
    values: InitialValues,
    ghost suited: { suits mode values ≡ true },
}
