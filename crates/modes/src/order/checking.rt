//! Checking an opening, and what an order tells.
ghost use Rattle.std.specs.Prelude.{◌≡◌};
ghost use Rattle.modes.specs.Values.{listed, Begins};
ghost use Rattle.modes.specs.Orders.{answered, checked, OrdersAreAnswers, SameOpeningSameOrder};

use super::super::mode::Mode;
use super::super::values::InitialValues;
use super::Order;
use refusals::Refusal;

impl Order {
    // A code and no mode: by a rule of the project an opening is a code and bytes, and the refusal of the code comes first.
    /// The order for a code and the bytes of the initial values. Refused: a code that names no mode, then a length of the bytes
    /// other than the mode's.
    pub fn check(code: u8, initial_values: &[u8]) -> Result<Order, Refusal>
        ensures { answered result ≡ checked code initial_values.now }
    {
        let mode = Mode::try_from(code)?;
        // A chain of filter, ok_or and ? has as many lines, and its test stands away from the order that needs it.
        match InitialValues::read(initial_values) {
            Some(values) if values.count() == mode.initial_values() => Ok(Order { mode, values }),
            _ => Err(Refusal::InitialValueLength(initial_values.len())),
        }
    }

    /// The mode.
    pub fn mode(self) -> Mode
        ensures value { result ≡ self.mode }
        ensures law { OrdersAreAnswers }
    {
        self.mode
    }

    /// The initial values, as many as the mode asks for.
    pub fn initial_values(self) -> InitialValues
        ensures value { result ≡ self.values }
        ensures suited { Begins self.mode (listed result) }
        ensures law { SameOpeningSameOrder }
    {
        self.values
    }
}
