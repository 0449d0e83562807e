//! What goes through a run.
ghost use Rattle.std.specs.Prelude.{◌≡◌, length, true, is_ok};
ghost use Rattle.jobs.specs.Checking.{data_checked};

use modes::order::Order;
use modes::way::Way;

// The output is not in it: it is lent to be written, and a passage is copied.
/// An order and a way for a run, and the data that goes through it, which is checked for the order's mode.
#[derive(Clone, Copy)]
pub(crate) struct Passage<'a> {
    pub(crate) order: Order,
    pub(crate) way: Way,
    pub(crate) data: &'a [u8],
    ghost checked: { is_ok (data_checked order.mode «data».now (length «data».now)) ≡ true },
}
