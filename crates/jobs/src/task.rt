//! What a job asks for, checked.
ghost use Rattle.std.specs.Prelude.{◌≡◌, ◌≤◌, length, IfOk};
ghost use Rattle.modes.specs.Table.{with_code};
ghost use Rattle.job_format.specs.Fields.{parts_in};
ghost use Rattle.jobs.specs.Checking.{data_checked};
ghost use Rattle.jobs.specs.Asking.{only_byte_of, way_of_direction, opened_for, opening_of, order_and_way, task_of, task_in};

use super::DATA_LIMIT;
use super::key_set::KeySet;
use super::passage::Passage;
use job_format::fields::Fields;
use job_format::tag::Tag;
use job_format::units::reading::first_too_wide;
use job_format::units::unit_size;
use modes::mode::Mode;
use modes::order::Order;
use modes::way::Way;
use refusals::Refusal;

/// Loaded keys, and what goes through the run over them.
#[derive(Drop)]
pub(crate) struct Task<'a> {
    pub(crate) keys: KeySet,
    pub(crate) passage: Passage<'a>,
}

impl<'a> Task<'a> {
    /// What the five fields ask for, with so much room for the output.
    #[tactic(auto, using(crate::proofs::Checked::checked_alone, crate::proofs::Checked::checked_within))]
    pub(crate) fn check(fields: Fields<'a>, room: usize) -> Result<Task<'a>, Refusal>
        ensures value { task_in result ≡ task_of (parts_in fields.entry) room }
        ensures room { IfOk result (λ t. length t.passage.«data».now ≤ room) }
    {
        let keys = KeySet::load(fields.keys)?;
        let (order, way) = check_opening(fields)?;
        check_data(order.mode(), fields.data, room)?;
        let passage = Passage {
            order,
            way,
            data: fields.data,
        };
        Ok(Task { keys, passage })
    }
}

/// The one byte of a field.
fn only_byte(tag: Tag, field: &[u8]) -> Result<u8, Refusal>
    ensures { result ≡ only_byte_of tag field.now }
{
    match field {
        [byte] => Ok(*byte),
        _ => Err(Refusal::FieldLength(tag.into())),
    }
}

/// The way that a direction names.
// No `TryFrom`: the way belongs to the crate `modes`, which knows nothing of a job's numbers, and an impl here would be of a foreign trait
// for a foreign type.
fn way_named(direction: u8) -> Result<Way, Refusal>
    ensures { result ≡ way_of_direction direction }
{
    match direction {
        1 => Ok(Way::Enciphering),
        2 => Ok(Way::Deciphering),
        _ => Err(Refusal::UnknownDirection(direction)),
    }
}

/// An order and a way. The code is judged first, the initial values last.
fn open(code: u8, direction: u8, initial_values: &[u8]) -> Result<(Order, Way), Refusal>
    ensures { order_and_way result ≡ opened_for (with_code code) code direction initial_values.now }
{
    Mode::try_from(code)?;
    let way = way_named(direction)?;
    let order = Order::check(code, initial_values)?;
    Ok((order, way))
}

/// The order and the way that the fields ask for.
fn check_opening(fields: Fields<'_>) -> Result<(Order, Way), Refusal>
    ensures { order_and_way result ≡ opening_of (parts_in fields.entry) }
{
    let code = only_byte(Tag::Code, fields.code)?;
    let direction = only_byte(Tag::Direction, fields.direction)?;
    open(code, direction, fields.initial_values)
}

/// That data is whole units of the mode, none too wide, and that there is room for as many bytes.
#[tactic(auto, using(crate::proofs::Checked::refused_wide, crate::proofs::Checked::refused_room, crate::proofs::Checked::passed))]
fn check_data(mode: Mode, data: &[u8], room: usize) -> Result<(), Refusal>
    ensures { result ≡ data_checked mode «data».now room }
{
    let length = data.len();
    if length > DATA_LIMIT {
        return Err(Refusal::DataLength(length));
    }
    if length % unit_size(mode) != 0 {
        return Err(Refusal::PartialUnit(length));
    }
    if let Some(index) = first_too_wide(mode, data) {
        return Err(Refusal::UnitWidth(index));
    }
    if room < length {
        return Err(Refusal::OutputLength(length));
    }
    Ok(())
}
