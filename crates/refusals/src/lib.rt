//! Why a call is refused. Every layer refuses by this one type: a variant for each reason, with the
//! number and the detail that the user is told.
#![tactic(auto)]

ghost use Rattle.std.specs.Prelude.{◌≡◌};
ghost use Rattle.refusals.specs.Refusals.{number_of, detail_of};

use std::error::Error;
use std::fmt;

#[derive(Clone, Copy, PartialEq, Eq, Debug)]
pub enum Refusal {
    /// Key bytes of another length than the key's. Holds the length.
    KeyLength(usize),
    /// A key byte with an even count of ones. Holds the index of the first, from 0.
    KeyParity(usize),
    /// A bundle whose three keys are the same.
    SameKeys,
    /// A code that names no mode. Holds the code.
    UnknownCode(u8),
    /// Initial values of another length than the mode's. Holds the length.
    InitialValueLength(usize),
    /// An output list shorter than what may have to be written. Holds the length wanted.
    OutputLength(usize),
    /// A unit that is too wide for the mode. Holds the index of the first, from 0.
    UnitWidth(usize),
    /// More units than the cartridge still takes. Holds how many it takes.
    UnitLimit(usize),
    /// A field of a job with fewer bytes left than it needs. Holds the offset at which it starts.
    FieldTruncated(usize),
    /// Another tag than the one that is due. Holds the offset at which the field starts.
    FieldTag(usize),
    /// Bytes behind the last field of a job. Holds the offset of the first.
    TrailingBytes(usize),
    /// A code or a direction that is not one byte. Holds the tag of the first such field.
    FieldLength(u8),
    /// A direction that is none. Holds it.
    UnknownDirection(u8),
    /// More data than a job takes. Holds its length.
    DataLength(usize),
    /// Data that is not whole units. Holds its length.
    PartialUnit(usize),
}

// Methods, since a refusal has two numbers and a conversion would not say which it gives.
impl Refusal {
    /// The number that names the reason.
    pub fn number(self) -> u8
        ensures { result ≡ number_of self }
    {
        match self {
            Refusal::KeyLength(_) => 1,
            Refusal::KeyParity(_) => 2,
            Refusal::SameKeys => 3,
            Refusal::UnknownCode(_) => 4,
            Refusal::InitialValueLength(_) => 5,
            Refusal::OutputLength(_) => 6,
            Refusal::UnitWidth(_) => 7,
            Refusal::UnitLimit(_) => 8,
            Refusal::FieldTruncated(_) => 9,
            Refusal::FieldTag(_) => 10,
            Refusal::TrailingBytes(_) => 11,
            Refusal::FieldLength(_) => 12,
            Refusal::UnknownDirection(_) => 13,
            Refusal::DataLength(_) => 14,
            Refusal::PartialUnit(_) => 15,
        }
    }

    /// The one number that goes with the reason.
    pub fn detail(self) -> u64
        ensures { result ≡ detail_of self }
    {
        match self {
            Refusal::SameKeys => 0,
            Refusal::UnknownCode(byte)
            | Refusal::FieldLength(byte)
            | Refusal::UnknownDirection(byte) => u64::from(byte),
            Refusal::KeyLength(number)
            | Refusal::KeyParity(number)
            | Refusal::InitialValueLength(number)
            | Refusal::OutputLength(number)
            | Refusal::UnitWidth(number)
            | Refusal::UnitLimit(number)
            | Refusal::FieldTruncated(number)
            | Refusal::FieldTag(number)
            | Refusal::TrailingBytes(number)
            | Refusal::DataLength(number)
            | Refusal::PartialUnit(number) => number as u64,
        }
    }
}

impl fmt::Display for Refusal {
    fn fmt<W: fmt::Write>(&self, f: &mut fmt::Formatter<W>) -> fmt::Result {
        match *self {
            Refusal::KeyLength(length) => write!(f, "a key cannot have {length} bytes"),
            Refusal::KeyParity(index) => write!(f, "key byte {index} has an even count of ones"),
            Refusal::SameKeys => write!(f, "the three keys of the bundle are the same"),
            Refusal::UnknownCode(code) => write!(f, "no mode has the code {code}"),
            Refusal::InitialValueLength(length) => {
                write!(f, "the mode's initial values cannot have {length} bytes")
            }
            Refusal::OutputLength(length) => write!(f, "the output list needs {length} places"),
            Refusal::UnitWidth(index) => write!(
                f,
                "the unit at index {index} is too wide for the mode"
            ),
            Refusal::UnitLimit(left) => write!(f, "the cartridge takes only {left} units more"),
            Refusal::FieldTruncated(offset) => {
                write!(f, "the field at offset {offset} is cut short")
            }
            Refusal::FieldTag(offset) => write!(f, "the field at offset {offset} has another tag"),
            Refusal::TrailingBytes(offset) => {
                write!(
                    f,
                    "from offset {offset} on there are bytes that belong to no field"
                )
            }
            Refusal::FieldLength(tag) => write!(f, "the field with tag {tag} must be one byte"),
            Refusal::UnknownDirection(direction) => write!(f, "no direction is {direction}"),
            Refusal::DataLength(length) => write!(f, "a job cannot have {length} bytes of data"),
            Refusal::PartialUnit(length) => write!(f, "{length} bytes of data are not whole units"),
        }
    }
}

impl Error for Refusal {}
