//! The tags of a job's fields.
ghost use Rattle.std.specs.Prelude.{◌≡◌};
ghost use Rattle.job_format.specs.Tags.{tag_number};

/// What a field holds, with the byte that stands for it. A job has one field of each, in this order.
#[derive(Clone, Copy, PartialEq, Eq, Debug)]
pub enum Tag {
    Keys = 1,
    Code = 2,
    Direction = 3,
    InitialValues = 4,
    Data = 5,
}

impl From<Tag> for u8 {
    ghost from_gives = { λ tag number. number ≡ tag_number tag };

    fn from(tag: Tag) -> u8 {
        tag as u8
    }
}
