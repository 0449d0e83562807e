//! A reader that walks the caller's bytes and copies none of them.
pub mod reading;

ghost use Rattle.std.specs.Prelude.{◌≤◌, length};

use super::tag::Tag;

/// A field: its tag and its part of the job's bytes.
#[derive(Clone, Copy)]
pub struct Field<'a> {
    pub tag: Tag,
    pub bytes: &'a [u8],
}

/// The bytes of a job, and the offset at which the next field starts.
#[derive(Drop)]
pub struct Reader<'a> {
    job: &'a [u8],
    at: usize,
    ghost within: { at ≤ length job.now },
}
