//! Reading fields one after the other.
ghost use Rattle.std.specs.Prelude.{◌≡◌, true, is_err};
ghost use Rattle.job_format.specs.Reading.{field_at, found, end_at};

use super::super::tag::Tag;
use super::{Field, Reader};
use refusals::Refusal;

impl<'a> Reader<'a> {
    /// A reader at the first field of a job.
    pub fn new(job: &'a [u8]) -> Reader<'a>
        ensures { (result.job.now ≡ job.now) × (result.at ≡ 0) }
    {
        Reader { job, at: 0 }
    }

    /// The next field, which must have this tag; the reader then stands behind it. Refused, and then the reader stays: fewer
    /// bytes left than a tag and a length take, another tag, fewer bytes than the length says.
    pub fn field(&mut self, due: Tag) -> Result<Field<'a>, Refusal>
        ensures value { found result self.new.at ≡ field_at due self.old.job.now self.old.at }
        ensures same { self.new.job.now ≡ self.old.job.now }
        ensures still { is_err result ≡ true → self.new.at ≡ self.old.at }
    {
        let start = self.at;
        let [tag, high, low, rest @ ..] = &self.job[start..] else {
            return Err(Refusal::FieldTruncated(start));
        };
        if *tag != u8::from(due) {
            return Err(Refusal::FieldTag(start));
        }
        let length = usize::from(u16::from_be_bytes([*high, *low]));
        let bytes = rest.get(..length).ok_or(Refusal::FieldTruncated(start))?;
        self.at = start + 3 + length;
        Ok(Field { tag: due, bytes })
    }

    /// That nothing is left. Refused: bytes behind the last field.
    pub fn end(self) -> Result<(), Refusal>
        ensures { result ≡ end_at self.entry.job.now self.entry.at }
    {
        if self.at < self.job.len() {
            return Err(Refusal::TrailingBytes(self.at));
        }
        Ok(())
    }
}
