//! The five fields of a job.
ghost use Rattle.std.specs.Prelude.{◌≡◌};
ghost use Rattle.job_format.specs.Fields.{fields_of, parts_of, Format};

use super::reader::Reader;
use super::tag::Tag;
use refusals::Refusal;

/// The five fields of a job, each as its part of the job's bytes.
#[derive(Clone, Copy)]
pub struct Fields<'a> {
    pub keys: &'a [u8],
    pub code: &'a [u8],
    pub direction: &'a [u8],
    pub initial_values: &'a [u8],
    pub data: &'a [u8],
}

impl<'a> Fields<'a> {
    /// Reads a job's five fields, behind which nothing may be left. What is read is what was written, and nothing else is read.
    #[tactic(auto, using(crate::proofs::JobBytes::format))]
    pub fn read(job: &'a [u8]) -> Result<Fields<'a>, Refusal>
        ensures value { parts_of result ≡ fields_of job.now }
        ensures format { Format }
    {
        let mut reader = Reader::new(job);
        let fields = Fields {
            keys: reader.field(Tag::Keys)?.bytes,
            code: reader.field(Tag::Code)?.bytes,
            direction: reader.field(Tag::Direction)?.bytes,
            initial_values: reader.field(Tag::InitialValues)?.bytes,
            data: reader.field(Tag::Data)?.bytes,
        };
        reader.end()?;
        Ok(fields)
    }
}
