//! The keys of a job.
ghost use Rattle.std.specs.Prelude.{◌≡◌, length, replicate};
ghost use Rattle.jobs.specs.Keys.{keys_loaded, words_in};

use keys::{KeyBundle, SingleKey};
use refusals::Refusal;

/// One loaded key, or three.
#[derive(Drop)]
pub(crate) enum KeySet {
    Single(SingleKey),
    Bundle(KeyBundle),
}

impl KeySet {
    /// Loads the key field of a job from a duplicate of it, since a job's bytes stay as they are.
    pub(crate) fn load(field: &[u8]) -> Result<KeySet, Refusal>
        ensures { words_in result ≡ keys_loaded field.now }
    {
        match field.len() {
            8 => load_from(field, &mut [0; 8]),
            24 => load_from(field, &mut [0; 24]),
            length => Err(Refusal::KeyLength(length)),
        }
    }
}

/// Copies the key field into the duplicate and loads it from there. The duplicate is zero afterwards, loaded or refused.
// The duplicate is a parameter, so that a contract says that it is zero then. Its length is asked again, since a function for each length
// would say the same twice.
fn load_from(field: &[u8], duplicate: &mut [u8]) -> Result<KeySet, Refusal>
    requires { length duplicate.old ≡ length field.now }
    ensures value { words_in result ≡ keys_loaded field.now }
    ensures zeroed { duplicate.new ≡ replicate (length duplicate.old) 0 }
{
    duplicate.copy_from_slice(field);
    if duplicate.len() == 8 {
        Ok(KeySet::Single(SingleKey::load(duplicate)?))
    } else {
        Ok(KeySet::Bundle(KeyBundle::load(duplicate)?))
    }
}
