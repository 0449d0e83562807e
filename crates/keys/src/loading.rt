//! Loading: key bytes are checked and taken over, and the lent bytes are zero afterwards.
ghost use Rattle.std.specs.Prelude.{◌≡◌, ◌+◌, ◌≤◌, length, replicate, None};
ghost use Rattle.cipher.specs.Bytes.{block_at};
ghost use Rattle.keys.specs.Parity.{first_even};
ghost use Rattle.keys.specs.Loading.{checked, single_loaded, bundle_loaded, word_of, words_of};

use crate::guard::Zeroing;
use crate::parity::first_even_byte;
use crate::{KeyBundle, SingleKey};
use cipher::bytes::block_at;
use refusals::Refusal;

// The two loads differ in what reads the bytes; a generic function over that has more lines of clauses than it saves. Each says that
// the lent bytes are zero then, since no type can say it of bytes that the caller keeps.
impl SingleKey {
    /// Loads one key from its eight bytes.
    pub fn load(key: &mut [u8]) -> Result<SingleKey, Refusal>
        ensures value { word_of result ≡ single_loaded key.old }
        ensures zeroed { key.new ≡ replicate (length key.old) 0 }
    {
        let held = Zeroing(key);
        read_single(held.0)
    }
}

impl KeyBundle {
    /// Loads three keys from their 24 bytes.
    pub fn load(keys: &mut [u8]) -> Result<KeyBundle, Refusal>
        ensures value { words_of result ≡ bundle_loaded keys.old }
        ensures zeroed { keys.new ≡ replicate (length keys.old) 0 }
    {
        let held = Zeroing(keys);
        read_bundle(held.0)
    }
}

/// The length and the parity of key bytes.
fn check(bytes: &[u8], wanted: usize) -> Result<(), Refusal>
    ensures { result ≡ checked wanted bytes.now }
{
    if bytes.len() != wanted {
        return Err(Refusal::KeyLength(bytes.len()));
    }
    if let Some(index) = first_even_byte(bytes) {
        return Err(Refusal::KeyParity(index));
    }
    Ok(())
}

/// The key whose eight bytes stand from `at` on.
fn key_at(bytes: &[u8], at: usize) -> SingleKey
    requires within { at + 8 ≤ length bytes.now }
    requires odd { first_even 0 bytes.now ≡ None }
    ensures { result.word ≡ block_at bytes.now at }
{
    let word = block_at(bytes, at).unwrap();
    SingleKey { word }
}

fn read_single(bytes: &[u8]) -> Result<SingleKey, Refusal>
    ensures { word_of result ≡ single_loaded bytes.now }
{
    check(bytes, 8)?;
    Ok(key_at(bytes, 0))
}

fn read_bundle(bytes: &[u8]) -> Result<KeyBundle, Refusal>
    ensures { words_of result ≡ bundle_loaded bytes.now }
{
    check(bytes, 24)?;
    let first = key_at(bytes, 0);
    let second = key_at(bytes, 8);
    let third = key_at(bytes, 16);
    if first.word == second.word && second.word == third.word {
        return Err(Refusal::SameKeys);
    }
    Ok(KeyBundle {
        first,
        second,
        third,
    })
}
