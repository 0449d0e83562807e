//! The S boxes and P as one table, computed from the S boxes.
ghost use Rattle.std.specs.Prelude.{◌≡◌, ℕ, ◌/◌, ◌%◌, ◌<◌, slice_index};
ghost use Rattle.cipher.specs.Rounds.{s_box};
ghost use Rattle.cipher.specs.Combined.{permuted_answer, combined};

use super::tables::{P, S_BOXES};
use super::words::select;
use std::array;

/// What box `number`, from 0, makes of six bits.
fn substitute(number: usize, six: usize) -> u8
    requires number { number < 8 }
    requires six { six < 64 }
    ensures value { result ≡ s_box number six }
    ensures four { result < 16 }
{
    S_BOXES[number * 64 + (six / 32 * 2 + six % 2) * 16 + six / 2 % 16]
}

/// Four bits of box `number` in their place among the 32, permuted.
fn permute_answer(number: usize, four: usize) -> u32
    requires number { number < 8 }
    requires four { four < 16 }
    ensures { result ≡ permuted_answer number four }
{
    select(32, &P, (four as u64) << (28 - 4 * number)) as u32
}

/// Every answer of every box, sixteen to a box.
fn permuted_answers() -> [u32; 128]
    ensures { (n : ℕ) → n < 128 → slice_index result n ≡ permuted_answer (n / 16) (n % 16) }
{
    array::from_fn(|n| permute_answer(n / 16, n % 16))
}

pub(super) fn combine() -> [u32; 512]
    ensures { result ≡ combined }
{
    let answers = permuted_answers();
    array::from_fn(|n| answers[n / 64 * 16 + substitute(n / 64, n % 64) as usize])
}
