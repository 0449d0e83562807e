//! Bytes in hexadecimal.
ghost use Rattle.std.specs.Prelude.{◌≡◌, IfOk, string_bytes};
ghost use Rattle.job_text.specs.Texts.{hexadecimal_of};

use std::alloc::{AllocError, Global};

/// Two capital digits for each byte, the high one first; an error only for want of memory.
#[tactic(auto, using(crate::proofs::Told::encoded))]
pub fn hexadecimal(heap: Global, bytes: &[u8]) -> Result<String, AllocError>
    ensures { IfOk result (λ s. string_bytes s ≡ hexadecimal_of bytes.now) }
{
    hex::encode_upper(heap, bytes)
}
