//! What tests and measurements call from C: triple DEA over blocks in place, and what the speed of a line is compared with. No product code rests on this crate.
#![tactic(auto)]

pub mod speeds;

ghost use Rattle.std.specs.Prelude.{◌≡◌, ℕ, map, length, replicate};
ghost use Rattle.test_exports.specs.Exports.{answered, blocks_after};

use cipher::{Block, Cipher};
use keys::KeyBundle;

// Puts in the place of each block what is made of it.
fn replace_each<F: Fn(Block) -> Block>(blocks: &mut [Block], made_of: F)
    requires { F.IsAlwaysCallable made_of }
    ensures { (G : ℕ → ℕ) → ((block made : ℕ) → F.post made_of block made → made ≡ G block) → blocks.new ≡ map G blocks.old }
{
    for block in blocks.iter_mut() {
        *block = made_of(*block);
    }
}

// Numbers for the direction and for the refusal, since C calls this. That the key bytes are zero then concerns the caller's bytes, which no
// type holds.
/// Turns every block under the bundle: forward where `inverse` is 0, else inverse. Answers 0, or the number of the refusal, and then leaves the blocks.
#[unsafe(no_mangle)]
pub extern "C" fn hervodig_blocks(keys: &mut [u8], inverse: u8, blocks: &mut [Block]) -> u8
    ensures answer { result ≡ answered keys.old }
    ensures after { blocks.new ≡ blocks_after inverse keys.old blocks.old }
    ensures zeroed { keys.new ≡ replicate (length keys.old) 0 }
{
    match KeyBundle::load(keys) {
        Ok(bundle) => {
            let triple = bundle.into_cipher();
            if inverse == 0 {
                replace_each(blocks, |block| triple.forward(block));
            } else {
                replace_each(blocks, |block| triple.inverse(block));
            }
            0
        }
        Err(refusal) => refusal.number(),
    }
}
