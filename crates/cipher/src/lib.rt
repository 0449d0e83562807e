//! Block ciphers: what one means, the DEA by its published tables, and the triple of any three ciphers.
#![tactic(auto)]

pub mod bytes;
pub mod dea;
pub mod triple;

ghost use Rattle.std.specs.Prelude.{◌≡◌, ℕ};
ghost use Rattle.cipher.specs.Undoing.{Undo};

/// A block: 64 bits, of which bit 1 is the highest.
pub type Block = u64;

/// A block cipher means two functions on blocks that undo each other. Using it changes nothing and never fails.
pub trait Cipher {
    ghost forward: { Self → ℕ → ℕ };

    ghost inverse: { Self → ℕ → ℕ };

    fn forward(&self, block: Block) -> Block
        ensures { result ≡ forward self.now block };

    fn inverse(&self, block: Block) -> Block
        ensures { result ≡ inverse self.now block };

    ghost undo: { (c : Self) → Undo (forward c) (inverse c) };
}
