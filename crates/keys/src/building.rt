//! Ciphers from loaded keys. A key is used up by it, and nothing is refused.
ghost use Rattle.std.specs.Prelude.{◌≡◌};
ghost use Rattle.cipher.specs.Dea.{dea as dea_of, dea_inverse, triple_dea, triple_dea_inverse};
ghost use Rattle.cipher.specs.Functions.{forward_of, inverse_of, triple_forward_of, triple_inverse_of};

use crate::{KeyBundle, SingleKey};
use cipher::dea::Dea;
use cipher::triple::Triple;

// Methods, and no `From`: a bundle becomes one cipher or three, and a single key's is named as the bundle's.
impl SingleKey {
    /// Single DEA under this key.
    pub fn into_cipher(self) -> Dea
        ensures forward { forward_of result ≡ dea_of self.word }
        ensures inverse { inverse_of result ≡ dea_inverse self.word }
    {
        Dea::new(self.word)
    }
}

impl KeyBundle {
    /// Single DEA under each of the three keys, first to third.
    pub fn into_ciphers(self) -> (Dea, Dea, Dea)
        ensures forward { (forward_of result.0 ≡ dea_of self.first.word) × (forward_of result.1 ≡ dea_of self.second.word) × (forward_of result.2 ≡ dea_of self.third.word) }
        ensures inverse { (inverse_of result.0 ≡ dea_inverse self.first.word) × (inverse_of result.1 ≡ dea_inverse self.second.word) × (inverse_of result.2 ≡ dea_inverse self.third.word) }
    {
        let first = self.first.into_cipher();
        let second = self.second.into_cipher();
        let third = self.third.into_cipher();
        (first, second, third)
    }

    /// Triple DEA under these three keys.
    pub fn into_cipher(self) -> Triple<Dea, Dea, Dea>
        ensures forward { triple_forward_of result ≡ triple_dea self.first.word self.second.word self.third.word }
        ensures inverse { triple_inverse_of result ≡ triple_dea_inverse self.first.word self.second.word self.third.word }
    {
        let (first, second, third) = self.into_ciphers();
        Triple::new(first, second, third)
    }
}
