//! The four families of modes. Each has one set of equations, over the width of a unit and the distance.

#[derive(Clone, Copy, PartialEq, Eq, Debug)]
pub enum Family {
    /// Each block is ciphered alone.
    Codebook,
    /// Each plain block is joined with an earlier ciphered one, then ciphered.
    Chaining,
    /// The cipher makes a key stream from earlier ciphered units.
    CipherFeedback,
    /// The cipher makes a key stream from its own earlier output.
    OutputFeedback,
}
