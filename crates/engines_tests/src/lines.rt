//! A line over three ciphers of one kind, where no type tells the first from the third.
ghost use Rattle.std.specs.Prelude.{◌≡◌};
ghost use Rattle.cipher.specs.Triples.{in_row};
ghost use Rattle.engines.specs.Lines.{line_machine};
ghost use Rattle.engines.specs.Machines.{resting};

use cipher::Cipher;
use engines::line::Line;

// By a rule of the project an edit swaps the ciphers, and only where all three are of one kind does a type allow that.
/// A new line. The ciphers are told in the order of the forward direction.
pub fn line_of<C: Cipher>(first: C, second: C, third: C) -> Line<C, C, C>
    ensures { line_machine C.Cipher C.Cipher C.Cipher result ≡ resting (in_row (C.Cipher.forward first) (C.Cipher.inverse second) (C.Cipher.forward third)) (in_row (C.Cipher.inverse third) (C.Cipher.forward second) (C.Cipher.inverse first)) 3 }
{
    Line::new(first, second, third)
}
