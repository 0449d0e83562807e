//! Whether a run enciphers or deciphers, as a type.
ghost use Rattle.std.specs.Prelude.{◌≡◌};
ghost use Rattle.modes.specs.declared.way.Way.{Way as Ways};
ghost use Rattle.modes.specs.declared.way.Way.TheVariants.{Enciphering as Out, Deciphering as In};

use modes::way::Way;

/// Which way a run goes.
pub trait Heading {
    ghost heads: { Ways };

    fn way_of(&self) -> Way
        ensures { result ≡ heads };
}

/// The heading of an enciphering run.
#[derive(Clone, Copy, Debug)]
pub struct Sending;

/// The heading of a deciphering run.
#[derive(Clone, Copy, Debug)]
pub struct Receiving;

impl Heading for Sending {
    ghost heads = { Out };

    fn way_of(&self) -> Way {
        Way::Enciphering
    }
}

impl Heading for Receiving {
    ghost heads = { In };

    fn way_of(&self) -> Way {
        Way::Deciphering
    }
}
