//! The eleven modes and the table of their figures.
ghost use Rattle.std.specs.Prelude.{◌≡◌, ◌^◌, ◌<◌, ◌≤◌, Some, ◌≢◌, nat_lt};
ghost use Rattle.std.specs.Fmt.{styled_text};
ghost use Rattle.modes.specs.Table.{row, mode_of_code, named, distance_of, memory_of, reach_of, CodesNameModes};
ghost use Rattle.modes.specs.Bits.{leftmost, shifted};
ghost use Rattle.modes.specs.Equations.{Equations};
ghost use Rattle.modes.specs.Laws.{UnitsGiveUnits, Prefix, Restoring, Recovery, Damage};
ghost use Rattle.modes.specs.Schedule.{Schedule};

use super::family::Family;
use super::reach::Reach;
use super::row::Row;
use super::way::Way;
use cipher::Block;
use refusals::Refusal;
use std::fmt;

/// A mode of operation. One that comes in several widths is a mode for each of them.
#[derive(Clone, Copy, PartialEq, Eq, Debug)]
pub enum Mode {
    Ecb,
    Cbc,
    CbcInterleaved,
    Cfb64,
    Cfb8,
    Cfb1,
    CfbPipelined64,
    CfbPipelined8,
    CfbPipelined1,
    Ofb,
    OfbInterleaved,
}

impl TryFrom<u8> for Mode {
    type Error = Refusal;

    ghost try_from_gives = { λ code answer. answer ≡ mode_of_code code };

    // The codes stand here and in the table of the rows: a search for the code there would be no plainer than a line for each.
    /// The mode that a code names.
    fn try_from(code: u8) -> Result<Self, Refusal> {
        match code {
            1 => Ok(Mode::Ecb),
            2 => Ok(Mode::Cbc),
            3 => Ok(Mode::CbcInterleaved),
            4 => Ok(Mode::Cfb64),
            5 => Ok(Mode::Cfb8),
            6 => Ok(Mode::Cfb1),
            7 => Ok(Mode::CfbPipelined64),
            8 => Ok(Mode::CfbPipelined8),
            9 => Ok(Mode::CfbPipelined1),
            10 => Ok(Mode::Ofb),
            11 => Ok(Mode::OfbInterleaved),
            _ => Err(Refusal::UnknownCode(code)),
        }
    }
}

impl Mode {
    fn row(self) -> Row
        ensures { result ≡ row self }
    {
        match self {
            Mode::Ecb => Row::new(1, Family::Codebook, 64, 0),
            Mode::Cbc => Row::new(2, Family::Chaining, 64, 1),
            Mode::CbcInterleaved => Row::new(3, Family::Chaining, 64, 3),
            Mode::Cfb64 => Row::new(4, Family::CipherFeedback, 64, 1),
            Mode::Cfb8 => Row::new(5, Family::CipherFeedback, 8, 1),
            Mode::Cfb1 => Row::new(6, Family::CipherFeedback, 1, 1),
            Mode::CfbPipelined64 => Row::new(7, Family::CipherFeedback, 64, 3),
            Mode::CfbPipelined8 => Row::new(8, Family::CipherFeedback, 8, 3),
            Mode::CfbPipelined1 => Row::new(9, Family::CipherFeedback, 1, 3),
            Mode::Ofb => Row::new(10, Family::OutputFeedback, 64, 1),
            Mode::OfbInterleaved => Row::new(11, Family::OutputFeedback, 64, 3),
        }
    }

    // A method, since `u8::from(mode)` would not say which of the mode's numbers it gives.
    /// The code that names the mode. Each mode has its own.
    pub fn code(self) -> u8
        ensures value { result ≡ (row self).code }
        ensures naming { CodesNameModes }
    {
        self.row().code
    }

    /// The usual short name, the same for every width.
    pub fn name(self) -> &'static str
        ensures { result.now ≡ named self }
    {
        match self {
            Mode::Ecb => "TECB",
            Mode::Cbc => "TCBC",
            Mode::CbcInterleaved => "TCBC-I",
            Mode::Cfb64 | Mode::Cfb8 | Mode::Cfb1 => "TCFB",
            Mode::CfbPipelined64 | Mode::CfbPipelined8 | Mode::CfbPipelined1 => "TCFB-P",
            Mode::Ofb => "TOFB",
            Mode::OfbInterleaved => "TOFB-I",
        }
    }

    /// The family, whose equations the mode obeys.
    pub fn family(self) -> Family
        ensures value { result ≡ (row self).family }
        ensures equations { Equations }
    {
        self.row().family
    }

    /// How many bits a unit has. A list of units gives as many units, and a longer list begins with what a shorter one gives.
    pub fn width(self) -> usize
        ensures value { result ≡ (row self).width }
        ensures within { (0 < result) × (result ≤ 64) }
        ensures units { UnitsGiveUnits }
        ensures prefix { Prefix }
    {
        self.row().width
    }

    /// How many initial values the mode begins with. With the same ones and the same cipher, deciphering gives back what was
    /// enciphered.
    pub fn initial_values(self) -> usize
        ensures value { result ≡ (row self).values }
        ensures within { result ≤ 3 }
        ensures restoring { Restoring }
    {
        self.row().values
    }

    /// How far back the result lies that a unit must wait for; none where a unit waits for no result. A unit enters an engine in
    /// the first cycle that its predecessor and this result allow.
    pub fn distance(self, way: Way) -> Option<usize>
        ensures value { result ≡ distance_of self way }
        ensures proper { result ≢ Some 0 }
        ensures schedule { Schedule }
    {
        self.row().distance(way)
    }

    /// How many ciphered units before its own a plain unit rests on, so that a receiver recovers once they arrived; none for the
    /// output feedback modes, where a plain unit rests on its place.
    pub fn memory(self) -> Option<usize>
        ensures value { result ≡ memory_of self }
        ensures recovery { Recovery }
    {
        self.row().memory()
    }

    /// Which plain units behind an altered ciphered unit it can make wrong, besides its own.
    pub fn reach(self) -> Option<Reach>
        ensures value { result ≡ reach_of self }
        ensures damage { Damage }
    {
        self.row().reach()
    }

    /// Whether a number has no more bits than a unit.
    pub fn admits(self, unit: u64) -> bool
        ensures { result ≡ nat_lt unit (2 ^ (row self).width) }
    {
        let width = self.width();
        width >= 64 || unit >> width == 0
    }

    /// The leftmost bits of a block, as many as a unit has.
    pub fn leftmost(self, block: Block) -> u64
        ensures { result ≡ leftmost (row self).width block }
    {
        block >> (64 - self.width())
    }

    /// A feedback register with as many of its first bits dropped as a unit has, and a unit appended.
    pub fn shifted(self, register: Block, unit: u64) -> Block
        ensures { result ≡ shifted (row self).width register unit }
    {
        let width = self.width();
        if width < 64 {
            (register << width).wrapping_add(unit)
        } else {
            unit
        }
    }
}

/// The usual short name.
impl fmt::Display for Mode {
    ghost output = { λ mode. Some (named mode) };

    ghost styled_output = { λ mode style. Some (styled_text style (named mode)) };

    fn fmt<W: fmt::Write>(&self, f: &mut fmt::Formatter<W>) -> fmt::Result {
        f.pad(self.name())
    }
}
