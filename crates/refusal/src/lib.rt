// Why a call is turned down: the reason, the layer that speaks, and a detail.
#![tactic(auto)]

ghost use Rattle.std.specs.Prelude.{◌≡◌, Some};
ghost use Rattle.refusal.specs.Refusals.{reason_number, layer_number};
ghost use Rattle.refusal.specs.Words.{reason_words, layer_name, fault_text};

use std::error::Error;
use std::fmt;

// The reasons, each with the number by which it is told.
#[derive(Clone, Copy, Debug, PartialEq, Eq, Hash)]
pub enum Reason {
    // the bank has no sled of this number
    BadSled = 2,
    // the catalogue has no file of this id
    UnknownFile = 3,
    // numbers that no code has
    BadCode = 4,
    // a file, a payload or a list of shares has a length out of its limits
    BadLength = 5,
    // the catalogue has a file of this id already
    KnownFile = 6,
    // a share is held under the id that the code does not give
    ForeignShare = 7,
    // no placement reaches the happiness that is asked for
    Unhappy = 8,
    // the sled is out, or some sled is
    SledOut = 9,
    // the slip is of another grid, or its sled is not out
    StrangeSlip = 10,
    // the catalogue has no place left
    CatalogueFull = 11,
    // too few different shares are on present sleds
    TooFew = 12,
    // the output buffer is shorter than what is due
    ShortBuffer = 13,
    // a stored symbol is outside the field, or a block's value is no byte
    BadSymbol = 14,
    // the share is not held
    Absent = 15,
    // the share is held already
    Held = 16,
    // the sled has no room
    NoRoom = 17,
    // the image breaks its layout
    BadImage = 18,
    // a share number out of its range, or one that stands twice
    BadShare = 19,
}

// The layers, lowest first, which is their order too.
#[derive(Clone, Copy, Debug, PartialEq, Eq, Hash, PartialOrd, Ord)]
pub enum Layer {
    Image = 0,
    Bank = 1,
    Code = 2,
    Grid = 3,
}

// A refusal as the calls return it.
#[derive(Clone, Copy, Debug, PartialEq, Eq, Hash)]
pub struct Fault {
    pub reason: Reason,
    pub layer: Layer,
    pub detail: usize,
}

// The number of a reason. As for a layer: a conversion, a number and words for each of the two types; a trait over both would have as many impls.
impl From<Reason> for u8 {
    ghost from_gives = { λ reason number. number ≡ reason_number reason };

    fn from(reason: Reason) -> u8 {
        reason as u8
    }
}

// The number of a layer.
impl From<Layer> for u8 {
    ghost from_gives = { λ layer number. number ≡ layer_number layer };

    fn from(layer: Layer) -> u8 {
        layer as u8
    }
}

impl Reason {
    // The number of the reason, which no other reason has.
    pub fn number(self) -> u8
        ensures value { result ≡ reason_number self }
        ensures apart { (other : Reason) → reason_number other ≡ result → other ≡ self }
    {
        u8::from(self)
    }
}

impl Layer {
    // The number of the layer, which no other layer has.
    pub fn number(self) -> u8
        ensures value { result ≡ layer_number self }
        ensures apart { (other : Layer) → layer_number other ≡ result → other ≡ self }
    {
        u8::from(self)
    }
}

// What a reason says.
impl fmt::Display for Reason {
    ghost output = { λ reason. Some (reason_words reason) };

    fn fmt<W: fmt::Write>(&self, f: &mut fmt::Formatter<W>) -> fmt::Result {
        f.write_str(match self {
            Reason::BadSled => "the bank has no sled of this number",
            Reason::UnknownFile => "the catalogue has no file of this id",
            Reason::BadCode => "no code has these numbers",
            Reason::BadLength =>
                "a file, a payload or a list of shares has a length out of its limits",
            Reason::KnownFile => "the catalogue has a file of this id already",
            Reason::ForeignShare => "a share is held under an id that the code does not give",
            Reason::Unhappy => "no placement reaches the happiness that is asked for",
            Reason::SledOut => "a sled is out",
            Reason::StrangeSlip => "the slip is of another grid, or its sled is not out",
            Reason::CatalogueFull => "the catalogue has no place left",
            Reason::TooFew => "too few different shares are on present sleds",
            Reason::ShortBuffer => "the output buffer is shorter than what is due",
            Reason::BadSymbol =>
                "a stored symbol is outside the field, or a block's value is no byte",
            Reason::Absent => "the share is not held",
            Reason::Held => "the share is held already",
            Reason::NoRoom => "the sled has no room",
            Reason::BadImage => "the image breaks its layout",
            Reason::BadShare => "a share number is out of its range, or stands twice",
        })
    }
}

// The name of a layer.
impl fmt::Display for Layer {
    ghost output = { λ layer. Some (layer_name layer) };

    fn fmt<W: fmt::Write>(&self, f: &mut fmt::Formatter<W>) -> fmt::Result {
        f.write_str(match self {
            Layer::Image => "image",
            Layer::Bank => "bank",
            Layer::Code => "code",
            Layer::Grid => "grid",
        })
    }
}

// A refusal in one line: the reason in words and by its number, the layer and the detail.
impl fmt::Display for Fault {
    ghost output = { λ fault. Some (fault_text fault) };

    fn fmt<W: fmt::Write>(&self, f: &mut fmt::Formatter<W>) -> fmt::Result {
        let Fault {
            reason,
            layer,
            detail,
        } = *self;
        let number = reason.number();
        write!(
            f,
            "{reason} (reason {number}, layer {layer}, detail {detail})"
        )
    }
}

impl Error for Fault {}
