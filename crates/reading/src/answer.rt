// What the reader answers: a value, or why and where a text is refused.
ghost use Rattle.std.specs.Prelude.{◌≡◌, ◌^◌, ◌<◌, ◌≤◌};
ghost use Rattle.limbs.specs.Value.{value};
ghost use Rattle.limbs.specs.Count.{Counts};
ghost use Rattle.meaning.specs.Refusals.{number_of};
ghost use Rattle.meaning.specs.Decimal as decimal;
ghost use Rattle.meaning.specs.Decimal.{InRange};
ghost use Rattle.layout.specs.Fields.{said, digits_of};
ghost use Rattle.layout.specs.Unpacked.{meant};

use layout::{Fields, Kind, Unpacked};
use limbs::wide::ExponentError;

// Document 01, 'Numbers of the refusals'.
#[derive(Clone, Copy, Debug, PartialEq, Eq)]
pub enum Refusal {
    EmptyExponent = 1,
    InvalidExponent = 2,
    InvalidCoefficient = 3,
    Overflow = 4,
    Underflow = 5,
    InexactRounding = 6,
    Unparseable = 7,
}

impl Refusal {
    ghost use Rattle.reading.specs.Told.{named};

    #[tactic(auto, unfolding(meaning::specs::Refusals::number_of))]
    pub fn number(self) -> u32
        ensures { result ≡ number_of (named self) }
    {
        self as u32
    }

    // The same, at an offset in the text.
    pub fn at(self, place: usize) -> Refused
        ensures refusal { result.refusal ≡ self }
        ensures place { result.place ≡ place }
    {
        Refused {
            refusal: self,
            place,
        }
    }
}

impl From<ExponentError> for Refusal {
    ghost use Rattle.reading.specs.Told.{refusal_of};

    ghost from_gives = { λ e r. r ≡ refusal_of e };

    fn from(e: ExponentError) -> Self {
        match e {
            ExponentError::Invalid => Refusal::InvalidExponent,
            ExponentError::Underflow => Refusal::Underflow,
        }
    }
}

// Why a text is refused, and where, as an offset in the text.
#[derive(Clone, Copy, Debug, PartialEq, Eq)]
pub struct Refused {
    pub refusal: Refusal,
    pub place: usize,
}

// A value.
#[tactic(auto, unfolding(layout::specs::Unpacked::meant))]
fn unpacked(fields: Fields, digits: usize) -> Unpacked
    requires ranged { InRange (said fields) }
    requires counted { digits ≡ digits_of (said fields) }
    ensures { meant result ≡ said fields }
{
    Unpacked { fields, digits }
}

// Not a number.
#[tactic(auto, unfolding(layout::specs::Fields::digits_of))]
pub fn nan(negative: bool, signalling: bool) -> Unpacked
    ensures { meant result ≡ decimal.Decimal.nan negative signalling }
{
    unpacked(layout::special(negative, Kind::Nan { signalling }), 1)
}

// Infinity, with its sign.
#[tactic(auto, unfolding(layout::specs::Fields::digits_of))]
pub fn infinity(negative: bool) -> Unpacked
    ensures { meant result ≡ decimal.Decimal.infinity negative }
{
    unpacked(layout::special(negative, Kind::Infinity), 1)
}

// A number, by its field, its coefficient and how many digits that has.
#[tactic(auto, using(limbs::proofs::Counting::counts_decimal), unfolding(layout::specs::Fields::digits_of))]
pub(crate) fn finite(negative: bool, field: u32, c: [u32; 4], digits: usize) -> Unpacked
    requires field { field ≤ 12287 }
    requires coefficient { value c < 10 ^ 34 }
    requires digits { Counts (value c) digits }
    ensures { meant result ≡ decimal.Decimal.finite negative field (value c) }
{
    unpacked(layout::finite(negative, field, c), digits)
}
