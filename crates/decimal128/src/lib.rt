// Decimal128: decimal text to 16 stored bytes and back, and how two values stand. The public operations and nothing else; none
// asks anything of its caller. That of two texts, `larger`, is in a crate of its own.
#![tactic(auto)]

ghost use Rattle.std.specs.Prelude.{◌≡◌};
ghost use Rattle.decimal128.specs.Operations.{FromBytesAllows, BytesAllows, ParseAllows, ReadAllows, WriteAllows, DebugAllows, RecordAllows, CompareAllows, given, order_beside};

use reading::answer::Refused;
use std::cmp::Ordering;
use writing::NoRoom;

pub mod c;
mod framing;

// Sixteen stored bytes, lowest first. No order, equality or printing is derived: equal values may have different bytes, and
// `compare`, `write` and `debug` are the operations that document 01 names, the last two into a lent buffer, with `NoRoom`.
// `from_bytes`, `bytes` and `parse` are the Rust's names.
#[derive(Clone, Copy)]
pub struct Decimal128 {
    pub bytes: [u8; 16],
}

// The slice is not of sixteen bytes.
#[derive(Clone, Copy, Debug, PartialEq, Eq)]
pub struct MalformedBytes;

// One of two values is a NaN.
#[derive(Clone, Copy, Debug, PartialEq, Eq)]
pub struct NotOrdered;

// Document 01, 'Numbers of the refusals', and ticket 3 of document 02.
const MALFORMED_BYTES: u32 = 8;

const NOT_ORDERED: u32 = 11;

// The order that stands beside NotOrdered.
const NO_ORDER: i32 = 0;

impl MalformedBytes {
    ghost use Rattle.meaning.specs.Refusals.{number_of};
    ghost use Rattle.meaning.specs.Refusals.Refusal.{malformed_bytes};

    #[tactic(auto, unfolding(meaning::specs::Refusals::number_of))]
    pub fn number(self) -> u32
        ensures { result ≡ number_of malformed_bytes }
    {
        MALFORMED_BYTES
    }
}

impl NotOrdered {
    ghost use Rattle.meaning.specs.Refusals.{number_of};
    ghost use Rattle.meaning.specs.Refusals.Refusal.{not_ordered};

    #[tactic(auto, unfolding(meaning::specs::Refusals::number_of))]
    pub fn number(self) -> u32
        ensures { result ≡ number_of not_ordered }
    {
        NOT_ORDERED
    }
}

impl Decimal128 {
    pub fn from_bytes(bytes: [u8; 16]) -> Self
        ensures { FromBytesAllows bytes result }
    {
        Self { bytes }
    }

    pub fn bytes(self) -> [u8; 16]
        ensures { BytesAllows self result }
    {
        self.bytes
    }

    // The text of the value, and its length.
    pub fn write(self, buf: &mut [u8]) -> Result<usize, NoRoom>
        ensures { WriteAllows self.bytes buf.old result buf.new }
    {
        writing::write(layout::unpack(self.bytes), buf)
    }

    // `Decimal128(`, 32 hex digits, `)`.
    pub fn debug(self, buf: &mut [u8]) -> Result<usize, NoRoom>
        ensures { DebugAllows self.bytes buf.old result buf.new }
    {
        writing::debug(self.bytes, buf)
    }

    // The order of two values; none with a NaN.
    pub fn compare(self, other: Self) -> Result<Ordering, NotOrdered>
        ensures { CompareAllows self.bytes other.bytes result }
    {
        comparing::compare(&self.bytes, &other.bytes).ok_or(NotOrdered)
    }
}

// Text to 16 bytes, or why and where it is refused.
pub fn read(text: &[u8]) -> Result<Decimal128, Refused>
    ensures { ReadAllows text.now result }
{
    let value = reading::read(text)?;
    Ok(Decimal128::from_bytes(layout::pack(value.fields)))
}

// The record of a text: number, 32 hex digits, written text and place, parted by tabs, and LF; a refusal has `-` for the digits
// and for the text.
pub fn record(text: &[u8], buf: &mut [u8]) -> Result<usize, NoRoom>
    ensures { RecordAllows text.now buf.old result buf.new }
{
    match reading::read(text) {
        Ok(value) => framing::accepted(value, buf),
        Err(refused) => framing::refused(refused, buf),
    }
}

// Sixteen bytes as they are.
pub fn parse(bytes: &[u8]) -> Result<Decimal128, MalformedBytes>
    ensures { ParseAllows bytes.now result }
{
    match bytes.try_into() {
        Ok(bytes) => Ok(Decimal128::from_bytes(bytes)),
        Err(_) => Err(MalformedBytes),
    }
}

// The order of an answer as a number, -1, 0 or 1: beside a refusal it is 0.
pub fn order_given(answer: &Result<Ordering, NotOrdered>) -> i32
    ensures { result ≡ order_beside answer.now }
{
    match answer {
        Ok(Ordering::Less) => -1,
        Ok(Ordering::Equal) => 0,
        Ok(Ordering::Greater) => 1,
        Err(NotOrdered) => NO_ORDER,
    }
}

// The 16 bytes of an answer: beside a refusal they are zero bytes.
pub fn bytes_given<E>(answer: &Result<Decimal128, E>) -> [u8; 16]
    ensures { result ≡ given answer.now }
{
    match answer {
        Ok(value) => value.bytes,
        Err(_) => [0; 16],
    }
}
