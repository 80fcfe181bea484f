// The text of a value and the debug form of its bytes, into a lent buffer.
#![tactic(auto)]

ghost use Rattle.std.specs.Prelude.{◌≡◌, ◌≤◌};
ghost use Rattle.limbs.specs.Value.{value};
ghost use Rattle.layout.specs.Unpacked.{meant};
ghost use Rattle.meaning.specs.Writing.{decimal, plain, magnitude, signed, write_text, debug_text};
ghost use Rattle.writing.specs.Put.{put_of, placed, Puts};

use coefficient::Coefficient;
use layout::{Kind, Unpacked};

pub mod coefficient;
pub mod digits;
mod exponent;
pub mod hex;
pub mod pieces;
mod shapes;

// The buffer is shorter than what is to be put into it.
#[derive(Clone, Copy, Debug, PartialEq, Eq)]
pub struct NoRoom;

// Plain notation: the digits, with a point in or before them where `places`, the exponent without its sign, is not 0.
fn plain(buf: &mut [u8], negative: bool, c: Coefficient, places: usize) -> Result<usize, NoRoom>
    requires { places ≤ 39 }
    ensures { Puts (signed negative (plain (decimal (value c.limbs)) places)) buf.old result buf.new }
{
    if places == 0 {
        shapes::whole(buf, negative, c)
    } else if places < c.digits {
        shapes::pointed(buf, negative, c, places)
    } else {
        shapes::small(buf, negative, c, places)
    }
}

// A finite value. Its exponent comes as it is stored, + 6176; the adjusted exponent, that of the first digit, is + 6177.
fn finite(buf: &mut [u8], negative: bool, exponent: u32, c: Coefficient) -> Result<usize, NoRoom>
    requires { exponent ≤ 12287 }
    ensures { Puts (signed negative (magnitude (decimal (value c.limbs)) exponent)) buf.old result buf.new }
{
    let adjusted = exponent + c.digits as u32;
    if exponent <= 6176 && 6171 <= adjusted {
        plain(buf, negative, c, (6176 - exponent) as usize)
    } else {
        shapes::power(buf, negative, c, adjusted)
    }
}

// The text of a value.
pub fn write(u: Unpacked, buf: &mut [u8]) -> Result<usize, NoRoom>
    ensures value { result ≡ put_of (write_text (meant u)) buf.old }
    ensures buf_after { buf.new ≡ placed (write_text (meant u)) buf.old }
{
    let f = u.fields;
    match f.kind {
        Kind::Nan { .. } => shapes::known(buf, false, b"NaN"),
        Kind::Infinity => shapes::known(buf, f.negative, b"Infinity"),
        Kind::Finite => {
            let limbs = f.coefficient;
            let c = Coefficient {
                limbs,
                digits: u.digits,
            };
            finite(buf, f.negative, f.exponent, c)
        }
    }
}

// The debug form of 16 stored bytes.
pub fn debug(bytes: [u8; 16], buf: &mut [u8]) -> Result<usize, NoRoom>
    ensures value { result ≡ put_of (debug_text bytes) buf.old }
    ensures buf_after { buf.new ≡ placed (debug_text bytes) buf.old }
{
    let len = 44;
    if buf.len() < len {
        return Err(NoRoom);
    }
    pieces::put_all(buf, 0, b"Decimal128(");
    hex::put_hexes(buf, 11, bytes);
    buf[len - 1] = b')';
    Ok(len)
}
