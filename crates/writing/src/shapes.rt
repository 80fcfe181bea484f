// The shapes of a text with a sign. Each says its length first, and writes nothing where there is no room. Buffer, sign and coefficient
// are three arguments: a struct of them would borrow the buffer in `write` and be taken apart in each shape.
ghost use Rattle.std.specs.Prelude.{◌≡◌, ◌∷◌, ◌++◌, ◌+◌, ◌-◌, ◌^◌, ◌<◌, ◌≤◌, length, replicate, IfOk, OnOk, OnErr};
ghost use Rattle.limbs.specs.Value.{value};
ghost use Rattle.meaning.specs.Writing.{decimal, signed};
ghost use Rattle.writing.specs.Pieces.{sign, point_at, head, tail};
ghost use Rattle.writing.specs.Put.{Puts};
ghost use Rattle.writing.specs.Written.{written};

use crate::coefficient::Coefficient;
use crate::{NoRoom, exponent, pieces};

// Where a text of `len` bytes starts behind its sign, if both have room.
fn start(buf: &[u8], negative: bool, len: usize) -> Result<usize, NoRoom>
    requires { length (sign negative) + len < 2 ^ 64 }
    ensures at { IfOk result (λ at. at ≡ length (sign negative)) }
    ensures room { OnOk result (length (sign negative) + len ≤ length buf.now) }
    ensures no_room { OnErr result (length buf.now < length (sign negative) + len) }
{
    let at = usize::from(negative);
    if buf.len() < at + len {
        return Err(NoRoom);
    }
    Ok(at)
}

// A text that is known beforehand.
pub fn known(buf: &mut [u8], negative: bool, text: &[u8]) -> Result<usize, NoRoom>
    requires { length (signed negative text.now) < 2 ^ 64 }
    ensures { Puts (signed negative text.now) buf.old result buf.new }
{
    let at = start(buf, negative, text.len())?;
    pieces::put_sign(buf, negative);
    pieces::put_all(buf, at, text);
    Ok(at + text.len())
}

// A whole number: 1234E0 -> 1234
pub fn whole(buf: &mut [u8], negative: bool, c: Coefficient) -> Result<usize, NoRoom>
    ensures { Puts (signed negative (decimal (value c.limbs))) buf.old result buf.new }
{
    let at = start(buf, negative, c.digits)?;
    pieces::put_sign(buf, negative);
    c.put(buf, at);
    Ok(at + c.digits)
}

// The point stands before the last `places` digits: 1234E-2 -> 12.34
pub fn pointed(
    buf: &mut [u8],
    negative: bool,
    c: Coefficient,
    places: usize,
) -> Result<usize, NoRoom>
    requires { places < c.digits }
    ensures { Puts (signed negative (point_at (c.digits - places) (decimal (value c.limbs)))) buf.old result buf.new }
{
    let len = c.digits + 1;
    let at = start(buf, negative, len)?;
    pieces::put_sign(buf, negative);
    c.put_pointed(buf, at, c.digits - places);
    Ok(at + len)
}

// `0.`, zeros and the digits, which end at the last of the places: 12E-5 -> 0.00012
pub fn small(buf: &mut [u8], negative: bool, c: Coefficient, places: usize) -> Result<usize, NoRoom>
    requires within { c.digits ≤ places }
    requires few { places ≤ 39 }
    ensures { Puts (signed negative (48 ∷ 46 ∷ replicate (places - c.digits) 48 ++ decimal (value c.limbs))) buf.old result buf.new }
{
    let len = 2 + places;
    let at = start(buf, negative, len)?;
    pieces::put_sign(buf, negative);
    pieces::put_all(buf, at, b"0.");
    pieces::put_zeros(buf, at + 2, places - c.digits);
    c.put(buf, at + len - c.digits);
    Ok(at + len)
}

// The first digit, a point and the rest where there is more, and the exponent: 1234E2 -> 1.234E+5
pub fn power(buf: &mut [u8], negative: bool, c: Coefficient, adjusted: u32) -> Result<usize, NoRoom>
    requires { adjusted < 16177 }
    ensures { Puts (signed negative (head (decimal (value c.limbs)) ++ tail adjusted)) buf.old result buf.new }
{
    let head = c.head_len();
    let tail = exponent::tail_len(adjusted);
    let len = head + tail;
    let at = start(buf, negative, len)?;
    pieces::put_sign(buf, negative);
    c.put_head(buf, at);
    exponent::put_tail(buf, at + head, tail, adjusted);
    Ok(at + len)
}
