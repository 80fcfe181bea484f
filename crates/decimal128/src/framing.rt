// The record of a text: the number, 32 hex digits, the written text and the place, parted by tabs, and LF; a refusal has `-` for
// the digits and for the text.
ghost use Rattle.std.specs.Prelude.{◌≡◌, ◌≤◌, length};
ghost use Rattle.meaning.specs.Reading.{accepted_as, refused_at};
ghost use Rattle.meaning.specs.Writing.{write_text};
ghost use Rattle.meaning.specs.Stream.{record_text};
ghost use Rattle.layout.specs.Unpacked.{meant};
ghost use Rattle.reading.specs.Told.{named};
ghost use Rattle.writing.specs.Put.{Puts};
ghost use Rattle.writing.specs.Written.{written};
ghost use Rattle.decimal128.specs.Record.{front, TextIn};

use layout::Unpacked;
use reading::answer::Refused;
use writing::coefficient::Coefficient;
use writing::{NoRoom, hex, pieces};

// `0`, a tab, the hex digits and a tab: the 35 bytes before a text.
fn put_front(buf: &mut [u8], bytes: [u8; 16])
    requires { 35 ≤ length buf.old }
    ensures { buf.new ≡ written 0 (front bytes) buf.old }
{
    pieces::put_two(buf, 0, b'0', b'\t');
    hex::put_hexes(buf, 2, bytes);
    buf[34] = b'\t';
}

// The text, where it belongs, with three bytes left for what stands behind it.
fn put_text(value: Unpacked, buf: &mut [u8]) -> Result<usize, NoRoom>
    requires { 38 ≤ length buf.old }
    ensures { TextIn (write_text (meant value)) buf.old result buf.new }
{
    let end = buf.len() - 3;
    writing::write(value, &mut buf[35..end])
}

// The text is put first: it says whether there is room. Behind it stand a tab, the place 0 and LF.
pub fn accepted(value: Unpacked, buf: &mut [u8]) -> Result<usize, NoRoom>
    ensures { Puts (record_text (accepted_as (meant value))) buf.old result buf.new }
{
    if buf.len() < 38 {
        return Err(NoRoom);
    }
    let n = put_text(value, buf)?;
    put_front(buf, layout::pack(value.fields));
    pieces::put_two(buf, 35 + n, b'\t', b'0');
    buf[37 + n] = b'\n';
    Ok(38 + n)
}

// `7`, `-`, `-` and the place, parted by tabs, and LF.
pub fn refused(refused: Refused, buf: &mut [u8]) -> Result<usize, NoRoom>
    ensures { Puts (record_text (refused_at (named refused.refusal) refused.place)) buf.old result buf.new }
{
    let place = Coefficient::new(limbs::of_u64(refused.place as u64));
    let end = 6 + place.digits;
    if buf.len() <= end {
        return Err(NoRoom);
    }
    let digit = b'0' + refused.refusal.number() as u8;
    pieces::put_all(buf, 0, &[digit, b'\t', b'-', b'\t', b'-', b'\t']);
    place.put(buf, 6);
    buf[end] = b'\n';
    Ok(end + 1)
}
