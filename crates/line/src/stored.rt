// A stored value as a line of 32 hex digits in either case, and its record.
ghost use Rattle.std.specs.Prelude.{◌==◌, ◌&&◌, ◌≤◌, ◌<◌, length, IsTrue};
ghost use Rattle.std.specs.Option.{SomeIff};
ghost use Rattle.meaning.specs.Stream.{hex_value, all_hex, unhex, malformed, stored_record};
ghost use Rattle.line.specs.Wrote.{Wrote, stored_text};

use crate::puts;
use crate::records::LONGEST_RECORD;
use decimal128::Decimal128;
use writing::pieces;

// The value of a hex digit.
fn hex_value(b: u8) -> Option<u8>
    ensures { SomeIff result (hex_value b < 16) (hex_value b) }
{
    char::from(b).to_digit(16).map(|digit| digit as u8)
}

// The bytes of 32 hex digits, two digits a byte, the higher one first: `403f..` -> 64, 63, ..
fn unhex(text: &[u8]) -> Option<[u8; 16]>
    ensures { SomeIff result (IsTrue (length text.now == 32 && all_hex text.now)) (unhex text.now) }
{
    if text.len() != 32 {
        return None;
    }
    let mut bytes = [0; 16];
    for i in 0..16 {
        let high = hex_value(text[2 * i])?;
        let low = hex_value(text[2 * i + 1])?;
        bytes[i] = 16 * high + low;
    }
    Some(bytes)
}

// `0`, the written text and the debug form, parted by tabs, and LF.
fn accepted(bytes: [u8; 16], out: &mut [u8]) -> usize
    requires { LONGEST_RECORD ≤ length out.old }
    ensures { Wrote 0 (stored_text bytes) out.old result out.new }
{
    let value = Decimal128::from_bytes(bytes);
    pieces::put_all(out, 0, b"0\t");
    let text_end = puts::put_text(out, 2, value);
    out[text_end] = b'\t';
    let end = puts::put_debug(out, text_end + 1, value);
    out[end] = b'\n';
    end + 1
}

// 8, MalformedBytes.
pub fn malformed(out: &mut [u8]) -> usize
    requires { LONGEST_RECORD ≤ length out.old }
    ensures { Wrote 0 malformed out.old result out.new }
{
    puts::put_known(out, b"8\t-\t-\n")
}

// The record of the stored value that 32 hex digits give; 8 for any other line.
pub fn record(text: &[u8], out: &mut [u8]) -> usize
    requires { LONGEST_RECORD ≤ length out.old }
    ensures { Wrote 0 (stored_record text.now) out.old result out.new }
{
    match unhex(text) {
        Some(bytes) => accepted(bytes, out),
        None => malformed(out),
    }
}
