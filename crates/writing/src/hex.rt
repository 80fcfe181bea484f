// Bytes in hexadecimal, into a lent buffer.
ghost use Rattle.std.specs.Prelude.{◌≡◌, [], ◌∷◌, ◌+◌, ◌<◌, ◌≤◌, length};
ghost use Rattle.meaning.specs.Writing.{hex_digit, hexes};
ghost use Rattle.writing.specs.Written.{written};

use crate::pieces;

// A digit below 16, in lower case. The library's `from_digit` gives an `Option` of a character, which would have to be made a byte.
fn digit(n: u8) -> u8
    requires { n < 16 }
    ensures { result ≡ hex_digit n }
{
    if n < 10 { b'0' + n } else { b'a' + (n - 10) }
}

// A byte as two digits, from `at` on.
fn put_hex(buf: &mut [u8], at: usize, b: u8)
    requires { at + 1 < length buf.old }
    ensures { buf.new ≡ written at (hexes (b ∷ [])) buf.old }
{
    pieces::put_two(buf, at, digit(b / 16), digit(b % 16));
}

// Two digits a byte, from `at` on.
pub fn put_hexes(buf: &mut [u8], at: usize, bytes: [u8; 16])
    requires { at + 32 ≤ length buf.old }
    ensures { buf.new ≡ written at (hexes bytes) buf.old }
{
    for (i, byte) in bytes.iter().enumerate() {
        put_hex(buf, at + 2 * i, *byte);
    }
}
