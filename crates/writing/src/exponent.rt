// The end of a text in exponential notation: `E`, and the adjusted exponent, which is that of the first digit. It is passed + 6177.
ghost use Rattle.std.specs.Prelude.{◌≡◌, ◌∷◌, ◌+◌, ◌<◌, ◌≤◌, length};
ghost use Rattle.meaning.specs.Writing.{decimal};
ghost use Rattle.writing.specs.Pieces.{tail, Tailed};
ghost use Rattle.writing.specs.Written.{written};

use crate::{digits, pieces};

// How many bytes `E`, the mark and the digits take.
pub fn tail_len(adjusted: u32) -> usize
    requires { adjusted < 16177 }
    ensures { Tailed adjusted result }
{
    if 6177 < adjusted {
        2 + limbs::count::of_u64((adjusted - 6177) as u64)
    } else if adjusted < 6177 {
        2 + limbs::count::of_u64((6177 - adjusted) as u64)
    } else {
        2
    }
}

// `E`, a mark and the digits of a number, of which there are `count`, from `at` on.
fn put_marked(buf: &mut [u8], at: usize, mark: u8, count: usize, number: u32)
    requires count { count ≡ length (decimal number) }
    requires room { at + 2 + count ≤ length buf.old }
    ensures { buf.new ≡ written at (69 ∷ mark ∷ decimal number) buf.old }
{
    pieces::put_two(buf, at, b'E', mark);
    digits::put_low(buf, at + 2, count, number);
}

// `E`, `+` or `-`, and the exponent, `len` bytes in all, from `at` on.
pub fn put_tail(buf: &mut [u8], at: usize, len: usize, adjusted: u32)
    requires len { Tailed adjusted len }
    requires room { at + len ≤ length buf.old }
    ensures { buf.new ≡ written at (tail adjusted) buf.old }
{
    if 6177 < adjusted {
        put_marked(buf, at, b'+', len - 2, adjusted - 6177);
    } else if adjusted < 6177 {
        put_marked(buf, at, b'-', len - 2, 6177 - adjusted);
    } else {
        pieces::put_all(buf, at, b"E0");
    }
}
