// The pieces that a text is put together from: bytes, zeros, a point between digits. Each takes the whole buffer and a place, and not
// `&mut buf[at..]`: `written` then says what the buffer holds afterwards, with no lemma on its parts.
ghost use Rattle.std.specs.Prelude.{◌≡◌, [], ◌∷◌, ◌++◌, ◌+◌, ◌<◌, ◌≤◌, length, take, drop, replicate};
ghost use Rattle.writing.specs.Pieces.{sign};
ghost use Rattle.writing.specs.Written.{written};

// The bytes of s, from `at` on. `copy_from_slice` looks whether the two overlap, which costs NaN and an infinity five instructions; then
// Intel's library writes them faster.
pub fn put_all(buf: &mut [u8], at: usize, s: &[u8])
    requires { at + length s.now ≤ length buf.old }
    ensures { buf.new ≡ written at s.now buf.old }
{
    for (i, byte) in s.iter().enumerate() {
        buf[at + i] = *byte;
    }
}

// Two bytes, from `at` on.
pub fn put_two(buf: &mut [u8], at: usize, x: u8, y: u8)
    requires { at + 1 < length buf.old }
    ensures { buf.new ≡ written at (x ∷ y ∷ []) buf.old }
{
    buf[at] = x;
    buf[at + 1] = y;
}

// `-` at the front, or nothing. Put by the function that asks for room, it would cost a text five instructions more.
pub fn put_sign(buf: &mut [u8], negative: bool)
    requires { length (sign negative) ≤ length buf.old }
    ensures { buf.new ≡ written 0 (sign negative) buf.old }
{
    if negative {
        buf[0] = b'-';
    }
}

// So many zeros, from `at` on.
pub fn put_zeros(buf: &mut [u8], at: usize, count: usize)
    requires { at + count ≤ length buf.old }
    ensures { buf.new ≡ written at (replicate count 48) buf.old }
{
    buf[at..at + count].fill(b'0');
}

// The `before` bytes from at + 1 on go one to the left, and a point behind them: `_12345` -> `12.345`. By `copy_within` the library
// for C would need `memmove` from outside.
pub(crate) fn put_point(buf: &mut [u8], at: usize, before: usize)
    requires { at + before < length buf.old }
    ensures { buf.new ≡ written at (take before (drop (at + 1) buf.old) ++ 46 ∷ []) buf.old }
{
    for i in 0..before {
        buf[at + i] = buf[at + i + 1];
    }
    buf[at + before] = b'.';
}
