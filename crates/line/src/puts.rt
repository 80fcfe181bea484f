// Texts put into the lent output, where the caller has seen that there is room.
ghost use Rattle.std.specs.Prelude.{◌≡◌, ◌+◌, ◌≤◌, length};
ghost use Rattle.meaning.specs.Layout.{stored, decode};
ghost use Rattle.meaning.specs.Writing.{write_text, debug_text};
ghost use Rattle.decimal128.specs.Operations.{put_length};
ghost use Rattle.line.specs.Wrote.{Wrote};

use decimal128::Decimal128;
use writing::{NoRoom, pieces};

// The length of what was put.
pub fn put_len(put: Result<usize, NoRoom>) -> usize
    ensures { result ≡ put_length put }
{
    put.unwrap_or(0)
}

// A record that is known beforehand, at the front.
pub fn put_known(out: &mut [u8], text: &[u8]) -> usize
    requires { length text.now ≤ length out.old }
    ensures { Wrote 0 text.now out.old result out.new }
{
    pieces::put_all(out, 0, text);
    text.len()
}

// The text of a stored value, from `at` on. One function for this and `put_debug` would take the method as a closure, and say
// in its contract what each of the two methods promises: that is longer than the second function.
pub fn put_text(out: &mut [u8], at: usize, value: Decimal128) -> usize
    requires { at + 42 ≤ length out.old }
    ensures wrote { Wrote at (write_text (decode (stored value.bytes))) out.old result out.new }
    ensures few { result ≤ at + 42 }
{
    at + put_len(value.write(&mut out[at..]))
}

// The debug form of a stored value, from `at` on.
pub fn put_debug(out: &mut [u8], at: usize, value: Decimal128) -> usize
    requires { at + 44 ≤ length out.old }
    ensures wrote { Wrote at (debug_text value.bytes) out.old result out.new }
    ensures long { result ≡ at + 44 }
{
    at + put_len(value.debug(&mut out[at..]))
}
