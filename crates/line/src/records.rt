// The record of one line, at the front of the lent output: at most 80 bytes for a text, at most 90 for a stored value.
ghost use Rattle.std.specs.Prelude.{◌≡◌, ℕ, ◌≤◌, ◌<◌, List, length};
ghost use Rattle.meaning.specs.Stream.{without_cr, line_record, stored_record};
ghost use Rattle.line.specs.Wrote.{Wrote};

use crate::{puts, stored};

// How many bytes the longest record has. That there is so much room is asked of the slice that is lent, which each call makes anew
// of what is left: a type for it would have to be made there too.
pub const LONGEST_RECORD: usize = 90;

// The longest text that is read.
const LONGEST: usize = 4096;

// What a program writes for each line.
pub trait Record {
    // The program's name.
    const NAME: &'static str;

    // A text's record.
    ghost record_for: { List ℕ → List ℕ };

    // The record of a text.
    fn record(text: &[u8], out: &mut [u8]) -> usize
        requires { LONGEST_RECORD ≤ length out.old }
        ensures { Wrote 0 (record_for text.now) out.old result out.new };

    // The record of any text of more than 4,096 bytes.
    fn too_long(out: &mut [u8]) -> usize
        requires { LONGEST_RECORD ≤ length out.old }
        ensures { (p : List ℕ) → 4096 < length p → Wrote 0 (record_for p) out.old result out.new };
}

// The record of the text that a line is.
#[derive(Clone, Copy, Debug)]
pub struct Texts;

// The record of the stored value that a line's hex digits give.
#[derive(Clone, Copy, Debug)]
pub struct Stored;

impl Record for Texts {
    const NAME: &'static str = "lines";

    ghost record_for = { line_record };

    fn record(text: &[u8], out: &mut [u8]) -> usize {
        if LONGEST < text.len() {
            return Self::too_long(out);
        }
        puts::put_len(decimal128::record(text, out))
    }

    // 10, LineTooLong.
    fn too_long(out: &mut [u8]) -> usize {
        puts::put_known(out, b"10\t-\t-\t-\n")
    }
}

impl Record for Stored {
    const NAME: &'static str = "stored";

    ghost record_for = { stored_record };

    fn record(text: &[u8], out: &mut [u8]) -> usize {
        stored::record(text, out)
    }

    fn too_long(out: &mut [u8]) -> usize {
        stored::malformed(out)
    }
}

// A line without the CR that belongs to its end: `1\r` -> `1`, `1\r\r` -> `1\r`.
fn without_cr(line: &[u8]) -> &[u8]
    ensures { result.now ≡ without_cr line.now }
{
    line.strip_suffix(b"\r").unwrap_or(line)
}

// The record of a line as it stands in the stream, its LF left out.
pub fn of_line<R: Record>(line: &[u8], out: &mut [u8]) -> usize
    requires { LONGEST_RECORD ≤ length out.old }
    ensures { Wrote 0 (R.record_for (without_cr line.now)) out.old result out.new }
{
    R::record(without_cr(line), out)
}
