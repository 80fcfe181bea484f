// A stream handed over in chunks: lines are read in place where they lie whole in a chunk; the line that a chunk leaves
// unended is kept for the next one.
ghost use Rattle.std.specs.Prelude.{◌≡◌, ◌==◌, ◌+◌, ◌≤◌, ◌<◌, length, position, IfSome};
ghost use Rattle.line.specs.Feed.{Feeds, Finishes};

use crate::pending::Pending;
use crate::records::{LONGEST_RECORD, Record};

// How far a chunk was read, how many bytes of records stand in the output.
#[derive(Clone, Copy, Debug, PartialEq, Eq)]
pub struct Fed {
    pub from: usize,
    pub count: usize,
}

// Where the first LF stands.
fn next_lf(rest: &[u8]) -> Option<usize>
    ensures first { result ≡ position (λ b. b == 10) rest.now }
    ensures within { IfSome result (λ len. len < length rest.now) }
{
    rest.iter().position(|b| *b == b'\n')
}

// One step: to behind the next LF, or to the chunk's end.
fn advance<R: Record>(chunk: &[u8], fed: Fed, pending: &mut Pending, out: &mut [u8]) -> Fed
    requires in_chunk { fed.from < length chunk.now }
    requires room { fed.count + LONGEST_RECORD ≤ length out.old }
    ensures feeds { Feeds R.record_for chunk.now fed pending.old out.old result pending.new out.new }
    ensures goes_on { fed.from < result.from }
{
    let Fed { from, count } = fed;
    let rest = &chunk[from..];
    match next_lf(rest) {
        Some(len) => {
            let wrote = pending.end::<R>(&rest[..len], &mut out[count..]);
            Fed {
                from: from + len + 1,
                count: count + wrote,
            }
        }
        None => {
            pending.extend(rest);
            Fed {
                from: chunk.len(),
                count,
            }
        }
    }
}

// Takes lines from `from` on while they last and while `out` has room for a record. What it wrote stands at the front of
// `out`; where the chunk is not used up it is called again.
pub fn feed<R: Record>(chunk: &[u8], from: usize, pending: &mut Pending, out: &mut [u8]) -> Fed
    ensures feeds { Feeds R.record_for chunk.now (record { from = from; count = 0 }) pending.old out.old result pending.new out.new }
    ensures goes_on { from < length chunk.now → LONGEST_RECORD ≤ length out.old → from < result.from }
{
    let mut fed = Fed { from, count: 0 };
    // No `for`: each turn goes on to behind the next LF.
    while fed.from < chunk.len() {
        if out.len() - fed.count < LONGEST_RECORD {
            return fed;
        }
        fed = advance::<R>(chunk, fed, pending, out);
    }
    fed
}

// The record of the last line, where there is one that has no LF.
pub fn finish<R: Record>(pending: &Pending, out: &mut [u8]) -> usize
    requires { LONGEST_RECORD ≤ length out.old }
    ensures { Finishes R.record_for pending.now out.old result out.new }
{
    if pending.is_empty() {
        return 0;
    }
    pending.record::<R>(out)
}
