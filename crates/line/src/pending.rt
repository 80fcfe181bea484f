// The line that no LF has ended yet, kept from one chunk to the next.
ghost use Rattle.std.specs.Prelude.{◌≡◌, ℕ, ◌≤◌, ◌↔◌, List, [], ◌++◌, length, IsTrue, Some, None, MatchOption, nat_le, if◌then◌else◌, take};
ghost use Rattle.meaning.specs.Stream.{without_cr};
ghost use Rattle.line.specs.Wrote.{Wrote};
ghost use Rattle.line.specs.Feed.{Holds};

use crate::records::{self, LONGEST_RECORD, Record};
use std::marker::Model;

// Room for the longest text and a CR, of which only the next byte tells whether it belongs to the line end.
const CAPACITY: usize = 4097;

// The bytes of the line stand in the first `len`; of one that is longer than there is room nothing is kept. The memory is fixed, as
// everywhere here, and so it is no `Vec`.
#[derive(Debug, Drop)]
pub struct Pending {
    bytes: [u8; CAPACITY],
    len: Option<usize>,
}

// Clauses see the bytes that are kept, or `None` of a longer line.
impl Model for Pending {
    ghost use Rattle.std.specs.Prelude.{ℕ, ◌≤◌, List, Option, option_map, take};
    ghost use Rattle.std.specs.Option.{ForSome};

    ghost Value = { Option (List ℕ) };

    ghost view = { λ line. option_map (λ len. take len line.bytes) line.len };

    ghost invariant = { λ line. ForSome line.len (λ len. len ≤ 4097) };
}

impl Pending {
    // The start of a line.
    pub fn new() -> Self
        ensures { result ≡ Some [] }
    {
        Pending {
            bytes: [0; CAPACITY],
            len: Some(0),
        }
    }

    // The line that stands in the first `len` bytes, or one that is longer than there is room: for a caller that has a buffer and a
    // length, so that `feed` and `finish` ask for nothing more.
    pub fn holding(bytes: [u8; CAPACITY], len: usize) -> Self
        ensures { result ≡ (if nat_le len 4097 then Some (take len bytes) else None) }
    {
        Pending {
            bytes,
            len: if len <= CAPACITY { Some(len) } else { None },
        }
    }

    // The bytes of the line, where all are kept.
    pub fn held(&self) -> Option<&[u8]>
        ensures { MatchOption result (self.now ≡ None) (λ line. self.now ≡ Some line.now) }
    {
        let len = self.len?;
        Some(&self.bytes[..len])
    }

    pub(crate) fn is_empty(&self) -> bool
        ensures { IsTrue result ↔ (self.now ≡ Some []) }
    {
        matches!(self.len, Some(0))
    }

    // The line goes on with `part`.
    pub(crate) fn extend(&mut self, part: &[u8])
        ensures { (p : List ℕ) → Holds self.old p → Holds self.new (p ++ part.now) }
    {
        let Some(len) = self.len else {
            return;
        };
        if self.bytes.len() - len < part.len() {
            self.len = None;
            return;
        }
        let end = len + part.len();
        self.bytes[len..end].copy_from_slice(part);
        self.len = Some(end);
    }

    // The record of the line as it stands.
    pub(crate) fn record<R: Record>(&self, out: &mut [u8]) -> usize
        requires { LONGEST_RECORD ≤ length out.old }
        ensures { (p : List ℕ) → Holds self.now p → Wrote 0 (R.record_for (without_cr p)) out.old result out.new }
    {
        match self.len {
            Some(len) => records::of_line::<R>(&self.bytes[..len], out),
            None => R::too_long(out),
        }
    }

    // The record of the line that ends with `part`. The next line begins.
    pub(crate) fn end<R: Record>(&mut self, part: &[u8], out: &mut [u8]) -> usize
        requires { LONGEST_RECORD ≤ length out.old }
        ensures wrote { (p : List ℕ) → Holds self.old p → Wrote 0 (R.record_for (without_cr (p ++ part.now))) out.old result out.new }
        ensures empty { self.new ≡ Some [] }
    {
        if self.is_empty() {
            return records::of_line::<R>(part, out);
        }
        self.extend(part);
        let wrote = self.record::<R>(out);
        self.len = Some(0);
        wrote
    }
}
