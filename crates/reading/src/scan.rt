// One pass over the decimal part of a text: where it stops, its points, and, of a short text, the number of its digits.
ghost use Rattle.std.specs.Prelude.{◌≡◌, true, ◌+◌, ◌-◌, ◌*◌, ◌^◌, ◌<◌, ◌≤◌, length};
ghost use Rattle.std.proofs.Math.Seq.{slice};
ghost use Rattle.meaning.specs.Reading.{all_digits, sign_length};
ghost use Rattle.reading.specs.Scan.{Scanned};

// A text is short that has at most so many bytes after its sign. Its digits fit a u64: 10^19 < 2^64.
pub const SHORT: usize = 19;

// What the pass has found so far: where the first two points stand, how many points there are, and the number that the
// digits write. A point that is not there stands at the end of the text, so that each question about one is a single
// comparison with an offset. The value means nothing in a text that is not short: an `Option` would be opened and closed at each
// digit.
#[derive(Clone, Copy)]
pub struct Found {
    pub point: usize,
    pub second: usize,
    pub points: usize,
    pub value: u64,
}

impl Found {
    ghost use Rattle.reading.specs.Scan.{none_found, with_digit, with_point};

    // Nothing yet, in a text of n bytes.
    fn none(n: usize) -> Self
        ensures { result ≡ none_found n }
    {
        Self {
            point: n,
            second: n,
            points: 0,
            value: 0,
        }
    }

    // One more digit.
    fn with_digit(self, b: u8) -> Self
        requires digit { (48 ≤ b) × (b ≤ 57) }
        requires fits { self.value < 10 ^ 18 }
        ensures { result ≡ with_digit self b }
    {
        Self {
            value: self.value * 10 + u64::from(b - b'0'),
            ..self
        }
    }

    // One more point, at an offset in the text.
    fn with_point(self, at: usize) -> Self
        requires { self.points < 2 ^ 63 }
        ensures { result ≡ with_point self at }
    {
        Self {
            point: if self.points == 0 { at } else { self.point },
            second: if self.points == 1 { at } else { self.second },
            points: self.points + 1,
            value: self.value,
        }
    }
}

// A text with its sign, where it starts after that, where its decimal part stops, and what was found in that.
#[derive(Clone, Copy)]
pub struct Scan<'a> {
    pub text: &'a [u8],
    pub negative: bool,
    pub start: usize,
    pub stop: usize,
    pub found: Found,
    ghost small: { length text.now < 2 ^ 63 },
    ghost some: { 0 < length text.now },
    ghost within: { start ≤ length text.now },
    ghost signed: { sign_length text.now ≡ start },
    ghost scanned: { Scanned text.now start stop found },
}

// All are digits: with `&` and not `&&`, eight bytes are compared at once.
fn are_digits(bytes: &[u8; 8]) -> bool
    ensures { result ≡ all_digits bytes.now }
{
    let mut all = true;
    for b in bytes {
        all &= b.is_ascii_digit();
    }
    all
}

// Past digits, eight at a time.
fn past_eights(text: &[u8], from: usize) -> usize
    requires { from ≤ length text.now }
    ensures { (from ≤ result) × (result ≤ length text.now) × (all_digits (slice from result text.now) ≡ true) }
{
    let mut rest = &text[from..];
    while let Some((eight, others)) = rest.split_first_chunk::<8>() {
        if !are_digits(eight) {
            break;
        }
        rest = others;
    }
    text.len() - rest.len()
}

// Where the decimal part of a text that is not short stops, and what is found in it. Its digits are not added up.
fn scan_long(text: &[u8], start: usize) -> (usize, Found)
    requires { start + 19 < length text.now }
    ensures { Scanned text.now start result.0 result.1 }
{
    let mut found = Found::none(text.len());
    let mut at = past_eights(text, start);
    // No `for`: a digit is one step, and a point and the eights behind it are another.
    while at < text.len() {
        let b = text[at];
        if b.is_ascii_digit() {
            at += 1;
        } else if b == b'.' {
            found = found.with_point(at);
            at = past_eights(text, at + 1);
        } else {
            return (at, found);
        }
    }
    (at, found)
}

// The same of a short text, whose digits are added up as they come. One loop for both would ask at each byte which of the two it is in.
fn scan_short(text: &[u8], start: usize) -> (usize, Found)
    requires { (start ≤ length text.now) × (length text.now ≤ start + 19) }
    ensures { Scanned text.now start result.0 result.1 }
{
    let mut found = Found::none(text.len());
    for at in start..text.len() {
        let b = text[at];
        if b.is_ascii_digit() {
            found = found.with_digit(b);
        } else if b == b'.' {
            found = found.with_point(at);
        } else {
            return (at, found);
        }
    }
    (text.len(), found)
}

impl<'a> Scan<'a> {
    // The decimal part of a text that starts at an offset, after its sign.
    pub fn of(text: &'a [u8], negative: bool, start: usize) -> Self
        requires some { 0 < length text.now }
        requires within { start ≤ length text.now }
        requires signed { sign_length text.now ≡ start }
        ensures text { result.text.now ≡ text.now }
        ensures negative { result.negative ≡ negative }
        ensures start { result.start ≡ start }
    {
        let (stop, found) = if SHORT < text.len() - start {
            scan_long(text, start)
        } else {
            scan_short(text, start)
        };
        Self {
            text,
            negative,
            start,
            stop,
            found,
        }
    }
}
