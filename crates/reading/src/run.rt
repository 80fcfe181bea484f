// The run of step 7 walked in place: the bytes of a text from one offset to another, but the one at the first point.
ghost use Rattle.std.specs.Prelude.{◌≡◌, true, ◌+◌, ◌-◌, ◌^◌, ◌<◌, ◌≤◌, length};
ghost use Rattle.meaning.specs.Reading.{number, all_digits};
ghost use Rattle.limbs.specs.Value.{value};
ghost use Rattle.reading.specs.Run.{run_of, counted, Offset, ZerosTo, Row};

use crate::scan::Scan;

// Where the first byte other than `0` stands, or the end. No `Option`: it is where the rest of the run begins, which may be empty, and
// its callers go on from there or compare it with the end.
pub fn first_other(scan: &Scan<'_>, from: usize, to: usize) -> usize
    requires { (from ≤ to) × (to ≤ length scan.now.text.now) }
    ensures { ZerosTo scan.now.found.point from to scan.now.text.now result }
{
    for i in from..to {
        if scan.text[i] != b'0' && i != scan.found.point {
            return i;
        }
    }
    to
}

// How many bytes there are.
pub fn count(scan: &Scan<'_>, from: usize, to: usize) -> usize
    requires { from ≤ to }
    ensures { result ≡ counted scan.now.found.point from to }
{
    let point = scan.found.point;
    if from <= point && point < to {
        to - from - 1
    } else {
        to - from
    }
}

// The offset after n bytes.
pub fn after(scan: &Scan<'_>, from: usize, n: usize) -> usize
    requires { from + n < 2 ^ 63 }
    ensures { Offset scan.now.found.point from n result }
{
    let point = scan.found.point;
    let at = from + n;
    if from <= point && point < at {
        at + 1
    } else {
        at
    }
}

// The number of at most eight digits behind c.
fn push_few(c: [u32; 4], digits: &[u8]) -> [u32; 4]
    requires row { Row digits.now (value c) }
    requires few { length digits.now ≤ 8 }
    ensures { value result ≡ number (value c) digits.now }
{
    let mut sum: u32 = 0;
    let mut zeros: u32 = 0;
    let mut room: u32 = 1;
    // The bytes are added up as they are, and what `0` adds to each of them is taken off at the end.
    for digit in digits {
        sum = sum * 10 + u32::from(*digit);
        zeros = zeros * 10 + u32::from(b'0');
        room *= 10;
    }
    limbs::multiply(c, room, sum - zeros).0
}

// The number of a row of digits behind c, eight at a time.
fn push_row(c: [u32; 4], digits: &[u8]) -> [u32; 4]
    requires { Row digits.now (value c) }
    ensures { value result ≡ number (value c) digits.now }
{
    let mut acc = c;
    let mut rest = digits;
    while let Some((eight, others)) = rest.split_first_chunk::<8>() {
        // In two steps: the check does not cover a call's result laid in a variable that holds an array.
        let longer = push_few(acc, eight);
        acc = longer;
        rest = others;
    }
    push_few(acc, rest)
}

// The number of at most 34 bytes that are all digits.
pub fn number(scan: &Scan<'_>, from: usize, to: usize) -> [u32; 4]
    requires within { (from ≤ to) × (to ≤ length scan.now.text.now) }
    requires digits { all_digits (run_of scan.now from to) ≡ true }
    requires few { length (run_of scan.now from to) ≤ 34 }
    ensures { value result ≡ number 0 (run_of scan.now from to) }
{
    let point = scan.found.point;
    if from <= point && point < to {
        let before = push_row([0; 4], &scan.text[from..point]);
        push_row(before, &scan.text[point + 1..to])
    } else {
        push_row([0; 4], &scan.text[from..to])
    }
}
