// Text to value: document 01, 'Reading text', steps 1 to 11.
#![tactic(auto)]

ghost use Rattle.std.specs.Prelude.{◌≡◌, true, map, ◌+◌, ◌-◌, ◌≤◌, ◌<◌, ◌^◌, length, drop, IsTrue};
ghost use Rattle.meaning.specs.Reading.{origin, sign_length, read_at};
ghost use Rattle.reading.specs.Run.{from_step2, from_step7, Plain};
ghost use Rattle.reading.specs.Split.{start_of, Shifted};
ghost use Rattle.reading.specs.Told.{Gives};

use crate::answer::{Refusal, Refused};
use crate::scan::Scan;
use layout::Unpacked;
use limbs::wide;
use limbs::wide::Shift;

pub mod answer;
mod places;
mod round;
mod run;
mod scan;
mod words;

// F: how many bytes stand after the first point.
fn fraction(point: usize, stop: usize) -> u64
    ensures { result ≡ stop - (point + 1) }
{
    // `saturating_sub` twice costs two instructions more.
    if stop <= point {
        0
    } else {
        (stop - point - 1) as u64
    }
}

// Steps 3 to 6: x = E-F.
fn shift(scan: &Scan<'_>) -> Result<Shift, Refusal>
    ensures { Shifted scan.now.text.now scan.now.start scan.now.stop scan.now.found result }
{
    let text = scan.text;
    let stop = scan.stop;
    let f = fraction(scan.found.point, stop);
    let has_digit = scan.found.points < stop - scan.start;
    let Some(byte) = text.get(stop) else {
        if !has_digit {
            return Err(Refusal::Unparseable);
        }
        return Ok(wide::minus(f));
    };
    if !byte.eq_ignore_ascii_case(&b'e') {
        let rest = &text[stop..];
        return Err(words::wrong(rest));
    }
    if stop + 1 == text.len() {
        return Err(Refusal::EmptyExponent);
    }
    if !has_digit {
        return Err(Refusal::Unparseable);
    }
    Ok(wide::exponent_less(&text[stop + 1..], f)?)
}

// Where the text starts, after its sign.
fn start_of(first: u8) -> usize
    ensures { result ≡ start_of first }
{
    if first == b'-' || first == b'+' { 1 } else { 0 }
}

// The text is short and all decimal part, with a digit and at most one point.
fn is_plain(scan: &Scan<'_>) -> bool
    ensures { IsTrue result → Plain scan.now }
{
    // Each test returns by itself: joined by `&&` they cost up to ten instructions more.
    if scan.stop != scan.text.len() {
        return false;
    }
    let width = scan.stop - scan.start;
    if scan::SHORT < width {
        return false;
    }
    if width <= scan.found.points {
        return false;
    }
    scan.found.points < 2
}

// The field of exponent 0.
const FIELD_OF_0: u32 = 6176;

// The value of a plain text: the number of its digits, and the field of -F.
fn plain(scan: &Scan<'_>) -> Unpacked
    requires { Plain scan.now }
    ensures { Gives (from_step7 scan.now (origin - (scan.now.stop - (scan.now.found.point + 1)))) (Ok result) }
{
    let field = FIELD_OF_0 - fraction(scan.found.point, scan.stop) as u32;
    let c = limbs::of_u64(scan.found.value);
    answer::finite(scan.negative, field, c, round::digits(scan))
}

// Steps 2 to 11, of a text after its sign.
fn after_sign(scan: &Scan<'_>) -> Result<Unpacked, Refused>
    ensures { Gives (from_step2 scan.now) result }
{
    if is_plain(scan) {
        return Ok(plain(scan));
    }
    if scan.stop == scan.start {
        return words::word(scan);
    }
    match shift(scan) {
        Ok(x) => round::finite(scan, x),
        Err(refusal) => Err(refusal.at(places::early(scan.text, scan.stop, refusal))),
    }
}

// What a text reads as, or why and where it is refused: steps 1 to 11.
pub fn read(text: &[u8]) -> Result<Unpacked, Refused>
    ensures { Gives (read_at text.now) result }
{
    if text.is_empty() {
        return Err(Refusal::Unparseable.at(0));
    }
    let first = text[0];
    after_sign(&Scan::of(text, first == b'-', start_of(first)))
}
