// The special words, and the letter `e`.
ghost use Rattle.std.specs.Prelude.{◌≡◌, ◌∷◌, [], map, option_map, position, ◌<◌, ◌≤◌, length, drop};
ghost use Rattle.meaning.specs.Reading.{lower, from, sign_length};
ghost use Rattle.reading.specs.Run.{from_step2};
ghost use Rattle.reading.specs.Scan.{decimals, is_e};
ghost use Rattle.reading.specs.Split.{wrong_for};
ghost use Rattle.reading.specs.Told.{Gives};

use crate::answer::{Refusal, Refused};
use crate::scan::Scan;
use crate::{answer, places};
use layout::Unpacked;

// Where the first `e` stands.
fn find_e(text: &[u8]) -> Option<usize>
    ensures { result ≡ position is_e text.now }
{
    text.iter().position(|b| b.eq_ignore_ascii_case(&b'e'))
}

// Why a text is refused whose decimal part is wrong, by what follows that: whether its first `e` is its last byte.
pub fn wrong(rest: &[u8]) -> Refusal
    ensures { result ≡ wrong_for (from 101 (map lower rest.now)) }
{
    match find_e(rest) {
        Some(e) if e + 1 == rest.len() => Refusal::EmptyExponent,
        _ => Refusal::Unparseable,
    }
}

// Step 2, of a text that starts with neither digit nor point.
pub fn word(scan: &Scan<'_>) -> Result<Unpacked, Refused>
    requires { decimals (drop scan.now.start scan.now.text.now) ≡ [] }
    ensures { Gives (from_step2 scan.now) result }
{
    let negative = scan.negative;
    let rest = &scan.text[scan.start..];
    if rest.eq_ignore_ascii_case(b"nan") {
        return Ok(answer::nan(negative, false));
    }
    if rest.eq_ignore_ascii_case(b"snan") {
        return Ok(answer::nan(negative, true));
    }
    if rest.eq_ignore_ascii_case(b"infinity") || rest.eq_ignore_ascii_case(b"inf") {
        return Ok(answer::infinity(negative));
    }
    let refusal = wrong(rest);
    Err(refusal.at(places::early(scan.text, scan.start, refusal)))
}
