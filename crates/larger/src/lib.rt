// The larger of two texts, for Rattle and for C. It has a static library of its own: a second caller of the reader beside
// `decimal128_read` would cost every reading.
#![tactic(auto)]

ghost use Rattle.std.specs.Prelude.{◌≡◌};
ghost use Rattle.meaning.specs.Order.{Choice};
ghost use Rattle.larger.specs.Part.{slice, named, LargerAllows};

use std::cmp::Ordering;

// No byte of the text, from where it begins.
fn empty_part(text: &[u8]) -> &[u8]
    ensures { slice result ≡ named Choice.neither text.entry text.entry }
{
    &text[0..0]
}

// The text whose value is greater, the first when they are equal; where either is refused or is NaN, an empty part of the first.
pub fn larger<'a>(a: &'a [u8], b: &'a [u8]) -> &'a [u8]
    ensures { LargerAllows a.entry b.entry result }
{
    let Ok(u) = reading::read(a) else {
        return empty_part(a);
    };
    let Ok(v) = reading::read(b) else {
        return empty_part(a);
    };
    match comparing::values(u, v) {
        Some(Ordering::Less) => b,
        Some(Ordering::Equal) => a,
        Some(Ordering::Greater) => a,
        None => empty_part(a),
    }
}

// include/decimal128.h says what it gives.
pub fn decimal128_larger<'a>(a: &'a [u8], b: &'a [u8], part: &mut &'a [u8])
    ensures { LargerAllows a.entry b.entry part.new }
{
    *part = larger(a, b);
}
