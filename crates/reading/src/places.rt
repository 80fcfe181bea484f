// Where a text is refused: document 02, ticket 2. The decimal part stops at `stop`.
ghost use Rattle.std.specs.Prelude.{◌≡◌, ◌≤◌, ◌<◌, length};
ghost use Rattle.reading.specs.Parted.{behind, place_for};

use crate::answer::Refusal;

// The byte after the `e`, which stands at the stop, or the text's length when there is none.
pub fn after_e(text: &[u8], stop: usize) -> usize
    requires { stop ≤ length text.now }
    ensures { result ≡ behind stop text.now }
{
    text.len().min(stop + 1)
}

// Steps 3 to 6: an empty exponent at the `e`, the last byte; a wrong byte at the stop; the others after the `e`.
pub fn early(text: &[u8], stop: usize, refusal: Refusal) -> usize
    requires within { stop ≤ length text.now }
    requires some { 0 < length text.now }
    ensures { result ≡ place_for refusal stop text.now }
{
    match refusal {
        Refusal::EmptyExponent => text.len() - 1,
        Refusal::Unparseable => stop,
        _ => after_e(text, stop),
    }
}
