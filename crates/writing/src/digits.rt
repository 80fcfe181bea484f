// The decimal digits of a number, into a lent buffer, from the last on.
ghost use Rattle.std.specs.Prelude.{◌≡◌, [], ◌∷◌, ◌++◌, ◌+◌, ◌*◌, ◌/◌, ◌^◌, ◌<◌, ◌≤◌, length};
ghost use Rattle.limbs.specs.Value.{value};
ghost use Rattle.meaning.specs.Writing.{decimal};
ghost use Rattle.writing.specs.Pieces.{Chunks, Sized, low, point_at};
ghost use Rattle.writing.specs.Written.{written};

// The last `count` digits of a number, from `at` on, and what stands before them: 7025 by two -> 25, and 70 is left.
pub fn put_low(buf: &mut [u8], at: usize, count: usize, number: u32) -> u32
    requires { at + count ≤ length buf.old }
    ensures value { result ≡ number / 10 ^ count }
    ensures buf_after { buf.new ≡ written at (low count number) buf.old }
{
    let mut rest = number;
    'digits: for j in (0..count).rev() {
        // `rest % 10` would cost a second division
        let tenth = rest / 10;
        buf[at + j] = b'0' + (rest - tenth * 10) as u8;
        rest = tenth;
    }
    rest
}

// The digits of a number that has at most `count`, from `at` on, behind zeros for those that it has not: 70 in nine -> 000000070
fn put_few(buf: &mut [u8], at: usize, count: usize, number: u32)
    requires some { 0 < count }
    requires below { number < 10 ^ count }
    requires room { at + count ≤ length buf.old }
    ensures { buf.new ≡ written at (low count number) buf.old }
{
    let first = put_low(buf, at + 1, count - 1, number);
    buf[at] = b'0' + first as u8;
}

// ---- nine digits at a time

// A number in two parts: its last nine digits, and what stands before them.
#[derive(Clone, Copy)]
struct Cut {
    last: u32,
    before: u64,
}

// The two parts of d.
fn cut_nine(d: u64) -> Cut
    ensures { (result.last + 10 ^ 9 * result.before ≡ d) × (result.last < 10 ^ 9) × (result.before < 2 ^ 35) }
{
    // `d % 1_000_000_000` would cost a second division
    let before = d / 1_000_000_000;
    Cut {
        last: (d - before * 1_000_000_000) as u32,
        before,
    }
}

// The chunks of nine digits of four limbs, the lowest first. The limbs weigh 1, 2^32 = 4_294967296, 2^64 = 18_446744073_709551616
// and 2^96 = 79_228162514_264337593_543950336, here in powers of 10^9; so each chunk is a sum of products, and three short
// divisions carry from one to the next.
fn chunks(limbs: [u32; 4]) -> [u32; 4]
    requires { value limbs < 10 ^ 34 }
    ensures { Chunks (value limbs) result }
{
    let b0 = limbs[0] as u64;
    let b1 = limbs[1] as u64;
    let b2 = limbs[2] as u64;
    let b3 = limbs[3] as u64;
    let d0 = cut_nine(b0 + b1 * 294_967_296 + b2 * 709_551_616 + b3 * 543_950_336);
    let d1 = cut_nine(d0.before + b1 * 4 + b2 * 446_744_073 + b3 * 264_337_593);
    let d2 = cut_nine(d1.before + b2 * 18 + b3 * 228_162_514);
    let highest = (d2.before + b3 * 79) as u32;
    [d0.last, d1.last, d2.last, highest]
}

// The digits of a number that has at most `count`, from `at` on, chunk by chunk.
fn put_chunks(buf: &mut [u8], at: usize, count: usize, limbs: [u32; 4])
    requires some { 0 < count }
    requires few { count ≤ 34 }
    requires below { value limbs < 10 ^ count }
    requires room { at + count ≤ length buf.old }
    ensures { buf.new ≡ written at (low count (value limbs)) buf.old }
{
    let mut left = count;
    for chunk in chunks(limbs) {
        if left <= 9 {
            put_few(buf, at, left, chunk);
            return;
        }
        left -= 9;
        put_few(buf, at + left, 9, chunk);
    }
}

// The digits of a number that has at most `count`, from `at` on: all of them, where it has so many. Everyday numbers have few, all in
// the lowest limb, and are spared the chunks.
pub fn put_digits(buf: &mut [u8], at: usize, count: usize, limbs: [u32; 4])
    requires some { 0 < count }
    requires few { count ≤ 34 }
    requires below { value limbs < 10 ^ count }
    requires room { at + count ≤ length buf.old }
    ensures last { buf.new ≡ written at (low count (value limbs)) buf.old }
    ensures all { Sized (value limbs) count → buf.new ≡ written at (decimal (value limbs)) buf.old }
{
    if 9 < count {
        put_chunks(buf, at, count, limbs);
    } else {
        put_few(buf, at, count, limbs[0]);
    }
}

// ---- a point among the digits

// The digits of a number that has at most `count`, and a point behind them, from `at` on.
fn put_front(buf: &mut [u8], at: usize, count: usize, number: u32)
    requires some { 0 < count }
    requires below { number < 10 ^ count }
    requires room { at + count < length buf.old }
    ensures { buf.new ≡ written at (low count number ++ 46 ∷ []) buf.old }
{
    buf[at + count] = b'.';
    put_few(buf, at, count, number);
}

// The digits of a number that has at most `count`, with a point after the first `before`, from `at` on; none is moved.
pub fn put_around(buf: &mut [u8], at: usize, count: usize, before: usize, number: u32)
    requires below { number < 10 ^ count }
    requires some { 0 < before }
    requires within { before ≤ count }
    requires room { at + count < length buf.old }
    ensures { buf.new ≡ written at (point_at before (low count number)) buf.old }
{
    let front = put_low(buf, at + before + 1, count - before, number);
    put_front(buf, at, before, front);
}
