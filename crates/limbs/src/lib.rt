// Numbers below 2^128 as four limbs of 32 bits, by value, lowest limb first: what a `u128` is in the Rust. Document 01 names this
// form, and all contracts above are about it.
#![tactic(auto)]

ghost use Rattle.std.specs.Prelude.{◌≡◌, ◌+◌, ◌-◌, ◌*◌, ◌/◌, ◌%◌, ◌^◌, ◌<◌, ◌≤◌, nat_lt, MatchOption};
ghost use Rattle.std.specs.Ordering.{nat_cmp};
ghost use Rattle.std.specs.Int.{from_bool};
ghost use Rattle.std.specs.Option.{SomeIff};
ghost use Rattle.limbs.specs.Value.{value};

use std::cmp::Ordering;

pub mod count;
pub mod powers;
pub mod wide;

// A number below 2^64.
pub fn of_u64(v: u64) -> [u32; 4]
    ensures { value result ≡ v }
{
    of_halves(v, 0)
}

// Two limbs as one number, x the lower.
fn pair(x: u32, y: u32) -> u64
    ensures { result ≡ x + 2 ^ 32 * y }
{
    y as u64 * 0x1_0000_0000 + x as u64
}

// The lower half.
pub fn low(a: [u32; 4]) -> u64
    ensures { result ≡ value a % 2 ^ 64 }
{
    pair(a[0], a[1])
}

// The upper half.
pub fn high(a: [u32; 4]) -> u64
    ensures { result ≡ value a / 2 ^ 64 }
{
    pair(a[2], a[3])
}

// Four limbs of two halves.
pub fn of_halves(low: u64, high: u64) -> [u32; 4]
    ensures { value result ≡ low + 2 ^ 64 * high }
{
    [
        (low % 0x1_0000_0000) as u32,
        (low / 0x1_0000_0000) as u32,
        (high % 0x1_0000_0000) as u32,
        (high / 0x1_0000_0000) as u32,
    ]
}

// The number, where the lower half is all there is.
pub fn to_u64(a: [u32; 4]) -> Option<u64>
    ensures { SomeIff result (value a < 2 ^ 64) (value a) }
{
    if high(a) == 0 { Some(low(a)) } else { None }
}

// ---- order

// a is below b, from the highest limb on; the derived order of arrays begins with the lowest. By halves, as in `compare`, a write takes
// twelve instructions more.
pub fn less(a: [u32; 4], b: [u32; 4]) -> bool
    ensures { result ≡ nat_lt (value a) (value b) }
{
    if a[3] != b[3] {
        return a[3] < b[3];
    }
    if a[2] != b[2] {
        return a[2] < b[2];
    }
    if a[1] != b[1] {
        return a[1] < b[1];
    }
    a[0] < b[0]
}

// The order of a and b, by halves: a comparison has them in registers. Reader and writer have limbs in memory, and `less` is shorter
// there. Tests and no `high(a).cmp(&high(b)).then(..)`, which costs each pair three instructions more.
pub fn compare(a: [u32; 4], b: [u32; 4]) -> Ordering
    ensures { result ≡ nat_cmp (value a) (value b) }
{
    let x = high(a);
    let y = high(b);
    if x != y {
        if x < y {
            return Ordering::Less;
        }
        return Ordering::Greater;
    }
    let l = low(a);
    let k = low(b);
    if l < k {
        return Ordering::Less;
    }
    if k < l {
        return Ordering::Greater;
    }
    Ordering::Equal
}

// ---- sums and products

// a plus b, and what is carried out of the highest limb.
pub fn add(a: [u32; 4], b: [u32; 4]) -> ([u32; 4], bool)
    ensures { value result.0 + 2 ^ 128 * from_bool result.1 ≡ value a + value b }
{
    let (s0, c0) = a[0].carrying_add(b[0], false);
    let (s1, c1) = a[1].carrying_add(b[1], c0);
    let (s2, c2) = a[2].carrying_add(b[2], c1);
    let (s3, c3) = a[3].carrying_add(b[3], c2);
    ([s0, s1, s2, s3], c3)
}

// a plus b, where four limbs hold it.
pub fn checked_add(a: [u32; 4], b: [u32; 4]) -> Option<[u32; 4]>
    ensures { MatchOption result (2 ^ 128 ≤ value a + value b) (λ r. value r ≡ value a + value b) }
{
    let (sum, carry) = add(a, b);
    if carry { None } else { Some(sum) }
}

// a times by, plus more, and what is carried out of the highest limb.
pub fn multiply(a: [u32; 4], by: u32, more: u32) -> ([u32; 4], u32)
    ensures { value result.0 + 2 ^ 128 * result.1 ≡ value a * by + more }
{
    let (s0, c0) = a[0].carrying_mul(by, more);
    let (s1, c1) = a[1].carrying_mul(by, c0);
    let (s2, c2) = a[2].carrying_mul(by, c1);
    let (s3, c3) = a[3].carrying_mul(by, c2);
    ([s0, s1, s2, s3], c3)
}

// a times by, plus more, where four limbs hold it.
pub fn checked_multiply(a: [u32; 4], by: u32, more: u32) -> Option<[u32; 4]>
    ensures { MatchOption result (2 ^ 128 ≤ value a * by + more) (λ r. value r ≡ value a * by + more) }
{
    let (product, carry) = multiply(a, by, more);
    if carry == 0 { Some(product) } else { None }
}

// a with one more digit behind it.
pub fn times_ten_plus(a: [u32; 4], digit: u32) -> [u32; 4]
    requires { value a * 10 + digit < 2 ^ 128 }
    ensures { value result ≡ value a * 10 + digit }
{
    multiply(a, 10, digit).0
}

// a times by, and above that n, one limb further up.
fn times_limb(a: [u32; 4], by: u32, n: [u32; 4]) -> [u32; 4]
    requires { value a * by + 2 ^ 32 * value n < 2 ^ 128 }
    ensures { value result ≡ value a * by + 2 ^ 32 * value n }
{
    let (product, _) = multiply(a, by, 0);
    add(product, [0, n[0], n[1], n[2]]).0
}

// a times b, from the highest limb of b on.
pub fn times(a: [u32; 4], b: [u32; 4]) -> [u32; 4]
    requires { value a * value b < 2 ^ 128 }
    ensures { value result ≡ value a * value b }
{
    let mut product = [0, 0, 0, 0];
    for i in (0..4).rev() {
        let next = times_limb(a, b[i], product);
        product = next;
    }
    product
}

// ---- differences

// a less b.
pub fn subtract(a: [u32; 4], b: [u32; 4]) -> [u32; 4]
    requires { value b ≤ value a }
    ensures { value result ≡ value a - value b }
{
    let (s0, c0) = a[0].borrowing_sub(b[0], false);
    let (s1, c1) = a[1].borrowing_sub(b[1], c0);
    let (s2, c2) = a[2].borrowing_sub(b[2], c1);
    let (s3, _) = a[3].borrowing_sub(b[3], c2);
    [s0, s1, s2, s3]
}

// ---- division

// One limb of a long division: the limb of the quotient, and what is left for the next limb.
fn divide_limb(rest: u32, limb: u32, by: u32) -> (u32, u32)
    requires { rest < by }
    ensures { (result.0 * by + result.1 ≡ rest * 2 ^ 32 + limb) × (result.1 < by) }
{
    let t = pair(limb, rest);
    let d = by as u64;
    ((t / d) as u32, (t % d) as u32)
}

// The quotient and the remainder of a by a number of one limb, from the highest limb on.
pub fn divide(a: [u32; 4], by: u32) -> ([u32; 4], u32)
    requires { 0 < by }
    ensures { (value result.0 ≡ value a / by) × (result.1 ≡ value a % by) }
{
    let (q3, r3) = divide_limb(0, a[3], by);
    let (q2, r2) = divide_limb(r3, a[2], by);
    let (q1, r1) = divide_limb(r2, a[1], by);
    let (q0, r0) = divide_limb(r1, a[0], by);
    ([q0, q1, q2, q3], r0)
}

// The same by ten; a number below 2^64 is divided at once.
pub fn divide_by_ten(a: [u32; 4]) -> ([u32; 4], u32)
    ensures { (value result.0 ≡ value a / 10) × (result.1 ≡ value a % 10) × (result.1 < 10) }
{
    match to_u64(a) {
        Some(v) => (of_u64(v / 10), (v % 10) as u32),
        None => divide(a, 10),
    }
}
