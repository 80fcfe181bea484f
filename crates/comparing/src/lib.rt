// The order of two values.
#![tactic(auto)]

ghost use Rattle.std.specs.Prelude.{◌≡◌, true, false, not, if◌then◌else◌, ◌+◌, ◌*◌, ◌^◌, ◌≤◌, ◌<◌, ◌==◌, Some, IfSome};
ghost use Rattle.std.specs.Ordering.{nat_cmp, ordering_reverse};
ghost use Rattle.limbs.specs.Value.{value};
ghost use Rattle.layout.specs.Fields.{said};
ghost use Rattle.layout.specs.Unpacked.{meant};
ghost use Rattle.layout.specs.declared.Fields as declared;
ghost use Rattle.meaning.specs.Decimal as decimal;
ghost use Rattle.meaning.specs.Layout.{stored, decode};
ghost use Rattle.meaning.specs.Order as meaning;
ghost use Rattle.meaning.specs.Order.{scaled, signed};
ghost use Rattle.comparing.specs.Told.{told, told_of, side_of, is_finite, is_nan, magnitudes_of, Sized};

use layout::{Fields, Kind, Unpacked};
use std::cmp::Ordering;

// ---- magnitudes

// By halves: `c == [0; 4]` costs each pair some fifteen instructions more, and the same value six.
fn is_zero(c: [u32; 4]) -> bool
    ensures { result ≡ (value c == 0) }
{
    limbs::low(c) == 0 && limbs::high(c) == 0
}

// 10^d. The library's `pow` costs a pair ten instructions more, and a table as much as a `match`, of which the check computes each
// row by itself.
fn ten(d: u32) -> u32
    requires { d ≤ 9 }
    ensures { result ≡ 10 ^ d }
{
    match d {
        0 => 1,
        1 => 10,
        2 => 100,
        3 => 1000,
        4 => 10000,
        5 => 100000,
        6 => 1000000,
        7 => 10000000,
        8 => 100000000,
        9 => 1000000000,
        _ => 1,
    }
}

// a·10^d, where a and 10^d are of one limb each.
fn short_product(a: [u32; 4], d: u32) -> Option<[u32; 4]>
    ensures { IfSome result (λ r. value r ≡ value a * 10 ^ d) }
{
    if 9 < d || a[1] != 0 || limbs::high(a) != 0 {
        return None;
    }
    Some(limbs::of_u64(a[0] as u64 * ten(d) as u64))
}

// a·10^d against c, nine digits at a time. What four limbs do not hold is above c, and so is any a·10^34 but zero.
fn long_product_order(a: [u32; 4], d: u32, c: [u32; 4]) -> Ordering
    requires { value c < 10 ^ 34 }
    ensures { result ≡ nat_cmp (value a * 10 ^ d) (value c) }
{
    if is_zero(a) {
        return limbs::compare(a, c);
    }
    if 33 < d {
        return Ordering::Greater;
    }
    let mut product = a;
    'nines: for _ in 0..d / 9 {
        let Some(next) = limbs::checked_multiply(product, 1_000_000_000, 0) else {
            return Ordering::Greater;
        };
        product = next;
    }
    match limbs::checked_multiply(product, ten(d % 9), 0) {
        Some(last) => limbs::compare(last, c),
        None => Ordering::Greater,
    }
}

// a·10^x against c·10^e. The type of an unpacked value says that its coefficient is below 10^34; here one travels by itself, as
// document 01 has it, and a clause says so.
fn magnitudes(x: u32, a: [u32; 4], e: u32, c: [u32; 4]) -> Ordering
    requires { (value a < 10 ^ 34) × (value c < 10 ^ 34) }
    ensures { result ≡ nat_cmp (scaled (value a) x e) (scaled (value c) e x) }
{
    if x == e {
        return limbs::compare(a, c);
    }
    if x < e {
        return match short_product(c, e - x) {
            Some(product) => limbs::compare(a, product),
            None => long_product_order(c, e - x, a).reverse(),
        };
    }
    match short_product(a, x - e) {
        Some(product) => limbs::compare(product, c),
        None => long_product_order(a, x - e, c),
    }
}

// The same of two finite values by their counts: the first digit that stands higher decides, unless it is a zero.
fn heights(u: Unpacked, v: Unpacked) -> Ordering
    requires { Sized u × Sized v }
    ensures { result ≡ magnitudes_of u.fields v.fields }
{
    let x = u.fields.exponent;
    let a = u.fields.coefficient;
    let e = v.fields.exponent;
    let c = v.fields.coefficient;
    let first = x as usize + u.digits;
    let second = e as usize + v.digits;
    if first < second && !is_zero(c) {
        return Ordering::Less;
    }
    if second < first && !is_zero(a) {
        return Ordering::Greater;
    }
    magnitudes(x, a, e, c)
}

// ---- signs

// A negative value stands below, any other above.
fn side(negative: bool) -> Ordering
    ensures { told_of result ≡ side_of negative }
{
    if negative {
        Ordering::Less
    } else {
        Ordering::Greater
    }
}

// ±a against ∓c; a zero has no sign.
fn opposite(negative: bool, a: [u32; 4], c: [u32; 4]) -> Ordering
    ensures { told_of result ≡ signed negative (value a) (not negative) (value c) }
{
    if is_zero(a) && is_zero(c) {
        Ordering::Equal
    } else {
        side(negative)
    }
}

// The order of two values of one sign, whose magnitudes have this one.
fn with_sign(negative: bool, magnitudes: Ordering) -> Ordering
    ensures { result ≡ (if negative then ordering_reverse magnitudes else magnitudes) }
{
    if negative {
        magnitudes.reverse()
    } else {
        magnitudes
    }
}

// Two finite values.
fn finite(u: Fields, v: Fields) -> Ordering
    requires { (value u.coefficient < 10 ^ 34) × (value v.coefficient < 10 ^ 34) }
    ensures { told_of result ≡ meaning.relation (decimal.Decimal.finite u.negative u.exponent (value u.coefficient)) (decimal.Decimal.finite v.negative v.exponent (value v.coefficient)) }
{
    let a = u.coefficient;
    let c = v.coefficient;
    let negative = u.negative;
    if negative != v.negative {
        return opposite(negative, a, c);
    }
    with_sign(negative, magnitudes(u.exponent, a, v.exponent, c))
}

// ---- infinities and NaN

fn is_finite(kind: Kind) -> bool
    ensures { result ≡ is_finite kind }
{
    matches!(kind, Kind::Finite)
}

fn is_nan(kind: Kind) -> bool
    ensures { result ≡ is_nan kind }
{
    matches!(kind, Kind::Nan { .. })
}

// A NaN or an infinity against any value.
fn special(u: Fields, v: Fields) -> Option<Ordering>
    requires { is_finite u.kind ≡ false }
    ensures { told result ≡ meaning.relation (said u) (said v) }
{
    if is_nan(u.kind) || is_nan(v.kind) {
        return None;
    }
    if is_finite(v.kind) || u.negative != v.negative {
        return Some(side(u.negative));
    }
    Some(Ordering::Equal)
}

// Any finite value against a NaN or an infinity.
fn beside(v: Fields) -> Option<Ordering>
    requires { is_finite v.kind ≡ false }
    ensures { (u : declared.Fields) → is_finite u.kind ≡ true → told result ≡ meaning.relation (said u) (said v) }
{
    if is_nan(v.kind) {
        return None;
    }
    Some(side(!v.negative))
}

// A value against itself.
fn itself(u: Fields) -> Option<Ordering>
    ensures { told result ≡ meaning.relation (said u) (said u) }
{
    if is_nan(u.kind) {
        return None;
    }
    Some(Ordering::Equal)
}

// The order of two stored values, none with a NaN: IEEE 754-2008, 5.11. The same bytes are told first, which costs other finite
// pairs nothing. The second's fields are taken where the first is known to be finite or not, so that no kind is kept for later.
// Counting digits would cost more than the raising that it spares.
pub fn compare(a: &[u8; 16], b: &[u8; 16]) -> Option<Ordering>
    ensures { told result ≡ meaning.relation (decode (stored a.now)) (decode (stored b.now)) }
{
    if layout::same(a, b) {
        return itself(layout::fields_of(*a));
    }
    let u = layout::fields_of(*a);
    if !is_finite(u.kind) {
        return special(u, layout::fields_of(*b));
    }
    let v = layout::fields_of(*b);
    if !is_finite(v.kind) {
        return beside(v);
    }
    Some(finite(u, v))
}

// The order of two values whose digits are counted already. What `finite` says of the signs stands here again: one function for both
// would take the order of the magnitudes as a closure, whose contract is longer than these three lines.
pub fn values(u: Unpacked, v: Unpacked) -> Option<Ordering>
    ensures { told result ≡ meaning.relation (meant u) (meant v) }
{
    let f = u.fields;
    let g = v.fields;
    if !is_finite(f.kind) {
        return special(f, g);
    }
    if !is_finite(g.kind) {
        return beside(g);
    }
    if f.negative != g.negative {
        return Some(opposite(f.negative, f.coefficient, g.coefficient));
    }
    Some(with_sign(f.negative, heights(u, v)))
}
