// How many decimal digits a number has; zero has one. Tests against powers of ten, nested so that few are made: `partition_point` over
// the rows of the table costs a number of 34 digits seventeen instructions more.
ghost use Rattle.std.specs.Prelude.{◌≡◌, ◌^◌, ◌≤◌, ◌<◌, length};
ghost use Rattle.meaning.specs.Writing.{decimal};
ghost use Rattle.limbs.specs.Value.{value};
ghost use Rattle.limbs.specs.Count.{Counts, Four};

use crate::powers;

// Of a number of two limbs.
pub fn of_u64(v: u64) -> usize
    ensures digits { result ≡ length (decimal v) }
    ensures few { result ≤ 20 }
{
    match v.checked_ilog10() {
        Some(n) => n as usize + 1,
        None => 1,
    }
}

// Where there are k + 1 to k + 4; p, q and r are the powers of ten between these.
fn from(c: [u32; 4], k: usize, p: [u32; 4], q: [u32; 4], r: [u32; 4]) -> usize
    requires { Four (value c) k (value p) (value q) (value r) }
    ensures { Counts (value c) result }
{
    if crate::less(c, q) {
        if crate::less(c, p) { k + 1 } else { k + 2 }
    } else {
        if crate::less(c, r) { k + 3 } else { k + 4 }
    }
}

// How many digits a coefficient has.
pub fn digits(c: [u32; 4]) -> usize
    requires { value c < 10 ^ 34 }
    ensures { result ≡ length (decimal (value c)) }
{
    if let Some(v) = crate::to_u64(c) {
        return of_u64(v);
    }
    if crate::less(c, powers::TEN_27) {
        if crate::less(c, powers::TEN_23) {
            from(c, 19, powers::TEN_20, powers::TEN_21, powers::TEN_22)
        } else {
            from(c, 23, powers::TEN_24, powers::TEN_25, powers::TEN_26)
        }
    } else {
        if crate::less(c, powers::TEN_31) {
            from(c, 27, powers::TEN_28, powers::TEN_29, powers::TEN_30)
        } else {
            from(c, 31, powers::TEN_32, powers::TEN_33, powers::TEN_34)
        }
    }
}
